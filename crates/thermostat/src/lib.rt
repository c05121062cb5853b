// The model thermostat (document 01, "Registers and the model thermostat"; document 02, K1; source document 004).
#![tactic(auto)]

mod address; // the own address
mod copying; // bytes copied into lent memory
mod registers; // which registers are listed, which may be written, and the bytes that each takes
mod report; // what is answered: to a set, and to polls of registers, groups and texts
pub mod setpoints; // a setpoint pair, made from two bytes and turned back into them
pub mod step; // a step: one message in, the map and the text store changed, the reply out
mod tables; // what is stated of each register number
pub mod temperature; // bytes as degrees, and back
mod texts; // the text store: ten texts, looked at, read and stored
