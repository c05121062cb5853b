// Omnistat2 messages, for both ends (document 01, "Omnistat2 messages"; source document 004).
#![tactic(auto)]

pub mod frame; // which end a message is for, the sum, and the frame of a message
pub mod group; // the three groups of registers
pub mod habit; // how thermostats reply to group polls
mod message; // runs of registers, and what messages of both ends share
pub mod reply; // what a thermostat replies: read at the host, written to the host
pub mod request; // what the host sends: read at the thermostat, written to the thermostat
pub mod text; // texts on the thermostat's screen, at both ends
