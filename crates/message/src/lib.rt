// Omni-Link messages (document 01, "Omni-Link messages"): typed reading and writing above frames.
#![tactic(auto)]

mod check;
pub mod command;
pub mod item;
pub mod lists;
pub mod log;
pub mod message;
pub mod packed;
pub mod typed;
