// Omni-Link frames (document 01, "Omni-Link frames"): 5A, length L from 01 to 41, type byte, L-1 data bytes, CRC low byte,
// CRC high byte.
#![tactic(auto)]

pub mod copying; // bytes copied into lent memory
pub mod frame;
