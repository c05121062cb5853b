// The calls of the C interface: a thin call over each public operation. The crate host_c exports every public function here, and
// include/gateway.h declares them.
#![tactic(auto)]

pub mod captures;
pub mod cost;
pub mod damaged;
pub mod login;
pub mod messages;
pub mod model;
pub mod omnilink;
pub mod omnistat2;
pub mod patterns;
mod packing; // answers packed
