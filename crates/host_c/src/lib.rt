// The C interface: each function of the library host under its own name, for C hosts. include/gateway.h declares every one. Two crates, since a
// crate is a library or a static library, and vectors stands on the one.
#![tactic(auto)]

mod captures;
mod cost;
mod damaged;
mod login;
mod messages;
mod model;
mod omnilink;
mod omnistat2;
mod patterns;
