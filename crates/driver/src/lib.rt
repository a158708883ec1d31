// Rows of 128 bytes on any part in a socket.
#![tactic(auto)]

mod code;
pub mod driver;
mod lock;
mod sector;
