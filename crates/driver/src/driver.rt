// The driver: a store of rows over any socket.
mod checks;
pub mod commands;
pub mod making;
pub mod others;
pub mod row_calls;

// A socket, and how many reads the latest call made to settle.
#[derive(Drop)]
pub struct Driver<S> {
    socket: S,
    settling_reads: u32,
}
