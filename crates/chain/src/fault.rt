// Why the program ends before its last move.
use cells::refusal::Refusal;
use std::alloc::AllocError;
use std::io;
use thiserror::Error;

#[derive(Debug, Drop, Error)]
pub enum Fault {
    #[error("the allocator found no room")]
    Room,
    #[error("a line cannot be written")]
    Output,
    // Making, outstanding or a look at the memory was refused.
    #[error("refused, {0}")]
    Refusal(#[from] Refusal),
}

// By hand: what the program says of a fault names no more than `Room`.
impl From<AllocError> for Fault {
    fn from(_error: AllocError) -> Fault {
        Fault::Room
    }
}

// By hand: the error is not kept, since no more is to be trusted, and its text comes from one more C function.
impl From<io::Error> for Fault {
    fn from(_error: io::Error) -> Fault {
        Fault::Output
    }
}
