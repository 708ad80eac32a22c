// Why a story ends before its last move.
use cells::refusal::Refusal;
use std::io;
use thiserror::Error;

#[derive(Debug, Drop, Error)]
pub(crate) enum Fault {
    #[error("a line cannot be written")]
    Output,
    #[error("the making is refused: {0}")]
    Making(#[from] Refusal),
    #[error("a move went another way than the table says")]
    AnotherWay,
    #[error("a task still holds a transaction")]
    Unfinished,
}

// By hand: the error is not kept, since no more is to be trusted, and its text comes from one more C function.
impl From<io::Error> for Fault {
    fn from(_error: io::Error) -> Fault {
        Fault::Output
    }
}
