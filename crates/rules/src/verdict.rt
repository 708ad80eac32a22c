// The verdict of a check.
use crate::answer::Abort;

// A check that the transaction passes: it goes on with this start. `compared` is the number of filters asked.
#[derive(Clone, Copy, PartialEq, Eq, Debug)]
pub struct Passed {
    pub start: u32,
    pub compared: u32,
}

// The transaction goes on, or the check has ended it.
pub type Verdict = Result<Passed, Abort>;
