// One turn of a run: a task, its act, and the answer that it must get.
use cells::refusal::Refusal;
use rules::answer::{Abort, Denial, Worked};

#[derive(Clone, Copy)]
pub struct Turn(pub u32, pub Act, pub Answer);

#[derive(Clone, Copy)]
pub enum Act {
    Begin,
    // An address.
    Read(u32),
    // An address and its cell.
    Write(u32, u32),
    Commit,
    Work,
    Quit,
    // The asking for the outstanding count, which no task makes.
    Count,
    // A look at the cell that the memory holds at an address.
    Look(u32),
}

// Flat, and no Result: a row of a table names its answer in one word, which `Ok` and `Err` around it do not make plainer.
#[derive(Clone, Copy, PartialEq, Eq, Debug)]
pub enum Answer {
    // The start.
    Began(u32),
    // The cell and the number compared.
    Found(u32, u32),
    // The logged count.
    Logged(u32),
    // The place and the number compared.
    Placed(u32, u32),
    // A commit with nothing logged, and the number compared.
    Unplaced(u32),
    // How many cells are left.
    Left(u32),
    // The place.
    Done(u32),
    // The place and the number compared.
    Conflict(u32, u32),
    // The number compared.
    Overrun(u32),
    Refused(Refusal),
    // A work must wait for this place.
    Waits(u32),
    // What is owed.
    Owed(u32),
    // The cell.
    Holds(u32),
}

impl From<Refusal> for Answer {
    fn from(refusal: Refusal) -> Answer {
        match refusal {
            Refusal::MustWait { place } => Answer::Waits(place),
            _ => Answer::Refused(refusal),
        }
    }
}

impl From<Denial> for Answer {
    fn from(denial: Denial) -> Answer {
        match denial {
            Denial::Refused(refusal) => refusal.into(),
            Denial::Aborted(Abort::Conflict { place, compared }) => {
                Answer::Conflict(place, compared)
            }
            Denial::Aborted(Abort::Overrun { compared }) => Answer::Overrun(compared),
        }
    }
}

impl From<Worked> for Answer {
    fn from(worked: Worked) -> Answer {
        match worked {
            Worked::Left(cells) => Answer::Left(cells),
            Worked::Done { place } => Answer::Done(place),
        }
    }
}
