// A row of a schedule: which task moves next, what it does, and what is to come of it.
use crate::machine::{Signal, Task};
use cells::refusal::Refusal;
use rules::answer::Abort;
use std::fmt::{self, Display};

#[derive(Clone, Copy)]
pub(crate) enum Act<C> {
    Begin,
    Read(Signal),
    Write(Signal, C),
    Commit,
    Work,
    Quit,
}

impl<C: Display> Display for Act<C> {
    fn fmt<W: fmt::Write>(&self, f: &mut fmt::Formatter<W>) -> fmt::Result {
        match self {
            Act::Begin => write!(f, "begins"),
            Act::Read(signal) => write!(f, "reads {signal}"),
            Act::Write(signal, cell) => write!(f, "writes {signal} {cell}"),
            Act::Commit => write!(f, "commits"),
            Act::Work => write!(f, "works"),
            Act::Quit => write!(f, "quits"),
        }
    }
}

// Flat, since a row of a table names one of these: as a Result it is no plainer, `Err(Refused(MustWait { place: 1 }))` for `Waits(1)`.
#[derive(PartialEq, Drop)]
pub(crate) enum Outcome<C> {
    // The start.
    Began(u32),
    Answered(C),
    // How many cells are logged.
    Logged(u32),
    // The place.
    Placed(u32),
    NothingLogged,
    // How many cells are left to write back.
    Left(u32),
    // The place.
    Finished(u32),
    // How many logged cells are given up.
    GaveUp(u32),
    // The place of the writer.
    Conflict(u32),
    Overrun,
    // The place waited for.
    Waits(u32),
    Refused(Refusal),
    // What the task holds has no such call.
    OutOfTurn,
}

impl<C: Display> Display for Outcome<C> {
    fn fmt<W: fmt::Write>(&self, f: &mut fmt::Formatter<W>) -> fmt::Result {
        match self {
            Outcome::Began(start) => write!(f, "start {start}"),
            Outcome::Answered(cell) => write!(f, "{cell}"),
            Outcome::Logged(count) => write!(f, "{count} logged"),
            Outcome::Placed(place) => write!(f, "place {place}"),
            Outcome::NothingLogged => write!(f, "nothing to write back"),
            Outcome::Left(count) => write!(f, "{count} left to write back"),
            Outcome::Finished(place) => write!(f, "place {place} is finished"),
            Outcome::GaveUp(count) => write!(f, "{count} logged and given up"),
            Outcome::Conflict(place) => write!(f, "conflict with place {place}"),
            Outcome::Overrun => write!(f, "overrun"),
            Outcome::Waits(place) => write!(f, "waits for place {place}"),
            Outcome::Refused(refusal) => write!(f, "refusal {}", refusal.code()),
            Outcome::OutOfTurn => write!(f, "out of turn"),
        }
    }
}

// A writer that must wait names the place.
impl<C> From<Refusal> for Outcome<C> {
    fn from(refusal: Refusal) -> Outcome<C> {
        match refusal {
            Refusal::MustWait { place } => Outcome::Waits(place),
            _ => Outcome::Refused(refusal),
        }
    }
}

impl<C> From<Abort> for Outcome<C> {
    fn from(abort: Abort) -> Outcome<C> {
        match abort {
            Abort::Conflict { place, compared: _ } => Outcome::Conflict(place),
            Abort::Overrun { compared: _ } => Outcome::Overrun,
        }
    }
}

#[derive(Drop)]
pub(crate) struct Move<C>(pub(crate) Task, pub(crate) Act<C>, pub(crate) Outcome<C>);
