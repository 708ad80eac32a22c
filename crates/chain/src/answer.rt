// What the engine answers to a move.
use cells::refusal::Refusal;
use rules::answer::{Abort, Denial, Worked};
use std::fmt;

// What an accepted call has done.
#[derive(Clone, Copy)]
pub enum Effect {
    Began { start: u32 },
    Read { cell: u32, compared: u32 },
    Wrote { logged: u32 },
    // A commit with nothing logged has no place.
    Committed { place: Option<u32>, compared: u32 },
    Worked(Worked),
    Quit { logged: u32 },
}

pub type Answer = Result<Effect, Denial>;

impl fmt::Display for Effect {
    fn fmt<W: fmt::Write>(&self, f: &mut fmt::Formatter<W>) -> fmt::Result {
        match *self {
            Effect::Began { start } => write!(f, "start {start}"),
            Effect::Read { cell, compared } => write!(f, "{cell}, compared {compared}"),
            Effect::Wrote { logged } => write!(f, "logged {logged}"),
            Effect::Committed {
                place: Some(place),
                compared,
            } => write!(f, "place {place}, compared {compared}"),
            Effect::Committed { place: None, .. } => write!(f, "nothing was logged"),
            Effect::Worked(Worked::Left(cells)) => write!(f, "{cells} left"),
            Effect::Worked(Worked::Done { place }) => write!(f, "done with place {place}"),
            Effect::Quit { logged } => write!(f, "{logged} logged, given up"),
        }
    }
}

// A denial as it is printed.
#[derive(Clone, Copy)]
pub struct Denied(pub Denial);

impl fmt::Display for Denied {
    fn fmt<W: fmt::Write>(&self, f: &mut fmt::Formatter<W>) -> fmt::Result {
        match self.0 {
            Denial::Refused(Refusal::MustWait { place }) => {
                write!(f, "must wait for place {place}")
            }
            Denial::Refused(refusal) => write!(f, "refused, {refusal}"),
            Denial::Aborted(Abort::Conflict { place, compared }) => write!(
                f,
                "conflict with place {place}, compared {compared}"
            ),
            Denial::Aborted(Abort::Overrun { compared }) => {
                write!(f, "overrun, compared {compared}")
            }
        }
    }
}
