// What the calls answer. A transaction that an answer holds goes on; one that it does not hold has ended.
ghost use Rattle.std.specs.Prelude.{◌≡◌};
ghost use Rattle.held.specs.declared.answer.Denied.TheVariants.{Refused as DeniedRefused};

use crate::transaction::{CommittedTransaction, OpenTransaction};
use cells::refusal::Refusal;
use rules::answer::Abort;

// A refused call changes nothing, and its transaction goes on.
pub struct Refused<T> {
    pub transaction: T,
    pub refusal: Refusal,
}

// Why a read or a commit is not accepted: a `Denial` that hands a refused transaction back. One generic type for both would say
// so of neither.
pub enum Denied {
    Refused(Refused<OpenTransaction>),
    // The transaction has ended.
    Aborted(Abort),
}

impl From<Refused<OpenTransaction>> for Denied {
    ghost from_gives = { λ refused denied. denied ≡ DeniedRefused refused };

    fn from(refused: Refused<OpenTransaction>) -> Denied {
        Denied::Refused(refused)
    }
}

// An accepted read; `compared` is the number of filters asked.
pub struct Reading<C> {
    pub transaction: OpenTransaction,
    pub cell: C,
    pub compared: u32,
}

// An accepted commit.
pub enum Committing {
    Committed {
        transaction: CommittedTransaction,
        place: u32,
        compared: u32,
    },
    // The transaction has ended without a place.
    NothingLogged {
        compared: u32,
    },
}

// An accepted work.
pub enum Working {
    // One cell is written back, and this many are left.
    Left {
        transaction: CommittedTransaction,
        cells: u32,
    },
    // The writer at this place is finished.
    Done {
        place: u32,
    },
}
