// What calls answer besides a refusal alone.
ghost use Rattle.std.specs.Prelude.{◌≡◌};
ghost use Rattle.rules.specs.declared.answer.Denial.TheVariants.{Aborted, Refused};

use cells::refusal::Refusal;

// How the check ends a transaction: the caller's record is emptied. `compared` is the number of filters asked, the
// conflicting one included.
#[derive(Clone, Copy, PartialEq, Eq, Debug)]
pub enum Abort {
    // The writer at this place may have logged a cell that was read.
    Conflict { place: u32, compared: u32 },
    // A place to compare with is no longer on the ring.
    Overrun { compared: u32 },
}

// Why a read or a commit is not accepted.
#[derive(Clone, Copy, PartialEq, Eq, Debug)]
pub enum Denial {
    // Nothing is changed.
    Refused(Refusal),
    // The transaction has ended.
    Aborted(Abort),
}

impl From<Refusal> for Denial {
    ghost from_gives = { λ refusal denial. denial ≡ Refused refusal };

    fn from(refusal: Refusal) -> Denial {
        Denial::Refused(refusal)
    }
}

impl From<Abort> for Denial {
    ghost from_gives = { λ abort denial. denial ≡ Aborted abort };

    fn from(abort: Abort) -> Denial {
        Denial::Aborted(abort)
    }
}

// What an accepted work has done.
#[derive(Clone, Copy, PartialEq, Eq, Debug)]
pub enum Worked {
    // One logged cell is written; this many are left.
    Left(u32),
    // All cells were written before; the writer at this place is finished.
    Done { place: u32 },
}
