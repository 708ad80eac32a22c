// The refusals, each with its number. A refused call changes nothing.
ghost use Rattle.std.specs.Prelude.{◌≡◌, Some};
ghost use Rattle.cells.specs.Refusals.{number};
ghost use Rattle.cells.specs.Texts.{refusal_text};

use std::fmt;

#[derive(Clone, Copy, PartialEq, Eq, Debug)]
pub enum Refusal {
    RingLength,
    TaskCount,
    LogLength,
    LastPlace,
    MemorySize,
    ArrayLength,
    TaskNumber,
    Address,
    BrokenLine,
    OutputFull,
    Torn,
    PhaseForbids,
    LogFull,
    PlacesSpent,
    RingFull,
    // Work must wait for this place.
    MustWait { place: u32 },
}

impl Refusal {
    // A method and no conversion into `u32`: `code` says which number of a refusal is meant, the rulebook's.
    pub fn code(self) -> u32
        ensures { result ≡ number self }
    {
        match self {
            Refusal::RingLength => 1,
            Refusal::TaskCount => 2,
            Refusal::LogLength => 3,
            Refusal::LastPlace => 4,
            Refusal::MemorySize => 5,
            Refusal::ArrayLength => 6,
            Refusal::TaskNumber => 7,
            Refusal::Address => 8,
            Refusal::BrokenLine => 9,
            Refusal::OutputFull => 10,
            Refusal::Torn => 21,
            Refusal::PhaseForbids => 22,
            Refusal::LogFull => 23,
            Refusal::PlacesSpent => 24,
            Refusal::RingFull => 25,
            Refusal::MustWait { place: _ } => 26,
        }
    }
}

impl fmt::Display for Refusal {
    ghost output = { λ refusal. Some (refusal_text refusal) };

    fn fmt<W: fmt::Write>(&self, f: &mut fmt::Formatter<W>) -> fmt::Result {
        match *self {
            Refusal::RingLength => write!(f, "ring length"),
            Refusal::TaskCount => write!(f, "task count"),
            Refusal::LogLength => write!(f, "log length"),
            Refusal::LastPlace => write!(f, "last place"),
            Refusal::MemorySize => write!(f, "memory size"),
            Refusal::ArrayLength => write!(f, "array length"),
            Refusal::TaskNumber => write!(f, "task number"),
            Refusal::Address => write!(f, "address"),
            Refusal::BrokenLine => write!(f, "broken line"),
            Refusal::OutputFull => write!(f, "output full"),
            Refusal::Torn => write!(f, "torn"),
            Refusal::PhaseForbids => write!(f, "phase forbids"),
            Refusal::LogFull => write!(f, "log full"),
            Refusal::PlacesSpent => write!(f, "places spent"),
            Refusal::RingFull => write!(f, "ring full"),
            Refusal::MustWait { place } => write!(f, "must wait for place {place}"),
        }
    }
}
