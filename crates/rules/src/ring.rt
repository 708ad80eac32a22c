// The ring: one entry a slot. Place i, from 1 up, belongs to slot i mod the ring's length.
ghost use Rattle.std.specs.Prelude.{◌≡◌, MatchBool};
ghost use Rattle.rules.specs.Making.{Vacant};
ghost use Rattle.rules.specs.declared.ring.Status.TheVariants.{Complete, Writing};

use filters::filter::Filter;

#[derive(Clone, Copy, PartialEq, Eq, Debug)]
pub enum Status {
    Writing,
    Complete,
}

// The entry of one committed writer: its place, the addresses it logs, and whether it is still writing them.
#[derive(Clone, Copy)]
pub struct Entry<F> {
    pub stamp: u32,
    pub filter: F,
    pub status: Status,
}

impl<F: Filter> Entry<F> {
    // Stamp 0, a new filter and status complete.
    pub fn vacant() -> Entry<F>
        ensures { Vacant F.Filter result }
    {
        Entry {
            stamp: 0,
            filter: F::new(),
            status: Status::Complete,
        }
    }

    // Whether the writer still writes its cells back.
    pub fn is_writing(&self) -> bool
        ensures { MatchBool result (self.now.status ≡ Writing) (self.now.status ≡ Complete) }
    {
        matches!(self.status, Status::Writing)
    }
}
