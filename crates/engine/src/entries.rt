// Writes of one entry of the ring.
ghost use Rattle.std.specs.Prelude.{◌≡◌, ◌%◌, ◌<◌, length, set};
ghost use Rattle.engine.specs.Parts.{Completed};
ghost use Rattle.rules.specs.declared.ring.Status.TheVariants.{Writing};

use filters::filter::Filter;
use rules::ring::{Entry, Status};

// The entry of a writer that takes this place.
pub(crate) fn enter<F: Filter>(ring: &mut [Entry<F>], place: u32, filter: F)
    requires { 0 < length ring.old }
    ensures { ring.new ≡ set ring.old (place % length ring.old) (record { stamp = place; filter = filter; status = Writing }) }
{
    let slot = place as usize % ring.len();
    ring[slot] = Entry {
        stamp: place,
        filter,
        status: Status::Writing,
    };
}

// The entry of this place is set complete.
pub(crate) fn complete<F: Filter>(ring: &mut [Entry<F>], place: u32)
    requires { 0 < length ring.old }
    ensures { Completed place ring.old ring.new }
{
    let slot = place as usize % ring.len();
    let entry = ring[slot];
    ring[slot] = Entry {
        status: Status::Complete,
        ..entry
    };
}
