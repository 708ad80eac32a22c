// Walks on the ring. Place i, from 1 up, belongs to slot i mod the ring's length.
ghost use Rattle.std.specs.Prelude.{length, MatchBool, MatchOption};
ghost use Rattle.rules.specs.Faults.{Meets, Blocking};
ghost use Rattle.rules.specs.Places.{Pending, Present, Settled};
ghost use Rattle.walks.specs.Waiting.{Awaits};

use crate::asking::meets;
use filters::filter::Filter;
use rules::ring::Entry;
use rules::table::TaskRecord;

// The entry of the place, where it is present: its slot holds its stamp. Place 0 is never present, and an empty ring has no place.
pub(crate) fn present<F: Filter>(ring: &[Entry<F>], place: u32) -> Option<&Entry<F>>
    ensures { MatchOption result ((e : Entry F) → Present (length ring.now) ring.now place e → ⊥) (λ e. Present (length ring.now) ring.now place e.now) }
{
    if place == 0 || ring.is_empty() {
        return None;
    }
    let entry = &ring[place as usize % ring.len()];
    if entry.stamp != place {
        return None;
    }
    Some(entry)
}

// Whether the place is present and still writing.
pub fn unfinished<F: Filter>(ring: &[Entry<F>], place: u32) -> bool
    ensures { MatchBool result (Pending (length ring.now) ring.now place) (Pending (length ring.now) ring.now place → ⊥) }
{
    // A match is plainer: for `is_some_and` the closure needs a clause of its own.
    match present(ring, place) {
        Some(entry) => entry.is_writing(),
        None => false,
    }
}

// The place that a transaction begins at: the first one, from the index down, that is not unfinished.
pub fn settled<F: Filter>(ring: &[Entry<F>], index: u32) -> u32
    ensures { Settled (length ring.now) ring.now index result }
{
    for start in (1..=index).rev() {
        if !unfinished(ring, start) {
            return start;
        }
    }
    0
}

// Whether the place is unfinished and its filter meets the write filter.
fn blocks<F: Filter>(ring: &[Entry<F>], writes: &F, place: u32) -> bool
    ensures { MatchBool result (Meets F.Filter (length ring.now) ring.now writes.now place) (Meets F.Filter (length ring.now) ring.now writes.now place → ⊥) }
{
    // A match, as in `unfinished`.
    match present(ring, place) {
        Some(entry) => entry.is_writing() && meets(entry, writes),
        None => false,
    }
}

// The highest place below `place` and above `start` that blocks, if there is one.
fn blocking<F: Filter>(ring: &[Entry<F>], writes: &F, start: u32, place: u32) -> Option<u32>
    ensures { Blocking F.Filter (length ring.now) ring.now writes.now start place result }
{
    // A `while`: a range up to `place` is compiled with its places in 64 bits, so that each slot costs a division.
    let mut older = place.saturating_sub(1);
    while older > start {
        if blocks(ring, writes, older) {
            return Some(older);
        }
        older -= 1;
    }
    None
}

// The place that the writer waits for, if any: with all cells written the one before its own, else one that blocks.
pub fn awaited<F: Filter>(ring: &[Entry<F>], writer: &TaskRecord<F>) -> Option<u32>
    ensures { Awaits F.Filter (length ring.now) ring.now writer.now result }
{
    if writer.written != writer.logged {
        return blocking(ring, &writer.writes, writer.start, writer.place);
    }
    let before = writer.place.saturating_sub(1);
    if unfinished(ring, before) {
        return Some(before);
    }
    None
}
