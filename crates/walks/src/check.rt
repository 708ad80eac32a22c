// The check, a step inside read and commit.
ghost use Rattle.std.specs.Prelude.{◌≡◌, ◌<◌, ◌≤◌, length, Err};
ghost use Rattle.rules.specs.Check.{Checks};
ghost use Rattle.rules.specs.declared.answer.Abort.TheVariants.{Overrun};

use crate::asking::meets;
use crate::ring::present;
use filters::filter::Filter;
use rules::answer::Abort;
use rules::ring::Entry;
use rules::verdict::{Passed, Verdict};

// Walks from the index down to the place above `start`. From a start above the index there is no way down.
pub fn check<F: Filter>(ring: &[Entry<F>], reads: &F, index: u32, start: u32) -> Verdict
    ensures walked { start ≤ index → Checks F.Filter (length ring.now) ring.now reads.now index start result }
    ensures above { index < start → result ≡ Err (Overrun 0) }
{
    if start > index || (index - start) as usize > ring.len() {
        return Err(Abort::Overrun { compared: 0 });
    }
    let mut advanced = index;
    for compared in 0..index - start {
        let place = index - compared;
        let Some(entry) = present(ring, place) else {
            return Err(Abort::Overrun { compared });
        };
        if meets(entry, reads) {
            return Err(Abort::Conflict {
                place,
                compared: compared + 1,
            });
        }
        if entry.is_writing() {
            advanced = place - 1;
        }
    }
    Ok(Passed {
        start: advanced,
        compared: index - start,
    })
}
