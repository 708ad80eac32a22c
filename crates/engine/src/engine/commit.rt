// Commit: takes the next place once the check has passed.
ghost use Rattle.std.specs.Prelude.{◌≡◌, ◌+◌, ◌-◌, length, MatchBool};
ghost use Rattle.rules.specs.Admission.{NextPlace};
ghost use Rattle.rules.specs.Calls.{by, commit};
ghost use Rattle.rules.specs.Places.{Pending};
ghost use Rattle.rules.specs.Promise.{Kept};
ghost use Rattle.rules.specs.Steps.{Step};
ghost use Rattle.engine.specs.View.{state, view, SameLoans};

use super::Engine;
use crate::arrays::Arrays;
use crate::entries::enter;
use crate::handed::Handed;
use crate::records::empty;
use cells::memory::Memory;
use cells::refusal::Refusal;
use filters::filter::Filter;
use rules::answer::Denial;
use rules::ring::Entry;
use rules::table::{CallKind, Phase, TaskRecord};
use rules::verdict::Passed;
use walks::check::check;
use walks::ring::unfinished;

impl Engine {
    // The answer is the place, if cells were logged, and the number of filters compared.
    pub fn commit<M: Memory, F: Filter>(
        &mut self,
        memory: &M,
        arrays: &mut Arrays<'_, '_, '_, '_, F, M::Cell>,
        task: u32,
    ) -> Result<(Option<u32>, u32), Denial>
        ensures step { Step F.Filter (view self.old (M.contents memory.now) arrays.old) (by task commit) result (view self.new (M.contents memory.now) arrays.new) }
        ensures promise { Kept F.Filter (view self.old (M.contents memory.now) arrays.old) (by task commit) result (view self.new (M.contents memory.now) arrays.new) }
        ensures loans { SameLoans arrays.old arrays.new }
    {
        let Arrays {
            ring,
            table,
            addresses,
            cells,
        } = arrays;
        commit_task(self, memory, ring, table, addresses, cells, task)
    }
}

// The call over the arrays one by one (`Arrays` says why).
fn commit_task<M: Memory, F: Filter>(
    engine: &mut Engine,
    memory: &M,
    ring: &mut [Entry<F>],
    table: &mut [TaskRecord<F>],
    addresses: &mut [u32],
    cells: &mut [M::Cell],
    task: u32,
) -> Result<(Option<u32>, u32), Denial>
    ensures { Step F.Filter (state engine.old (M.contents memory.now) ring.old table.old addresses.old cells.old) (by task commit) result (state engine.new (M.contents memory.now) ring.new table.new addresses.new cells.new) }
{
    let record = Handed {
        engine,
        memory,
        ring,
        table,
        addresses,
        cells,
    }
    .admit(task, CallKind::Commit, None)?;
    if record.logged == 0 {
        empty(table, task);
        return Ok((None, 0));
    }
    let place = next_place(engine, ring)?;
    match check(ring, &record.reads, engine.index, record.start) {
        Ok(Passed { start, compared }) => {
            engine.index = place;
            enter(ring, place, record.writes);
            table[task as usize] = TaskRecord {
                phase: Phase::Committed,
                start,
                place,
                ..record
            };
            Ok((Some(place), compared))
        }
        Err(abort) => {
            empty(table, task);
            Err(Denial::Aborted(abort))
        }
    }
}

// Whether the place that the next writer but one would take over is unfinished.
fn is_full<F: Filter>(engine: &Engine, ring: &[Entry<F>]) -> bool
    requires { length ring.now ≡ engine.now.settings.slots }
    ensures { MatchBool result (Pending engine.now.settings.slots ring.now (engine.now.index + 2 - engine.now.settings.slots)) (Pending engine.now.settings.slots ring.now (engine.now.index + 2 - engine.now.settings.slots) → ⊥) }
{
    let oldest = engine.index.saturating_sub(engine.settings.slots - 2);
    unfinished(ring, oldest)
}

// The place after the index, unless the last place is reached or the ring is full.
fn next_place<F: Filter>(engine: &Engine, ring: &[Entry<F>]) -> Result<u32, Refusal>
    requires { length ring.now ≡ engine.now.settings.slots }
    ensures { NextPlace engine.now.settings.slots engine.now.settings.last engine.now.index ring.now result }
{
    if engine.index == engine.settings.last {
        return Err(Refusal::PlacesSpent);
    }
    if is_full(engine, ring) {
        return Err(Refusal::RingFull);
    }
    Ok(engine.index + 1)
}
