// Begin: opens a transaction at the first place, from the index down, that is not unfinished.
ghost use Rattle.rules.specs.Calls.{by, begin};
ghost use Rattle.rules.specs.Promise.{Kept};
ghost use Rattle.rules.specs.Steps.{Step};
ghost use Rattle.engine.specs.View.{state, view, SameLoans};

use super::Engine;
use crate::arrays::Arrays;
use crate::handed::Handed;
use cells::memory::Memory;
use cells::refusal::Refusal;
use filters::filter::Filter;
use rules::ring::Entry;
use rules::table::{CallKind, TaskRecord};
use walks::ring::settled;

impl Engine {
    // The answer is the start.
    pub fn begin<M: Memory, F: Filter>(
        &self,
        memory: &M,
        arrays: &mut Arrays<'_, '_, '_, '_, F, M::Cell>,
        task: u32,
    ) -> Result<u32, Refusal>
        ensures step { Step F.Filter (view self.now (M.contents memory.now) arrays.old) (by task begin) result (view self.now (M.contents memory.now) arrays.new) }
        ensures promise { Kept F.Filter (view self.now (M.contents memory.now) arrays.old) (by task begin) result (view self.now (M.contents memory.now) arrays.new) }
        ensures loans { SameLoans arrays.old arrays.new }
    {
        let Arrays {
            ring,
            table,
            addresses,
            cells,
        } = arrays;
        begin_task(self, memory, ring, table, addresses, cells, task)
    }
}

// The call over the arrays one by one (`Arrays` says why).
fn begin_task<M: Memory, F: Filter>(
    engine: &Engine,
    memory: &M,
    ring: &mut [Entry<F>],
    table: &mut [TaskRecord<F>],
    addresses: &mut [u32],
    cells: &mut [M::Cell],
    task: u32,
) -> Result<u32, Refusal>
    ensures { Step F.Filter (state engine.now (M.contents memory.now) ring.old table.old addresses.old cells.old) (by task begin) result (state engine.now (M.contents memory.now) ring.new table.new addresses.new cells.new) }
{
    Handed {
        engine,
        memory,
        ring,
        table,
        addresses,
        cells,
    }
    .admit(task, CallKind::Begin, None)?;
    let start = settled(ring, engine.index);
    table[task as usize] = TaskRecord::opened(start);
    Ok(start)
}
