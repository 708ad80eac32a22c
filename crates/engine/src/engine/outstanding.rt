// Outstanding: adds up what the Committed records owe.
ghost use Rattle.rules.specs.Calls.{outstanding};
ghost use Rattle.rules.specs.Promise.{Kept};
ghost use Rattle.rules.specs.Steps.{Step};
ghost use Rattle.engine.specs.View.{seen, state, view, SameLoans};

use super::Engine;
use crate::arrays::Arrays;
use crate::handed::Handed;
use cells::memory::Memory;
use cells::refusal::Refusal;
use filters::filter::Filter;
use rules::ring::Entry;
use rules::table::{Phase, TaskRecord};

impl Engine {
    // What the unfinished writers owe together: for each one for every cell not yet written and one more.
    pub fn outstanding<M: Memory, F: Filter>(
        &self,
        memory: &M,
        arrays: &mut Arrays<'_, '_, '_, '_, F, M::Cell>,
    ) -> Result<u32, Refusal>
        ensures step { Step F.Filter (view self.now (M.contents memory.now) arrays.old) outstanding result (view self.now (M.contents memory.now) arrays.new) }
        ensures promise { Kept F.Filter (view self.now (M.contents memory.now) arrays.old) outstanding result (view self.now (M.contents memory.now) arrays.new) }
        ensures loans { SameLoans arrays.old arrays.new }
    {
        let Arrays {
            ring,
            table,
            addresses,
            cells,
        } = arrays;
        count_owed(self, memory, ring, table, addresses, cells)
    }
}

// The call over the arrays one by one (`Arrays` says why).
fn count_owed<M: Memory, F: Filter>(
    engine: &Engine,
    memory: &M,
    ring: &mut [Entry<F>],
    table: &mut [TaskRecord<F>],
    addresses: &mut [u32],
    cells: &mut [M::Cell],
) -> Result<u32, Refusal>
    ensures { Step F.Filter (state engine.now (M.contents memory.now) ring.old table.old addresses.old cells.old) outstanding result (state engine.now (M.contents memory.now) ring.new table.new addresses.new cells.new) }
{
    Handed {
        engine,
        memory,
        ring,
        table,
        addresses,
        cells,
    }
    .owed()
}

impl<M: Memory<Cell = C>, F: Filter, C: Copy> Handed<'_, M, F, C> {
    fn owed(&self) -> Result<u32, Refusal>
        ensures { Step F.Filter (seen M.contents self.now) outstanding result (seen M.contents self.now) }
    {
        if !self.fits() {
            return Err(Refusal::ArrayLength);
        }
        let mut owed = 0;
        for (task, record) in self.table.iter().enumerate() {
            if !self.whole(task as u32, record) {
                return Err(Refusal::Torn);
            }
            match record.phase {
                Phase::Committed => owed += record.logged - record.written + 1,
                Phase::Idle | Phase::Open => {}
            }
        }
        Ok(owed)
    }
}
