// Read: a logged cell, or the memory's cell once the check has passed.
ghost use Rattle.rules.specs.Calls.{by, read};
ghost use Rattle.rules.specs.Promise.{Kept};
ghost use Rattle.rules.specs.Steps.{Step};
ghost use Rattle.engine.specs.View.{state, view, SameLoans};

use super::Engine;
use crate::arrays::Arrays;
use crate::handed::Handed;
use crate::records::empty;
use cells::memory::Memory;
use filters::filter::Filter;
use rules::answer::Denial;
use rules::ring::Entry;
use rules::table::{CallKind, TaskRecord};
use rules::verdict::Passed;
use walks::check::check;

impl Engine {
    // The answer is the cell and the number of filters compared.
    pub fn read<M: Memory, F: Filter>(
        &self,
        memory: &M,
        arrays: &mut Arrays<'_, '_, '_, '_, F, M::Cell>,
        task: u32,
        address: u32,
    ) -> Result<(M::Cell, u32), Denial>
        ensures step { Step F.Filter (view self.now (M.contents memory.now) arrays.old) (by task (read address)) result (view self.now (M.contents memory.now) arrays.new) }
        ensures promise { Kept F.Filter (view self.now (M.contents memory.now) arrays.old) (by task (read address)) result (view self.now (M.contents memory.now) arrays.new) }
        ensures loans { SameLoans arrays.old arrays.new }
    {
        let Arrays {
            ring,
            table,
            addresses,
            cells,
        } = arrays;
        read_task(self, memory, ring, table, addresses, cells, task, address)
    }
}

// The call over the arrays one by one (`Arrays` says why).
fn read_task<M: Memory, F: Filter>(
    engine: &Engine,
    memory: &M,
    ring: &mut [Entry<F>],
    table: &mut [TaskRecord<F>],
    addresses: &mut [u32],
    cells: &mut [M::Cell],
    task: u32,
    address: u32,
) -> Result<(M::Cell, u32), Denial>
    ensures { Step F.Filter (state engine.now (M.contents memory.now) ring.old table.old addresses.old cells.old) (by task (read address)) result (state engine.now (M.contents memory.now) ring.new table.new addresses.new cells.new) }
{
    let handed = Handed {
        engine,
        memory,
        ring,
        table,
        addresses,
        cells,
    };
    let record = handed.admit(task, CallKind::Read, Some(address))?;
    if let Some((_, cell)) = handed.lookup(task, record.logged, address) {
        return Ok((cell, 0));
    }
    let reads = record.reads.add(address);
    match check(ring, &reads, engine.index, record.start) {
        Ok(Passed { start, compared }) => {
            let cell = memory.read(address as usize)?;
            table[task as usize] = TaskRecord {
                start,
                reads,
                ..record
            };
            Ok((cell, compared))
        }
        Err(abort) => {
            empty(table, task);
            Err(Denial::Aborted(abort))
        }
    }
}
