// Write: logs a cell for its address.
ghost use Rattle.rules.specs.Calls.{by, write};
ghost use Rattle.rules.specs.Promise.{Kept};
ghost use Rattle.rules.specs.Steps.{Step};
ghost use Rattle.engine.specs.View.{state, view, SameLoans};

use super::Engine;
use crate::arrays::Arrays;
use crate::handed::Handed;
use cells::memory::Memory;
use cells::refusal::Refusal;
use filters::filter::Filter;
use rules::ring::Entry;
use rules::table::{CallKind, TaskRecord};

impl Engine {
    // The answer is the logged count.
    pub fn write<M: Memory, F: Filter>(
        &self,
        memory: &M,
        arrays: &mut Arrays<'_, '_, '_, '_, F, M::Cell>,
        task: u32,
        address: u32,
        cell: M::Cell,
    ) -> Result<u32, Refusal>
        ensures step { Step F.Filter (view self.now (M.contents memory.now) arrays.old) (by task (write address cell)) result (view self.now (M.contents memory.now) arrays.new) }
        ensures promise { Kept F.Filter (view self.now (M.contents memory.now) arrays.old) (by task (write address cell)) result (view self.now (M.contents memory.now) arrays.new) }
        ensures loans { SameLoans arrays.old arrays.new }
    {
        let Arrays {
            ring,
            table,
            addresses,
            cells,
        } = arrays;
        write_task(
            self, memory, ring, table, addresses, cells, task, address, cell,
        )
    }
}

// The call over the arrays one by one (`Arrays` says why).
fn write_task<M: Memory, F: Filter>(
    engine: &Engine,
    memory: &M,
    ring: &mut [Entry<F>],
    table: &mut [TaskRecord<F>],
    addresses: &mut [u32],
    cells: &mut [M::Cell],
    task: u32,
    address: u32,
    cell: M::Cell,
) -> Result<u32, Refusal>
    ensures { Step F.Filter (state engine.now (M.contents memory.now) ring.old table.old addresses.old cells.old) (by task (write address cell)) result (state engine.now (M.contents memory.now) ring.new table.new addresses.new cells.new) }
{
    let handed = Handed {
        engine,
        memory,
        ring,
        table,
        addresses,
        cells,
    };
    let record = handed.admit(task, CallKind::Write, Some(address))?;
    let base = engine.log_base(task);
    if let Some((position, _)) = handed.lookup(task, record.logged, address) {
        cells[base + position] = cell;
        return Ok(record.logged);
    }
    if record.logged == engine.settings.pairs {
        return Err(Refusal::LogFull);
    }
    let end = base + record.logged as usize;
    addresses[end] = address;
    cells[end] = cell;
    let logged = record.logged + 1;
    let writes = record.writes.add(address);
    table[task as usize] = TaskRecord {
        logged,
        writes,
        ..record
    };
    Ok(logged)
}
