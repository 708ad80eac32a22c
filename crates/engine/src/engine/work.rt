// Work: writes the next logged cell back, or finishes the writer.
ghost use Rattle.cells.specs.Meaning.{Writes};
ghost use Rattle.rules.specs.Calls.{by, work};
ghost use Rattle.rules.specs.Promise.{Kept};
ghost use Rattle.rules.specs.Steps.{Step};
ghost use Rattle.engine.specs.View.{state, view, SameLoans};
ghost use Rattle.std.specs.Prelude.{◌≡◌};

use super::Engine;
use crate::arrays::Arrays;
use crate::entries::complete;
use crate::handed::Handed;
use crate::records::empty;
use cells::memory::Memory;
use cells::refusal::Refusal;
use filters::filter::Filter;
use rules::answer::Worked;
use rules::ring::Entry;
use rules::table::{CallKind, TaskRecord};
use walks::ring::awaited;

impl Engine {
    // The answer is how many cells are left, or done with the place.
    pub fn work<M: Memory, F: Filter>(
        &self,
        memory: &mut M,
        arrays: &mut Arrays<'_, '_, '_, '_, F, M::Cell>,
        task: u32,
    ) -> Result<Worked, Refusal>
        ensures step { Step F.Filter (view self.now (M.contents memory.old) arrays.old) (by task work) result (view self.now (M.contents memory.new) arrays.new) }
        ensures promise { Kept F.Filter (view self.now (M.contents memory.old) arrays.old) (by task work) result (view self.now (M.contents memory.new) arrays.new) }
        ensures rest { M.rest memory.new ≡ M.rest memory.old }
        ensures lender { M.lender memory.new ≡ M.lender memory.old }
        ensures loans { SameLoans arrays.old arrays.new }
    {
        let Arrays {
            ring,
            table,
            addresses,
            cells,
        } = arrays;
        work_task(self, memory, ring, table, addresses, cells, task)
    }
}

// The call over the arrays one by one (`Arrays` says why).
fn work_task<M: Memory, F: Filter>(
    engine: &Engine,
    memory: &mut M,
    ring: &mut [Entry<F>],
    table: &mut [TaskRecord<F>],
    addresses: &mut [u32],
    cells: &mut [M::Cell],
    task: u32,
) -> Result<Worked, Refusal>
    ensures step { Step F.Filter (state engine.now (M.contents memory.old) ring.old table.old addresses.old cells.old) (by task work) result (state engine.now (M.contents memory.new) ring.new table.new addresses.new cells.new) }
    ensures rest { M.rest memory.new ≡ M.rest memory.old }
    ensures lender { M.lender memory.new ≡ M.lender memory.old }
{
    let record = Handed {
        engine,
        memory,
        ring,
        table,
        addresses,
        cells,
    }
    .admit(task, CallKind::Work, None)?;
    if let Some(place) = awaited(ring, &record) {
        return Err(Refusal::MustWait { place });
    }
    if record.written == record.logged {
        complete(ring, record.place);
        empty(table, task);
        return Ok(Worked::Done {
            place: record.place,
        });
    }
    let next = engine.log_base(task) + record.written as usize;
    let cell = cells[next];
    write_back(memory, addresses[next], cell)?;
    let written = record.written + 1;
    table[task as usize] = TaskRecord { written, ..record };
    Ok(Worked::Left(record.logged - written))
}

// A logged cell is written to its address.
fn write_back<M: Memory>(memory: &mut M, address: u32, cell: M::Cell) -> Result<(), Refusal>
    ensures writes { Writes (M.contents memory.old) address cell result (M.contents memory.new) }
    ensures rest { M.rest memory.new ≡ M.rest memory.old }
    ensures lender { M.lender memory.new ≡ M.lender memory.old }
{
    memory.write(address as usize, cell)
}
