// Making: an engine over a memory and arrays that are handed over.
ghost use Rattle.engine.specs.Limits.{Made};
ghost use Rattle.engine.specs.View.{asked, request, state, view, Begun, MakeStep, SameLoans};

use super::{Engine, Settings};
use crate::arrays::Arrays;
use crate::handed::Handed;
use crate::lists::fill;
use cells::memory::Memory;
use cells::refusal::Refusal;
use filters::filter::Filter;
use rules::ring::Entry;
use rules::table::TaskRecord;

const LEAST_SLOTS: u32 = 2;

const MOST_SLOTS: u32 = 1024;

const MOST_TASKS: u32 = 64;

const MOST_PAIRS: u32 = 256;

const MOST_CELLS: usize = 65536;

impl Engine {
    // Empties every slot and every record; memory and log arrays are not touched.
    pub fn make<M: Memory, F: Filter>(
        settings: Settings,
        memory: &M,
        arrays: &mut Arrays<'_, '_, '_, '_, F, M::Cell>,
    ) -> Result<Engine, Refusal>
        ensures step { MakeStep F.Filter (request settings (M.contents memory.now) arrays.old) result (λ e. view e (M.contents memory.now) arrays.new) (request settings (M.contents memory.now) arrays.new) }
        ensures promise { Begun F.Filter (M.contents memory.now) result (λ e. view e (M.contents memory.now) arrays.new) }
        ensures loans { SameLoans arrays.old arrays.new }
    {
        let Arrays {
            ring,
            table,
            addresses,
            cells,
        } = arrays;
        make_engine(settings, memory, ring, table, addresses, cells)
    }
}

// The call over the arrays one by one (`Arrays` says why).
fn make_engine<M: Memory, F: Filter>(
    settings: Settings,
    memory: &M,
    ring: &mut [Entry<F>],
    table: &mut [TaskRecord<F>],
    addresses: &mut [u32],
    cells: &mut [M::Cell],
) -> Result<Engine, Refusal>
    ensures { MakeStep F.Filter (asked settings (M.contents memory.now) ring.old table.old addresses.old cells.old) result (λ e. state e (M.contents memory.now) ring.new table.new addresses.new cells.new) (asked settings (M.contents memory.now) ring.new table.new addresses.new cells.new) }
{
    let engine = limited(settings, memory.size())?;
    let handed = Handed {
        engine: &engine,
        memory,
        ring,
        table,
        addresses,
        cells,
    };
    if !handed.fits() {
        return Err(Refusal::ArrayLength);
    }
    fill(ring, Entry::vacant());
    fill(table, TaskRecord::emptied());
    Ok(engine)
}

// An engine with no writer yet, if the numbers lie within their limits; else the refusal of the first that does not.
fn limited(settings: Settings, size: usize) -> Result<Engine, Refusal>
    ensures { Made settings size result }
{
    if !(LEAST_SLOTS..=MOST_SLOTS).contains(&settings.slots) {
        return Err(Refusal::RingLength);
    }
    if !(1..=MOST_TASKS).contains(&settings.tasks) {
        return Err(Refusal::TaskCount);
    }
    if !(1..=MOST_PAIRS).contains(&settings.pairs) {
        return Err(Refusal::LogLength);
    }
    if settings.last == 0 {
        return Err(Refusal::LastPlace);
    }
    if size > MOST_CELLS {
        return Err(Refusal::MemorySize);
    }
    Ok(Engine {
        settings,
        size: size as u32,
        index: 0,
    })
}
