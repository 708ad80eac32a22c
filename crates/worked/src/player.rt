// Plays runs over words, with any filter.
use crate::turn::{Act, Answer, Turn};
use cells::memory::Memory;
use cells::words::Words;
use engine::arrays::Arrays;
use engine::engine::{Engine, Settings};
use filters::filter::Filter;
use rules::answer::Denial;
use rules::ring::Entry;
use rules::table::TaskRecord;
use std::process::Abort;
use std::test::Fail;

pub const SLOTS: usize = 4;

pub const TASKS: usize = 4;

pub const LOGS: usize = 8;

pub const CELLS: usize = 64;

// As many as take two addresses that share a bit of the large filter.
pub const MANY_CELLS: usize = 1025;

// A ring of 4, 4 tasks, log length 2 and last place 100.
pub const USUAL: Settings = Settings {
    slots: 4,
    tasks: 4,
    pairs: 2,
    last: 100,
};

// Plays a run with this filter, from a new engine over so many words of 0.
pub(crate) fn play<F: Filter>(
    rt: &(impl Abort + Alloc),
    size: usize,
    settings: Settings,
    turns: &[Turn],
) -> Result<(), Fail> {
    // Vecs: an array of a length that is a const parameter owes that its entries, of a type parameter, take less than 2^63 bytes.
    let mut ring = vec![in rt.alloc(); Entry::<F>::vacant(); settings.slots as usize]?;
    let mut table = vec![in rt.alloc(); TaskRecord::<F>::emptied(); settings.tasks as usize]?;
    let mut words = vec![in rt.alloc(); 0u32; size]?;
    // What the log arrays hold before does not matter.
    let mut addresses = [77u32; LOGS];
    let mut cells = [99u32; LOGS];
    let mut memory = Words::new(&mut words);
    let mut arrays = Arrays {
        ring: &mut ring,
        table: &mut table,
        addresses: &mut addresses,
        cells: &mut cells,
    };
    let mut engine = Engine::make(settings, &memory, &mut arrays)?;
    for turn in turns {
        let answer = answered(&mut engine, &mut memory, &mut arrays, *turn);
        assert_eq!(rt; answer.unwrap_or_else(|denial| denial.into()), turn.2);
    }
    Ok(())
}

// Makes the call of one turn.
fn answered<F: Filter>(
    engine: &mut Engine,
    memory: &mut Words<'_>,
    arrays: &mut Arrays<'_, '_, '_, '_, F, u32>,
    turn: Turn,
) -> Result<Answer, Denial> {
    let Turn(task, act, _) = turn;
    Ok(match act {
        Act::Begin => Answer::Began(engine.begin(memory, arrays, task)?),
        Act::Read(address) => {
            let (cell, compared) = engine.read(memory, arrays, task, address)?;
            Answer::Found(cell, compared)
        }
        Act::Write(address, cell) => {
            Answer::Logged(engine.write(memory, arrays, task, address, cell)?)
        }
        Act::Commit => match engine.commit(memory, arrays, task)? {
            (Some(place), compared) => Answer::Placed(place, compared),
            (None, compared) => Answer::Unplaced(compared),
        },
        Act::Work => engine.work(memory, arrays, task)?.into(),
        Act::Quit => Answer::Logged(engine.quit(memory, arrays, task)?),
        Act::Count => Answer::Owed(engine.outstanding(memory, arrays)?),
        Act::Look(address) => Answer::Holds(memory.read(address as usize)?),
    })
}
