// A story: an engine over a memory, and the moves of a table, each told as it comes out.
use crate::controller::Controller;
use crate::fault::Fault;
use crate::holder::Held;
use crate::moves::Move;
use crate::turn::Turn;
use cells::memory::Memory;
use engine::arrays::Arrays;
use engine::engine::{Engine, Settings};
use filters::filter::Filter;
use rules::ring::Entry;
use rules::table::TaskRecord;
use std::fmt::Display;
use std::io::Print;
use std::mem::{replace, take};

pub(crate) const SLOTS: usize = 4;

pub(crate) const TASKS: usize = 4;

const PAIRS: usize = 2;

pub(crate) const LOGS: usize = TASKS * PAIRS;

const SETTINGS: Settings = Settings {
    slots: SLOTS as u32,
    tasks: TASKS as u32,
    pairs: PAIRS as u32,
    last: 100,
};

// Plays the moves from an engine newly made. In the end nobody may hold a transaction.
// The arrays come one by one: a struct of `&mut`s that is moved into another and then lent gets no proof.
pub(crate) fn play<M: Memory + Drop, F: Filter>(
    rt: &impl Print,
    memory: M,
    ring: &mut [Entry<F>],
    table: &mut [TaskRecord<F>],
    cells: &mut [M::Cell],
    moves: &[Move<M::Cell>],
) -> Result<(), Fault>
where
    M::Cell: PartialEq + Display,
{
    let mut addresses = [0u32; LOGS];
    let mut arrays = Arrays {
        ring,
        table,
        addresses: &mut addresses,
        cells,
    };
    let engine = Engine::make(SETTINGS, &memory, &mut arrays)?;
    let mut controller = Controller {
        engine,
        memory,
        arrays,
    };
    let mut holders = [const { Held::Nothing }; TASKS];
    let told = tell(rt, &mut controller, &mut holders, moves);
    // One by one: the array's `map` asks for Drop, which no holder is.
    let [format, knife, film, photo_eye] = holders;
    let idle = [
        format.release(),
        knife.release(),
        film.release(),
        photo_eye.release(),
    ];
    told?;
    if idle.contains(&false) {
        return Err(Fault::Unfinished);
    }
    Ok(())
}

// Makes the moves, and prints each with what came of it.
fn tell<M: Memory, F: Filter>(
    rt: &impl Print,
    controller: &mut Controller<'_, '_, '_, '_, M, F>,
    holders: &mut [Held; TASKS],
    moves: &[Move<M::Cell>],
) -> Result<(), Fault>
where
    M::Cell: PartialEq + Display,
{
    for Move(task, act, expected) in moves {
        let holder = &mut holders[*task as usize];
        let held = take(holder);
        let Turn { held, outcome } = held.turn(controller, *task, *act);
        // The holder is empty during the move.
        let _ = replace(holder, held).release();
        println!(rt; "{task} {act}: {outcome}")?;
        if outcome != *expected {
            println!(rt; "the table says: {expected}")?;
            return Err(Fault::AnotherWay);
        }
    }
    Ok(())
}
