// Plays a chain of calls of five tasks over twelve cells, and checks the main promise after each call.
#![tactic(auto)]

use crate::book::{Book, CELLS};
use crate::fault::Fault;
use crate::machine::Machine;
use crate::moves::MOVES;
use crate::statements::Findings;
use cells::words::Words;
use engine::arrays::Arrays;
use engine::engine::{Engine, Settings};
use filters::filter::Filter;
use filters::small::Small;
use rules::ring::Entry;
use rules::table::TaskRecord;

mod answer;
mod book;
mod fault;
mod machine;
mod moves;
mod statements;

const SLOTS: usize = 4;

const TASKS: usize = 5;

const PAIRS: usize = 3;

const LOGS: usize = TASKS * PAIRS;

const LAST_PLACE: u32 = 9;

fn main(rt: HostRuntime) -> Result<(), Fault> {
    let mut words = [0u32; CELLS];
    let mut ring = [Entry::<Small>::vacant(); SLOTS];
    let mut table = [TaskRecord::<Small>::emptied(); TASKS];
    let mut addresses = [0u32; LOGS];
    let mut cells = [0u32; LOGS];
    let memory = Words::new(&mut words);
    let mut arrays = Arrays {
        ring: &mut ring,
        table: &mut table,
        addresses: &mut addresses,
        cells: &mut cells,
    };
    let settings = Settings {
        slots: SLOTS as u32,
        tasks: TASKS as u32,
        pairs: PAIRS as u32,
        last: LAST_PLACE,
    };
    let engine = Engine::make(settings, &memory, &mut arrays)?;
    let mut machine = Machine {
        engine,
        memory,
        arrays,
    };
    let Findings {
        laid_down,
        one_snapshot,
        counted,
    } = play(&rt, &mut machine)?;
    println!(rt; "laid down: {laid_down}")?;
    println!(rt; "one snapshot: {one_snapshot}")?;
    println!(rt; "counted and never stuck: {counted}")?;
    Ok(())
}

// Makes every move, prints it with its answer, and checks the statements.
fn play(rt: &HostRuntime, machine: &mut Machine<'_, '_, '_, '_, '_>) -> Result<Findings, Fault> {
    let mut book = Book::new(rt.alloc());
    let mut findings = Findings::new();
    for call in &MOVES {
        let turn = machine.turn(&book, *call)?;
        println!(rt; "{turn}")?;
        book.note(rt.alloc(), turn.call, turn.answer)?;
        findings = findings.note(&book, turn, &machine.contents()?);
    }
    Ok(findings)
}
