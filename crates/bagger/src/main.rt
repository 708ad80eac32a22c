// Two stories of a bagging machine, played on held transactions: a schedule says which task moves next and what is to come of it.
#![tactic(auto)]

use crate::fault::Fault;
use crate::mixed_pair::UNKNOWN;
use crate::story::{LOGS, SLOTS, TASKS, play};
use cells::tags::Tags;
use cells::words::Words;
use filters::filter::Filter;
use filters::large::Large;
use filters::small::Small;
use rules::ring::Entry;
use rules::table::TaskRecord;

mod controller;
mod fault;
mod holder;
mod machine;
mod mixed_pair;
mod moves;
mod story;
mod taken_over;
mod turn;

const CELLS: usize = 8;

// Five bytes a cell.
const BYTES: usize = 5 * CELLS;

fn main(rt: HostRuntime) -> Result<(), Fault> {
    println!(rt; "The mixed pair that never gets cut, over tags")?;
    play(
        &rt,
        Tags::new(&mut [0; BYTES]),
        &mut [Entry::<Small>::vacant(); SLOTS],
        &mut [TaskRecord::<Small>::emptied(); TASKS],
        &mut [UNKNOWN; LOGS],
        &mixed_pair::MOVES,
    )?;
    println!(rt; "The slot taken over while a writer waits, over words")?;
    play(
        &rt,
        Words::new(&mut [0; CELLS]),
        &mut [Entry::<Large>::vacant(); SLOTS],
        &mut [TaskRecord::<Large>::emptied(); TASKS],
        &mut [0; LOGS],
        &taken_over::MOVES,
    )
}
