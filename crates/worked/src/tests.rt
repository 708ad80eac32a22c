// The tests: each plays some of the runs.
use crate::player::{CELLS, LOGS, MANY_CELLS, SLOTS, TASKS, USUAL, play};
use crate::runs::{
    BITS_APART, EXACT, FULL_RING, LARGE_SHARED_BIT, LAST_PLACE, OUT_OF_REACH, OVERFLOW, REFUSALS,
    RING_OF_TWO, SHARED_BIT, TAKEN_OVER, WITHIN_REACH,
};
use cells::memory::Memory;
use cells::refusal::Refusal;
use cells::tags::{Tag, Tags};
use cells::words::Words;
use engine::arrays::Arrays;
use engine::engine::{Engine, Settings};
use filters::filter::Filter;
use filters::large::Large;
use filters::short_list::ShortList;
use filters::small::Small;
use rules::answer::{Abort, Denial, Worked};
use rules::ring::Entry;
use rules::table::TaskRecord;
use std::test::Fail;

// One entry more than the longest ring.
const ENTRIES: usize = 1025;

const NO_TAG: Tag = Tag {
    quality: 0,
    value: 0,
};

const TAG: Tag = Tag {
    quality: 192,
    value: 0x0102_0304,
};

const CONFLICT: Denial = Denial::Aborted(Abort::Conflict {
    place: 1,
    compared: 1,
});

const ONE_PLACE: Settings = Settings { last: 1, ..USUAL };

const TWO_SLOTS: Settings = Settings { slots: 2, ..USUAL };

#[test]
fn over_the_small_filter(rt: HostRuntime) -> Result<(), Fail> {
    play::<Small>(&rt, CELLS, ONE_PLACE, &LAST_PLACE)?;
    play::<Small>(&rt, CELLS, USUAL, &FULL_RING)?;
    play::<Small>(&rt, CELLS, USUAL, &TAKEN_OVER)?;
    play::<Small>(&rt, CELLS, USUAL, &WITHIN_REACH)?;
    play::<Small>(&rt, CELLS, USUAL, &OUT_OF_REACH)?;
    play::<Small>(&rt, CELLS, USUAL, &SHARED_BIT)?;
    play::<Small>(&rt, CELLS, USUAL, &REFUSALS)
}

#[test]
fn over_the_large_filter(rt: HostRuntime) -> Result<(), Fail> {
    play::<Large>(&rt, MANY_CELLS, ONE_PLACE, &LAST_PLACE)?;
    play::<Large>(&rt, MANY_CELLS, USUAL, &FULL_RING)?;
    play::<Large>(&rt, MANY_CELLS, USUAL, &TAKEN_OVER)?;
    play::<Large>(&rt, MANY_CELLS, USUAL, &WITHIN_REACH)?;
    play::<Large>(&rt, MANY_CELLS, USUAL, &OUT_OF_REACH)?;
    play::<Large>(&rt, MANY_CELLS, USUAL, &BITS_APART)?;
    play::<Large>(&rt, MANY_CELLS, USUAL, &LARGE_SHARED_BIT)
}

#[test]
fn over_the_short_list(rt: HostRuntime) -> Result<(), Fail> {
    play::<ShortList>(&rt, MANY_CELLS, ONE_PLACE, &LAST_PLACE)?;
    play::<ShortList>(&rt, MANY_CELLS, USUAL, &FULL_RING)?;
    play::<ShortList>(&rt, MANY_CELLS, USUAL, &TAKEN_OVER)?;
    play::<ShortList>(&rt, MANY_CELLS, USUAL, &WITHIN_REACH)?;
    play::<ShortList>(&rt, MANY_CELLS, USUAL, &OUT_OF_REACH)?;
    play::<ShortList>(&rt, MANY_CELLS, USUAL, &BITS_APART)?;
    play::<ShortList>(&rt, MANY_CELLS, USUAL, &EXACT)?;
    play::<ShortList>(&rt, MANY_CELLS, USUAL, &OVERFLOW)
}

#[test]
fn a_ring_of_two(rt: HostRuntime) -> Result<(), Fail> {
    play::<Small>(&rt, CELLS, TWO_SLOTS, &RING_OF_TWO)
}

// What a making answers that is handed a ring of this length and is asked for so many slots.
fn making(length: usize, slots: u32) -> Result<(), Refusal> {
    let mut ring = [Entry::<Small>::vacant(); ENTRIES];
    let mut table = [TaskRecord::<Small>::emptied(); TASKS];
    let mut words = [0; CELLS];
    let mut addresses = [0; LOGS];
    let mut cells = [0; LOGS];
    let memory = Words::new(&mut words);
    let mut arrays = Arrays {
        ring: &mut ring[0..length.min(ENTRIES)],
        table: &mut table,
        addresses: &mut addresses,
        cells: &mut cells,
    };
    let settings = Settings { slots, ..USUAL };
    Engine::make(settings, &memory, &mut arrays)?;
    Ok(())
}

#[test]
fn ring_limits(rt: HostRuntime) {
    assert_eq!(rt; making(1, 1), Err(Refusal::RingLength));
    assert_eq!(rt; making(2, 2), Ok(()));
    assert_eq!(rt; making(3, 2), Err(Refusal::ArrayLength));
    assert_eq!(rt; making(1024, 1024), Ok(()));
    assert_eq!(rt; making(1025, 1025), Err(Refusal::RingLength));
}

// Cells 0 and 32 share a bit of the small filter, whatever the memory.
#[test]
fn over_tags(rt: HostRuntime) -> Result<(), Fail> {
    let mut bytes = [0; 5 * CELLS];
    let mut ring = [Entry::<Small>::vacant(); SLOTS];
    let mut table = [TaskRecord::<Small>::emptied(); TASKS];
    let mut addresses = [0; LOGS];
    let mut cells = [NO_TAG; LOGS];
    let mut memory = Tags::new(&mut bytes);
    let mut arrays = Arrays {
        ring: &mut ring,
        table: &mut table,
        addresses: &mut addresses,
        cells: &mut cells,
    };
    let mut engine = Engine::make(USUAL, &memory, &mut arrays)?;
    assert_eq!(rt; engine.begin(&memory, &mut arrays, 0), Ok(0));
    assert_eq!(rt; engine.read(&memory, &mut arrays, 0, 0), Ok((NO_TAG, 0)));
    assert_eq!(rt; engine.begin(&memory, &mut arrays, 1), Ok(0));
    assert_eq!(rt; engine.write(&memory, &mut arrays, 1, 32, TAG), Ok(1));
    assert_eq!(rt; engine.commit(&memory, &mut arrays, 1), Ok((Some(1), 0)));
    assert_eq!(rt; engine.read(&memory, &mut arrays, 0, 1), Err(CONFLICT));
    assert_eq!(rt;
        engine.work(&mut memory, &mut arrays, 1),
        Ok(Worked::Left(0))
    );
    assert_eq!(rt; memory.read(32), Ok(TAG));
    Ok(())
}
