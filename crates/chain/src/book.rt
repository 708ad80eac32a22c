// The book: what every transaction did, from calls and answers alone.
ghost use Rattle.std.specs.Prelude.{◌≡◌, ◌≢◌, IfOk, ◌+◌, ◌-◌, true, false, cond, IfSome, Some, None, vec_len, OnOk, slice_index, slice_set, option_copied, find, IsErr, MatchOption, All, Contains};
ghost use Rattle.std.specs.BTreeMap.{IsEmpty, btree_map_len};
ghost use Rattle.chain.specs.Pages.{Agree, Answered, IsLatest, Logged, NotAbove, Noted, NotedOnLatest, Oldest, OthersStay, Writing, after, busy, debt, debts, is_at, is_done, laid, log_at, logs, opened, opened_by, place_of, unfinished, writers};

use crate::answer::{Answer, Effect};
use crate::moves::{Act, Move};
use rules::answer::Worked;
use std::alloc::{AllocError, Global};
use std::collections::BTreeMap;

// How many cells the memory has.
pub const CELLS: usize = 12;

#[derive(Clone, Copy)]
pub struct Pair {
    pub address: u32,
    pub cell: u32,
}

// Sets the cell of the address, where there is one.
fn put(cells: &mut [u32], address: u32, cell: u32)
    ensures { cells.new ≡ slice_set cells.old address cell }
{
    let address = address as usize;
    if address < cells.len() {
        cells[address] = cell;
    }
}

// Whether the pair is the cell of its address.
fn is_cell(cells: &[u32], pair: Pair) -> bool
    ensures { result ≡ true → slice_index cells.now pair.address ≡ pair.cell }
{
    cells.get(pair.address as usize).copied() == Some(pair.cell)
}

// How far a transaction has come.
#[derive(Clone, Copy)]
enum Phase {
    Open,
    // A writer has its place, and owes so many works.
    Committed { place: usize, owes: usize },
    Finished { place: usize },
}

// One transaction, kept for ever.
#[derive(Drop)]
pub struct Page {
    task: u32,
    // The cell of each address that was written.
    log: BTreeMap<u32, u32>,
    // What reads were answered from memory.
    answers: Vec<Pair>,
    // How many writers were committed by the last of these answers.
    seen: usize,
    phase: Phase,
}

impl Page {
    fn open(heap: Global, task: u32) -> Page
        ensures task { (result.task ≡ task) × ((place_of result ≡ None) × (debt result ≡ 0)) }
        ensures empty { IsEmpty result.log × (vec_len result.answers ≡ 0) }
    {
        Page {
            task,
            log: BTreeMap::new(heap),
            answers: Vec::new(heap),
            seen: 0,
            phase: Phase::Open,
        }
    }

    pub fn seen(&self) -> usize
        ensures { result ≡ self.now.seen }
    {
        self.seen
    }

    // The place, once the page is a committed writer.
    pub fn place(&self) -> Option<usize>
        ensures { result ≡ place_of self.now }
    {
        match self.phase {
            Phase::Open => None,
            Phase::Committed { place, .. } | Phase::Finished { place } => Some(place),
        }
    }

    pub fn is_unfinished(&self) -> bool
        ensures { result ≡ unfinished self.now }
    {
        matches!(self.phase, Phase::Committed { .. })
    }

    // Whether the page is the writer at this place.
    fn is_at(&self, place: usize) -> bool
        ensures { result ≡ is_at self.now place }
    {
        self.place() == Some(place)
    }

    // What the page owes while it is an unfinished writer.
    fn debt(&self) -> usize
        ensures { result ≡ debt self.now }
    {
        match self.phase {
            Phase::Committed { owes, .. } => owes,
            Phase::Open | Phase::Finished { .. } => 0,
        }
    }

    fn logs(&self, address: u32) -> bool
        ensures { result ≡ logs self.now.log address }
    {
        self.log.contains_key(&address)
    }

    // Whether the page is an unfinished writer whose log has this address.
    fn is_writing(&self, address: u32) -> bool
        ensures { result ≡ busy self.now address }
    {
        self.is_unfinished() && self.logs(address)
    }

    // Sets the pair of this address or inserts one.
    fn write(&mut self, pair: Pair) -> Result<(), AllocError>
        ensures { OnOk result (Logged self.old.log pair self.new.log) }
    {
        self.log.insert(pair.address, pair.cell)?;
        Ok(())
    }

    // A cell of the page's own log says nothing of the memory.
    fn read(&mut self, pair: Pair, committed: usize) -> Result<(), AllocError>
        ensures { OnOk result (Answered pair committed self.old self.new) }
    {
        if self.logs(pair.address) {
            return Ok(());
        }
        self.seen = committed;
        self.answers.push(pair)?;
        Ok(())
    }

    fn commit(&mut self, place: usize)
        ensures { (place_of self.new ≡ Some place) × (debt self.new ≡ btree_map_len self.old.log + 1) }
    {
        self.phase = Phase::Committed {
            place,
            owes: self.log.len() + 1,
        };
    }

    // A work lowers what is owed by one, and the last one finishes the writer.
    fn work(&mut self, worked: Worked)
        ensures place { place_of self.new ≡ place_of self.old }
        ensures debt { debt self.new ≡ cond (is_done worked) 0 (debt self.old - 1) }
        ensures unfinished { unfinished self.new ≡ cond (is_done worked) false (unfinished self.old) }
    {
        self.phase = match (self.phase, worked) {
            (Phase::Committed { place, owes }, Worked::Left(_)) => Phase::Committed {
                place,
                owes: owes.saturating_sub(1),
            },
            (Phase::Committed { place, .. }, Worked::Done { .. }) => Phase::Finished { place },
            (phase, _) => phase,
        };
    }

    // What an accepted call of the page's task has done.
    fn note(&mut self, act: Act, effect: Effect, committed: usize) -> Result<(), AllocError>
        ensures { OnOk result (Noted act effect committed self.old self.new) }
    {
        match (act, effect) {
            (Act::Write { address, value }, Effect::Wrote { .. }) => self.write(Pair {
                address,
                cell: value,
            })?,
            (Act::Read { address }, Effect::Read { cell, .. }) => self.read(
                Pair { address, cell },
                committed,
            )?,
            (
                _,
                Effect::Committed {
                    place: Some(place),
                    ..
                },
            ) => self.commit(place as usize),
            (_, Effect::Worked(worked)) => self.work(worked),
            _ => {}
        }
        Ok(())
    }

    // Lays the log over the cells.
    fn lay_over(&self, cells: &mut [u32])
        ensures { cells.new ≡ laid self.now.log.entries cells.old }
    {
        for (address, cell) in &self.log {
            put(cells, *address, *cell);
        }
    }

    // Whether every answer from memory is the cell given here.
    pub fn agrees(&self, cells: &[u32]) -> bool
        ensures { result ≡ true → Agree self.now.answers.items cells.now }
    {
        self.answers.iter().all(|pair| is_cell(cells, *pair))
    }
}

#[derive(Drop)]
pub struct Book {
    pages: Vec<Page>,
}

impl Book {
    pub fn new(heap: Global) -> Book
        ensures { vec_len result.pages ≡ 0 }
    {
        Book {
            pages: Vec::new(heap),
        }
    }

    pub fn pages(&self) -> &[Page]
        ensures { result.now ≡ self.now.pages.items }
    {
        self.pages.as_slice()
    }

    // The page that the task's calls go to.
    fn latest(&self, task: u32) -> Option<usize>
        ensures { MatchOption result (All (λ p. p.task ≢ task) self.now.pages.items) (IsLatest task self.now.pages.items) }
    {
        self.pages.iter().rposition(|page| page.task == task)
    }

    // A begin opens a page; any other accepted call changes the latest page of its task.
    pub fn note(&mut self, heap: Global, call: Move, answer: Answer) -> Result<(), AllocError>
        ensures opens { OnOk result (vec_len self.new.pages ≡ vec_len self.old.pages + opened answer) }
        ensures notes { OnOk result (IfOk answer (λ effect. opened_by effect ≡ 0 → NotedOnLatest call.task call.act effect self.old.pages.items self.new.pages.items)) }
        ensures others { OthersStay call.task self.old.pages.items self.new.pages.items }
        ensures denied { IsErr answer → self.new.pages.items ≡ self.old.pages.items }
    {
        match answer {
            Err(_) => Ok(()),
            Ok(Effect::Began { .. }) => {
                self.pages.push(Page::open(heap, call.task))?;
                Ok(())
            }
            Ok(effect) => {
                let committed = self.committed();
                match self.latest(call.task) {
                    Some(index) => self.pages[index].note(call.act, effect, committed),
                    None => Ok(()),
                }
            }
        }
    }

    // How many writers are committed.
    pub fn committed(&self) -> usize
        ensures { result ≡ writers self.now.pages.items }
    {
        self.pages
            .iter()
            .filter(|page| page.place().is_some())
            .count()
    }

    // What unfinished writers owe together.
    pub fn owed(&self) -> Option<usize>
        ensures { IfSome result (λ sum. sum ≡ debts self.now.pages.items) }
    {
        self.pages
            .iter()
            .try_fold(0usize, |sum, page| sum.checked_add(page.debt()))
    }

    // The writer at this place.
    fn writer(&self, place: usize) -> Option<&Page>
        ensures { option_copied result ≡ find (λ p. is_at p place) self.now.pages.items }
    {
        self.pages.iter().find(|page| page.is_at(place))
    }

    // Lays the log of the writer at this place over the cells.
    fn lay_place(&self, place: usize, cells: &mut [u32])
        ensures { cells.new ≡ laid (log_at self.now.pages.items place) cells.old }
    {
        if let Some(page) = self.writer(place) {
            page.lay_over(cells);
        }
    }

    // The unfinished writer with the lowest place.
    fn oldest_writer(&self) -> Option<&Page>
        ensures among { IfSome result (λ p. Contains self.now.pages.items p.now) }
        ensures unfinished { IfSome result (λ p. unfinished p.now ≡ true) }
        ensures lowest { MatchOption result (All (λ p. unfinished p ≡ false) self.now.pages.items) (λ p. All (λ q. unfinished q ≡ true → NotAbove (place_of p.now) (place_of q)) self.now.pages.items) }
    {
        self.pages
            .iter()
            .filter(|page| page.is_unfinished())
            .min_by_key(|page| page.place())
    }

    // The task of the oldest unfinished writer.
    pub fn oldest(&self) -> Option<u32>
        ensures { Oldest self.now.pages.items result }
    {
        self.oldest_writer().map(|page| page.task)
    }

    // Whether an unfinished writer's log has this address.
    pub fn is_being_written(&self, address: u32) -> bool
        ensures { result ≡ true → Writing self.now.pages.items address }
    {
        self.pages.iter().any(|page| page.is_writing(address))
    }

    // The cells after the first `count` committed logs. All cells are 0 at making.
    pub fn cells_after(&self, count: usize) -> [u32; CELLS]
        ensures { result ≡ after self.now.pages.items count }
    {
        let mut cells = [0; CELLS];
        for place in 1..=count {
            self.lay_place(place, &mut cells);
        }
        cells
    }
}
