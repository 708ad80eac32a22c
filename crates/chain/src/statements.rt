// The three statements of the main promise, checked after each call.
ghost use Rattle.std.specs.Prelude.{◌≡◌, true, false, ◌⊎◌, None};
ghost use Rattle.chain.specs.Pages.{Writing};
ghost use Rattle.chain.specs.Statements.{AtItsTime, Counted, LaidDown, Lowers, NotStuck, OneSnapshot};

use crate::answer::{Answer, Denied, Effect};
use crate::book::{Book, CELLS, Page};
use crate::moves::{Act, Move};
use rules::answer::Denial;
use std::fmt;

// One call, with the outstanding count before and after it.
#[derive(Clone, Copy)]
pub struct Turn {
    pub call: Move,
    pub answer: Answer,
    // The task of the oldest unfinished writer before the call.
    pub oldest: Option<u32>,
    pub before: u32,
    pub after: u32,
}

impl fmt::Display for Turn {
    fn fmt<W: fmt::Write>(&self, f: &mut fmt::Formatter<W>) -> fmt::Result {
        let task = self.call.task;
        let act = self.call.act;
        let after = self.after;
        write!(f, "task {task} {act}: ")?;
        match self.answer {
            Ok(effect) => write!(f, "{effect}")?,
            Err(denial) => {
                let reason = Denied(denial);
                write!(f, "{reason}")?;
            }
        }
        write!(f, "; outstanding {after}")
    }
}

// Whether one statement held after every call so far.
#[derive(Clone, Copy)]
pub struct Finding {
    calls: u32,
    // The first call after which it did not hold.
    broken: Option<u32>,
}

impl Finding {
    fn new() -> Finding
        ensures { result.broken ≡ None }
    {
        Finding {
            calls: 0,
            broken: None,
        }
    }

    fn note(self, holds: bool) -> Finding
        ensures { result.broken ≡ None → (self.broken ≡ None) × (holds ≡ true) }
    {
        let calls = self.calls.saturating_add(1);
        match self.broken {
            None if !holds => Finding {
                calls,
                broken: Some(calls),
            },
            broken => Finding { calls, broken },
        }
    }
}

impl fmt::Display for Finding {
    fn fmt<W: fmt::Write>(&self, f: &mut fmt::Formatter<W>) -> fmt::Result {
        let calls = self.calls;
        match self.broken {
            None => write!(f, "held after {calls} calls"),
            Some(call) => write!(f, "broken after call {call}"),
        }
    }
}

#[derive(Clone, Copy)]
pub struct Findings {
    pub laid_down: Finding,
    pub one_snapshot: Finding,
    pub counted: Finding,
}

impl Findings {
    pub fn new() -> Findings
        ensures { (result.laid_down.broken ≡ None) × ((result.one_snapshot.broken ≡ None) × (result.counted.broken ≡ None)) }
    {
        Findings {
            laid_down: Finding::new(),
            one_snapshot: Finding::new(),
            counted: Finding::new(),
        }
    }

    // A statement that is found to have held so far holds now.
    pub fn note(self, book: &Book, turn: Turn, cells: &[u32; CELLS]) -> Findings
        ensures laid_down { result.laid_down.broken ≡ None → (self.laid_down.broken ≡ None) × LaidDown book.now.pages.items cells.now }
        ensures one_snapshot { result.one_snapshot.broken ≡ None → (self.one_snapshot.broken ≡ None) × OneSnapshot book.now.pages.items }
        ensures counted { result.counted.broken ≡ None → (self.counted.broken ≡ None) × Counted book.now.pages.items turn }
    {
        Findings {
            laid_down: self.laid_down.note(laid_down(book, cells)),
            one_snapshot: self.one_snapshot.note(one_snapshot(book)),
            counted: self.counted.note(counted(book, turn)),
        }
    }
}

// Every cell in no unfinished writer's log holds what the committed logs give.
fn laid_down(book: &Book, cells: &[u32; CELLS]) -> bool
    ensures { result ≡ true → LaidDown book.now.pages.items cells.now }
{
    let given = book.cells_after(book.committed());
    (0..CELLS as u32).zip(cells.iter().zip(&given)).all(|(address, (cell, given))| is_laid(
        book, address, *cell, *given,
    ))
}

// Whether the cell is the one that the committed logs give, or is still being written.
fn is_laid(book: &Book, address: u32, cell: u32, given: u32) -> bool
    ensures { result ≡ true → (cell ≡ given) ⊎ Writing book.now.pages.items address }
{
    cell == given || book.is_being_written(address)
}

// Every page's answers from memory are cells of one moment.
fn one_snapshot(book: &Book) -> bool
    ensures { result ≡ true → OneSnapshot book.now.pages.items }
{
    book.pages()
        .iter()
        .all(|page| agrees_at_its_time(book, page))
}

// The moment is that of the page's last answer, and for a writer also the one just before its place.
fn agrees_at_its_time(book: &Book, page: &Page) -> bool
    ensures { result ≡ true → AtItsTime book.now.pages.items page.now }
{
    page.agrees(&book.cells_after(page.seen()))
        && page.place().is_none_or(|place| page.agrees(&book.cells_after(place.saturating_sub(1))))
}

// The count is what unfinished writers owe, an accepted work lowers it by one, and the oldest writer's work is not refused.
fn counted(book: &Book, turn: Turn) -> bool
    ensures { result ≡ true → Counted book.now.pages.items turn }
{
    book.owed() == Some(turn.after as usize) && is_lowered(turn) && !is_stuck(turn)
}

fn is_lowered(turn: Turn) -> bool
    ensures { result ≡ true → Lowers turn }
{
    match turn.answer {
        Ok(Effect::Worked(_)) => turn.after.checked_add(1) == Some(turn.before),
        _ => true,
    }
}

// Whether the oldest unfinished writer's work is refused.
fn is_stuck(turn: Turn) -> bool
    ensures { result ≡ false → NotStuck turn }
{
    matches!(turn.call.act, Act::Work)
        && turn.oldest == Some(turn.call.task)
        && matches!(turn.answer, Err(Denial::Refused(_)))
}
