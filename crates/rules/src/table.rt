// The table: one record a task, and which phase allows which call.
ghost use Rattle.std.specs.Prelude.{◌≡◌};
ghost use Rattle.rules.specs.Records.{Emptied, Opened};
ghost use Rattle.rules.specs.Table.{allows};

use filters::filter::Filter;

#[derive(Clone, Copy, PartialEq, Eq, Debug)]
pub enum Phase {
    Idle,
    Open,
    Committed,
}

// What the engine keeps of one task's transaction. It is one plain record and no enum by phase: whatever is handed over must
// have this form, a torn record too, whose numbers do not go with its phase.
#[derive(Clone, Copy)]
pub struct TaskRecord<F> {
    pub phase: Phase,
    pub start: u32,
    pub place: u32,
    pub logged: u32,
    pub written: u32,
    pub reads: F,
    pub writes: F,
}

impl<F: Filter> TaskRecord<F> {
    // Idle, all numbers 0 and both filters new.
    pub fn emptied() -> TaskRecord<F>
        ensures { Emptied F.Filter result }
    {
        TaskRecord {
            phase: Phase::Idle,
            start: 0,
            place: 0,
            logged: 0,
            written: 0,
            reads: F::new(),
            writes: F::new(),
        }
    }

    // Emptied, then Open with this start.
    pub fn opened(start: u32) -> TaskRecord<F>
        ensures { Opened F.Filter start result }
    {
        TaskRecord {
            phase: Phase::Open,
            start,
            ..TaskRecord::emptied()
        }
    }
}

// The six calls of a task.
#[derive(Clone, Copy, PartialEq, Eq, Debug)]
pub enum CallKind {
    Begin,
    Read,
    Write,
    Commit,
    Work,
    Quit,
}

// A row a phase, a column a call.
const ALLOWED: [[bool; 6]; 3] = [
    [true, false, false, false, false, false],
    [false, true, true, true, false, true],
    [false, false, false, false, true, false],
];

// Whether a record in this phase accepts the call.
pub fn allowed(phase: Phase, call: CallKind) -> bool
    ensures { result ≡ allows phase call }
{
    ALLOWED[phase as usize][call as usize]
}
