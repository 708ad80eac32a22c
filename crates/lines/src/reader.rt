// Reads a schedule text line by line.
ghost use Rattle.std.specs.Prelude.{◌≡◌, ◌≤◌, ◌↔◌, length, IsTrue, MatchOption};
ghost use Rattle.lines.specs.Reading.{CommandAt, Meant, NoCommand, Reads};

mod fields;

use crate::command::{Area, Command, Making};

// The largest memory: the length of the ring, the tasks, the length of a log, and the cells.
const SLOTS: u32 = 64;

const TASKS: u32 = 8;

const PAIRS: u32 = 16;

const CELLS: u32 = 256;

fn within(making: Making) -> bool
    ensures { IsTrue result ↔ ((making.slots ≤ 64) × (making.tasks ≤ 8) × (making.pairs ≤ 16) × (making.cells ≤ 256)) }
{
    making.slots <= SLOTS && making.tasks <= TASKS && making.pairs <= PAIRS && making.cells <= CELLS
}

// The command of a first line: it makes the memory, within its limits.
fn first(letter: char, numbers: &[u32]) -> Option<Command>
    ensures { Meant None letter numbers.now result }
{
    let area = match letter {
        'm' => Area::Words,
        't' => Area::Tags,
        _ => return None,
    };
    let &[slots, tasks, pairs, last, cells] = numbers else {
        return None;
    };
    let making = Making {
        slots,
        tasks,
        pairs,
        last,
        cells,
    };
    within(making).then_some(Command::Make { area, making })
}

// A write has a quality where the memory has tags, and only there.
fn write(area: Area, numbers: &[u32]) -> Option<Command>
    ensures { Meant (Some area) 119 numbers.now result }
{
    match (area, numbers) {
        (Area::Words, &[task, address, value]) => Some(Command::Write {
            task,
            address,
            value,
            quality: None,
        }),
        (Area::Tags, &[task, address, value, number]) => Some(Command::Write {
            task,
            address,
            value,
            quality: Some(u8::try_from(number).ok()?),
        }),
        _ => None,
    }
}

// The command of a line behind the first.
fn later(area: Area, letter: char, numbers: &[u32]) -> Option<Command>
    ensures { Meant (Some area) letter numbers.now result }
{
    match (letter, numbers) {
        ('b', &[task]) => Some(Command::Begin { task }),
        ('r', &[task, address]) => Some(Command::Read { task, address }),
        ('w', _) => write(area, numbers),
        ('c', &[task]) => Some(Command::Commit { task }),
        ('k', &[task]) => Some(Command::Work { task }),
        ('q', &[task]) => Some(Command::Quit { task }),
        _ => None,
    }
}

fn command_of(made: Option<Area>, letter: char, numbers: &[u32]) -> Option<Command>
    ensures { Meant made letter numbers.now result }
{
    match made {
        None => first(letter, numbers),
        Some(area) => later(area, letter, numbers),
    }
}

// A text, and the position of the line that is read next.
#[derive(Clone, Copy)]
pub struct Reader<'a> {
    text: &'a [u8],
    at: usize,
    ghost within: { at ≤ length text.now },
}

// No command that may stand there stands next.
#[derive(Clone, Copy, Debug, PartialEq, Eq)]
pub struct Broken;

impl<'a> Reader<'a> {
    pub fn new(text: &'a [u8]) -> Reader<'a>
        ensures whole { result.text.now ≡ text.now }
        ensures start { result.at ≡ 0 }
    {
        Reader { text, at: 0 }
    }

    fn command(&mut self, made: Option<Area>) -> Option<Command>
        ensures kept { self.new.text.now ≡ self.old.text.now }
        ensures reads { MatchOption result (NoCommand made self.old.text.now self.old.at) (CommandAt made self.old.text.now self.old.at self.new.at) }
    {
        let fields = self.fields()?;
        command_of(made, fields.letter, fields.numbers.as_slice())
    }

    // Reads the line that stands next, where it is a command that may stand there: the first line, or one behind the line that made this area.
    pub fn next(&mut self, made: Option<Area>) -> Result<Option<Command>, Broken>
        ensures kept { self.new.text.now ≡ self.old.text.now }
        ensures reads { Reads made self.old.text.now self.old.at self.new.at result }
    {
        if self.at == self.text.len() {
            return Ok(None);
        }
        // Behind a broken line the position stays.
        let mut behind = *self;
        let command = behind.command(made).ok_or(Broken)?;
        *self = behind;
        Ok(Some(command))
    }
}
