// The lines of a report.
ghost use Rattle.std.specs.Prelude.{◌≡◌, ◌+◌, ◌≤◌, length, MatchOption};
ghost use Rattle.lines.specs.Decimal.{decimal};
ghost use Rattle.lines.specs.Printed.{printed, room, Full, Put, Writes};

use crate::command::Area;
use crate::line::Line;
use cells::refusal::Refusal;

#[derive(Clone, Copy, Debug, PartialEq, Eq)]
pub enum Report {
    Made(Area),
    Began {
        task: u32,
        start: u32,
    },
    Read {
        task: u32,
        value: u32,
        // Where the memory has tags.
        quality: Option<u8>,
        compared: u32,
    },
    Wrote {
        task: u32,
        logged: u32,
    },
    Committed {
        task: u32,
        place: Option<u32>,
        compared: u32,
    },
    Left {
        task: u32,
        left: u32,
    },
    Done {
        task: u32,
        place: u32,
    },
    Quit {
        task: u32,
        logged: u32,
    },
    Conflict {
        task: u32,
        place: u32,
        compared: u32,
    },
    Overrun {
        task: u32,
        compared: u32,
    },
    Refused(Refusal),
    // A refusal that is known by its number alone, with the place waited for where one is known.
    Numbered {
        number: u32,
        place: Option<u32>,
    },
    Broken {
        line: u32,
    },
}

// A memory was made: its letter and `ok`.
fn made(area: Area) -> Line
    ensures text { result ≡ printed (Report.Made area) }
    ensures room { length result ≤ 5 }
{
    let letter = match area {
        Area::Words => b'm',
        Area::Tags => b't',
    };
    let mut line = Line::new(letter);
    line.word(b"ok");
    line.feed();
    line
}

// A commit, with its place or `-`.
fn committed(task: u32, place: Option<u32>, compared: u32) -> Line
    ensures text { result ≡ printed (Report.Committed task place compared) }
    ensures room { length result ≤ 25 + length (decimal task) }
{
    let mut line = Line::new(b'c');
    line.number(task);
    match place {
        Some(place) => line.number(place),
        None => line.word(b"-"),
    }
    line.number(compared);
    line.feed();
    line
}

// A task whose writing back is done.
fn done(task: u32, place: u32) -> Line
    ensures text { result ≡ printed (Report.Done task place) }
    ensures room { length result ≤ 19 + length (decimal task) }
{
    let mut line = Line::new(b'k');
    line.number(task);
    line.word(b"done");
    line.number(place);
    line.feed();
    line
}

// A refusal, with the place waited for where it names one.
fn refused(reason: Refusal) -> Line
    ensures text { result ≡ printed (Report.Refused reason) }
    ensures room { length result ≤ room (Report.Refused reason) }
{
    match reason {
        Refusal::MustWait { place } => Line::of(b'e', &[reason.code(), place]),
        _ => Line::of(b'e', &[reason.code()]),
    }
}

// Not `Display`: that says what is written where the writing succeeds, and `print` fails only where a line does not fit.
impl From<Report> for Line {
    ghost from_gives = { λ report line. (line ≡ printed report) × (length line ≤ room report) };

    fn from(report: Report) -> Line {
        match report {
            Report::Made(area) => made(area),
            Report::Began { task, start } => Line::of(b'b', &[task, start]),
            Report::Read {
                task,
                value,
                quality: None,
                compared,
            } => Line::of(b'r', &[task, value, compared]),
            Report::Read {
                task,
                value,
                quality: Some(quality),
                compared,
            } => Line::of(b'r', &[task, value, u32::from(quality), compared]),
            Report::Wrote { task, logged } => Line::of(b'w', &[task, logged]),
            Report::Committed {
                task,
                place,
                compared,
            } => committed(task, place, compared),
            Report::Left { task, left } => Line::of(b'k', &[task, left]),
            Report::Done { task, place } => done(task, place),
            Report::Quit { task, logged } => Line::of(b'q', &[task, logged]),
            Report::Conflict {
                task,
                place,
                compared,
            } => Line::of(b'x', &[task, place, compared]),
            Report::Overrun { task, compared } => Line::of(b'o', &[task, compared]),
            Report::Refused(reason) => refused(reason),
            Report::Numbered {
                number,
                place: None,
            } => Line::of(b'e', &[number]),
            Report::Numbered {
                number,
                place: Some(place),
            } => Line::of(b'e', &[number, place]),
            Report::Broken { line } => Line::of(b'e', &[Refusal::BrokenLine.code(), line]),
        }
    }
}

// The next line does not fit the output.
#[derive(Clone, Copy, Debug, PartialEq, Eq)]
pub struct Short;

// The output that is lent, and how many of its bytes are written: C lends bytes, where a vector would own them.
#[derive(Drop)]
pub struct Output<'a> {
    bytes: &'a mut [u8],
    written: usize,
}

impl<'a> Output<'a> {
    pub fn new(bytes: &'a mut [u8]) -> Output<'a>
        ensures bytes { result.bytes.now ≡ bytes.old }
        ensures start { result.written ≡ 0 }
        ensures lender { result.bytes.ghost_name ≡ bytes.entry.ghost_name }
    {
        Output { bytes, written: 0 }
    }

    pub fn written(&self) -> usize
        ensures { result ≡ self.now.written }
    {
        self.written
    }

    fn put(&mut self, line: &[u8]) -> Result<(), Short>
        ensures writes { Writes line.now self.old self.new result }
        ensures lender { self.new.bytes.ghost_name ≡ self.old.bytes.ghost_name }
    {
        let at = self.written;
        let end = at.checked_add(line.len()).ok_or(Short)?;
        if end > self.bytes.len() {
            return Err(Short);
        }
        self.bytes[at..end].copy_from_slice(line);
        self.written = end;
        Ok(())
    }

    // Writes the line of the report behind what is written, where it fits.
    pub fn print(&mut self, report: Report) -> Result<(), Short>
        ensures writes { Writes (printed report) self.old self.new result }
        ensures lender { self.new.bytes.ghost_name ≡ self.old.bytes.ghost_name }
        ensures short { length (printed report) ≤ 64 }
        ensures room { length (printed report) ≤ room report }
    {
        self.put(Line::from(report).as_slice())
    }
}

// Writes the line of the report behind `at`, any position, and answers the position behind the line, or `None` where it does not
// fit.
pub fn print(report: Report, out: &mut [u8], at: usize) -> Option<usize>
    ensures writes { MatchOption result (Full (printed report) at out.old out.new) (Put (printed report) at out.old out.new) }
    ensures short { length (printed report) ≤ 64 }
    ensures room { length (printed report) ≤ room report }
{
    let mut output = Output {
        bytes: out,
        written: at,
    };
    output.print(report).ok()?;
    Some(output.written)
}
