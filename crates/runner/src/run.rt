// A whole run: the first line makes the engine, the others are played over it.
ghost use Rattle.std.specs.Mem.{type_size};
ghost use Rattle.std.specs.Prelude.{◌≡◌, ◌+◌, ◌*◌, ◌%◌, ◌^◌, ◌<◌, ◌≤◌, length, replicate};
ghost use Rattle.filters.specs.contracts.small.SmallFilter.TheImpl.{ghosts as small};
ghost use Rattle.lines.specs.Grammar.{MayBeFirst};
ghost use Rattle.runner.specs.Law.{Law};
ghost use Rattle.runner.specs.Outputs.{Fills};
ghost use Rattle.runner.specs.Runs.{FirstLine, Runs, Starts, packed, seen};
ghost use Rattle.runner.specs.Inputs.{left};

use crate::face::Face;
use crate::input::Input;
use crate::turn::Session;
use cells::memory::Memory;
use cells::refusal::Refusal;
use cells::tags::Tags;
use cells::words::Words;
use engine::arrays::Arrays;
use engine::engine::{Engine, Settings};
use filters::small::Small;
use lines::command::{Area, Command, Making};
use lines::reader::Broken;
use lines::report::{Output, Report, Short};
use rules::ring::Entry;
use rules::table::TaskRecord;

// The fixed buffers of a run.
const MOST_SLOTS: usize = 64;

const MOST_TASKS: usize = 8;

const MOST_PAIRS: usize = 16;

const MOST_LOGGED: usize = MOST_TASKS * MOST_PAIRS;

const MOST_CELLS: usize = 256;

const MOST_BYTES: usize = 5 * MOST_CELLS;

// The answer counts sixteenths of a byte written; the rest is the refusal's number where the next line does not fit.
pub const UNIT: u64 = 16;

// A run over a memory whose cells are all at 0, with arrays of the right lengths.
fn run_over<C: Face, M: Memory<Cell = C> + Drop>(
    input: Input<'_>,
    area: Area,
    making: Making,
    memory: M,
    output: &mut Output<'_>,
) -> Result<(), Short>
    requires size { 128 * type_size C.row < 2 ^ 63 }
    requires slots { making.slots ≤ 64 }
    requires tasks { making.tasks ≤ 8 }
    requires pairs { making.pairs ≤ 16 }
    requires zeros { M.contents memory ≡ replicate making.cells (C.Face.made 0 0) }
    ensures run { Starts small C.Face.made C.Face.shown area making (left input.entry) (seen output.old) output.new.bytes.now (packed output.new result) }
    ensures fills { Fills (1 + length (left input.entry)) output.old output.new result }
{
    let mut ring = [Entry::<Small>::vacant(); MOST_SLOTS];
    let mut table = [TaskRecord::<Small>::emptied(); MOST_TASKS];
    let mut addresses = [0; MOST_LOGGED];
    let mut cells = [C::make(0, 0); MOST_LOGGED];
    let Making {
        slots,
        tasks,
        pairs,
        last,
        ..
    } = making;
    let settings = Settings {
        slots,
        tasks,
        pairs,
        last,
    };
    let logged = (tasks * pairs) as usize;
    let mut arrays = Arrays {
        ring: &mut ring[..slots as usize],
        table: &mut table[..tasks as usize],
        addresses: &mut addresses[..logged],
        cells: &mut cells[..logged],
    };
    let engine = match Engine::make(settings, &memory, &mut arrays) {
        Ok(engine) => engine,
        Err(reason) => return output.print(Report::Refused(reason)),
    };
    output.print(Report::Made(area))?;
    let mut session = Session {
        engine,
        memory,
        arrays,
        area,
    };
    session.play(input, output)
}

// Makes the memory that the first line asks for, and runs over it.
fn start(input: Input<'_>, command: Command, output: &mut Output<'_>) -> Result<(), Short>
    requires { MayBeFirst command }
    ensures run { FirstLine small command (left input.entry) (seen output.old) output.new.bytes.now (packed output.new result) }
    ensures fills { Fills (1 + length (left input.entry)) output.old output.new result }
{
    let Command::Make { area, making } = command else {
        unreachable()
    };
    let cells = making.cells as usize;
    match area {
        Area::Words => {
            let mut words = [0; MOST_CELLS];
            let memory = Words::new(&mut words[..cells]);
            run_over(input, area, making, memory, output)
        }
        Area::Tags => {
            let mut bytes = [0; MOST_BYTES];
            let memory = Tags::new(&mut bytes[..5 * cells]);
            run_over(input, area, making, memory, output)
        }
    }
}

// Plays the text, where it is short enough.
fn run(text: &[u8], output: &mut Output<'_>) -> Result<(), Short>
    requires { output.old.written ≡ 0 }
    ensures run { Runs small text.now output.old.bytes.now output.new.bytes.now (packed output.new result) }
    ensures fills { Fills 8192 output.old output.new result }
{
    let Some(mut input) = Input::new(text) else {
        return output.print(Report::Broken { line: 0 });
    };
    match input.next(None) {
        Ok(Some(command)) => start(input, command, output),
        Ok(None) => Ok(()),
        Err(Broken) => output.print(Report::Broken { line: 1 }),
    }
}

// What C is answered of a run: its interface has one number for both.
fn answer(output: &Output<'_>, ended: Result<(), Short>) -> u64
    requires { output.now.written ≤ 524288 }
    ensures { result ≡ packed output.now ended }
{
    let rest = match ended {
        Ok(()) => 0,
        Err(Short) => u64::from(Refusal::OutputFull.code()),
    };
    output.written() as u64 * UNIT + rest
}

// Plays the schedule in `input` and prints into `output`, for C. The answer is the number of bytes written × 16, plus 10 where the next line does not fit.
pub fn dohvalin_run(input: &[u8], output: &mut [u8]) -> u64
    ensures runs { Runs small input.now output.old output.new result }
    ensures suffices { 65536 ≤ length output.old → result % 16 ≡ 0 }
    ensures law { Law small input.now output.old output.new result }
{
    let mut printed = Output::new(output);
    let ended = run(input, &mut printed);
    answer(&printed, ended)
}
