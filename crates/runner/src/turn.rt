// One line of the schedule: the call that it asks for, and the line printed of the answer.
ghost use Rattle.std.specs.Prelude.{◌≡◌};
ghost use Rattle.lines.specs.Grammar.{MayFollow};
ghost use Rattle.runner.specs.Lines.{denial, done, Played};
ghost use Rattle.runner.specs.Sessions.{state};

use crate::face::Face;
use cells::memory::Memory;
use engine::arrays::Arrays;
use engine::engine::Engine;
use filters::filter::Filter;
use lines::command::{Area, Command};
use lines::report::Report;
use rules::answer::{Abort, Denial, Worked};

fn denied(task: u32, reason: Denial) -> Report
    ensures { result ≡ denial task reason }
{
    match reason {
        Denial::Refused(reason) => Report::Refused(reason),
        Denial::Aborted(Abort::Conflict { place, compared }) => Report::Conflict {
            task,
            place,
            compared,
        },
        Denial::Aborted(Abort::Overrun { compared }) => Report::Overrun { task, compared },
    }
}

fn worked(task: u32, progress: Worked) -> Report
    ensures { result ≡ done task progress }
{
    match progress {
        Worked::Left(left) => Report::Left { task, left },
        Worked::Done { place } => Report::Done { task, place },
    }
}

// An engine that is made, over its memory and its arrays, and what its cells hold. A struct of this crate: one for every owner
// would be public in `engine`, promise nothing, and still be named with each owner's types.
#[derive(Drop)]
pub(crate) struct Session<'r, 't, 'a, 'c, M, F, C> {
    pub(crate) engine: Engine,
    pub(crate) memory: M,
    pub(crate) arrays: Arrays<'r, 't, 'a, 'c, F, C>,
    pub(crate) area: Area,
}

impl<C: Face, M: Memory<Cell = C>, F: Filter> Session<'_, '_, '_, '_, M, F, C> {
    // Makes the call that the line asks for. Each answer is matched, since a refused call has its line too: with `?` a report
    // would stand on both sides.
    pub(crate) fn turn(&mut self, command: Command) -> Report
        requires { MayFollow self.old.area command }
        ensures played { Played F.Filter C.Face.made C.Face.shown (state M.contents self.old) command result (state M.contents self.new) }
        ensures area { self.new.area ≡ self.old.area }
    {
        let engine = &mut self.engine;
        let memory = &mut self.memory;
        let arrays = &mut self.arrays;
        match command {
            Command::Make { .. } => unreachable(),
            Command::Begin { task } => match engine.begin(memory, arrays, task) {
                Ok(start) => Report::Began { task, start },
                Err(reason) => Report::Refused(reason),
            },
            Command::Read { task, address } => match engine.read(memory, arrays, task, address) {
                Ok(answer) => answer.0.show(task, answer.1),
                Err(reason) => denied(task, reason),
            },
            Command::Write {
                task,
                address,
                value,
                quality,
            } => {
                let cell = C::make(value, quality.unwrap_or(0));
                match engine.write(memory, arrays, task, address, cell) {
                    Ok(logged) => Report::Wrote { task, logged },
                    Err(reason) => Report::Refused(reason),
                }
            }
            Command::Commit { task } => match engine.commit(memory, arrays, task) {
                Ok((place, compared)) => Report::Committed {
                    task,
                    place,
                    compared,
                },
                Err(reason) => denied(task, reason),
            },
            Command::Work { task } => match engine.work(memory, arrays, task) {
                Ok(progress) => worked(task, progress),
                Err(reason) => Report::Refused(reason),
            },
            Command::Quit { task } => match engine.quit(memory, arrays, task) {
                Ok(logged) => Report::Quit { task, logged },
                Err(reason) => Report::Refused(reason),
            },
        }
    }
}
