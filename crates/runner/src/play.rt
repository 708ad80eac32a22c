// The lines of a schedule behind the first, one after the other.
ghost use Rattle.std.specs.Prelude.{length};
ghost use Rattle.runner.specs.Outputs.{Fills};
ghost use Rattle.runner.specs.Runs.{Plays, packed, seen};
ghost use Rattle.runner.specs.Inputs.{left};
ghost use Rattle.runner.specs.Sessions.{state};

use crate::face::Face;
use crate::input::Input;
use crate::turn::Session;
use cells::memory::Memory;
use filters::filter::Filter;
use lines::reader::Broken;
use lines::report::{Output, Report, Short};

impl<C: Face, M: Memory<Cell = C>, F: Filter> Session<'_, '_, '_, '_, M, F, C> {
    // Plays the lines from the second on, and prints a line for each.
    pub(crate) fn play(
        &mut self,
        mut input: Input<'_>,
        output: &mut Output<'_>,
    ) -> Result<(), Short>
        ensures plays { Plays F.Filter C.Face.made C.Face.shown self.old.area (state M.contents self.old) 2 (left input.entry) (seen output.old) output.new.bytes.now (packed output.new result) }
        ensures fills { Fills (length (left input.entry)) output.old output.new result }
    {
        for line in 2.. {
            match input.next(Some(self.area)) {
                Ok(Some(command)) => output.print(self.turn(command))?,
                Ok(None) => break,
                Err(Broken) => return output.print(Report::Broken { line }),
            }
        }
        Ok(())
    }
}
