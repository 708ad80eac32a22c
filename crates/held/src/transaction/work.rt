// Work: writes the next logged cell back, or finishes the writer.
ghost use Rattle.std.specs.Prelude.{◌≡◌};
ghost use Rattle.engine.specs.View.{view, SameLoans};
ghost use Rattle.rules.specs.Calls.{by, work};
ghost use Rattle.rules.specs.Promise.{Kept};
ghost use Rattle.rules.specs.Steps.{Step};
ghost use Rattle.held.specs.Handed.{WorkHands};
ghost use Rattle.held.specs.Replies.{work_reply};

use super::CommittedTransaction;
use crate::answer::{Refused, Working};
use cells::memory::Memory;
use engine::arrays::Arrays;
use engine::engine::Engine;
use filters::filter::Filter;
use rules::answer::Worked;

impl CommittedTransaction {
    // Gives the committed transaction back with how many cells are left, or with its refusal. Done with its place, it has ended.
    pub fn work<M: Memory, F: Filter>(
        self,
        engine: &Engine,
        memory: &mut M,
        arrays: &mut Arrays<'_, '_, '_, '_, F, M::Cell>,
    ) -> Result<Working, Refused<CommittedTransaction>>
        ensures step { Step F.Filter (view engine.now (M.contents memory.old) arrays.old) (by self.task work) (work_reply result) (view engine.now (M.contents memory.new) arrays.new) }
        ensures promise { Kept F.Filter (view engine.now (M.contents memory.old) arrays.old) (by self.task work) (work_reply result) (view engine.now (M.contents memory.new) arrays.new) }
        ensures handed { WorkHands self.task result }
        ensures rest { M.rest memory.new ≡ M.rest memory.old }
        ensures lender { M.lender memory.new ≡ M.lender memory.old }
        ensures loans { SameLoans arrays.old arrays.new }
    {
        let CommittedTransaction { task } = self;
        match engine.work(memory, arrays, task) {
            Ok(Worked::Left(cells)) => Ok(Working::Left {
                transaction: CommittedTransaction { task },
                cells,
            }),
            Ok(Worked::Done { place }) => Ok(Working::Done { place }),
            Err(refusal) => Err(Refused {
                transaction: CommittedTransaction { task },
                refusal,
            }),
        }
    }
}
