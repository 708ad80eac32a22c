// Quit: ends an open transaction.
ghost use Rattle.engine.specs.View.{view, SameLoans};
ghost use Rattle.rules.specs.Calls.{by, quit};
ghost use Rattle.rules.specs.Promise.{Kept};
ghost use Rattle.rules.specs.Steps.{Step};
ghost use Rattle.held.specs.Handed.{QuitHands};
ghost use Rattle.held.specs.Replies.{quit_reply};

use super::OpenTransaction;
use crate::answer::Refused;
use cells::memory::Memory;
use engine::arrays::Arrays;
use engine::engine::Engine;
use filters::filter::Filter;

impl OpenTransaction {
    // Answers the logged count, or gives the open transaction back with its refusal.
    pub fn quit<M: Memory, F: Filter>(
        self,
        engine: &Engine,
        memory: &M,
        arrays: &mut Arrays<'_, '_, '_, '_, F, M::Cell>,
    ) -> Result<u32, Refused<OpenTransaction>>
        ensures step { Step F.Filter (view engine.now (M.contents memory.now) arrays.old) (by self.task quit) (quit_reply result) (view engine.now (M.contents memory.now) arrays.new) }
        ensures promise { Kept F.Filter (view engine.now (M.contents memory.now) arrays.old) (by self.task quit) (quit_reply result) (view engine.now (M.contents memory.now) arrays.new) }
        ensures handed { QuitHands self.task result }
        ensures loans { SameLoans arrays.old arrays.new }
    {
        let OpenTransaction { task } = self;
        engine
            .quit(memory, arrays, task)
            .map_err(|refusal| Refused {
                transaction: OpenTransaction { task },
                refusal,
            })
    }
}
