// Begin: opens a transaction of a task.
ghost use Rattle.engine.specs.View.{view, SameLoans};
ghost use Rattle.rules.specs.Calls.{by, begin};
ghost use Rattle.rules.specs.Promise.{Kept};
ghost use Rattle.rules.specs.Steps.{Step};
ghost use Rattle.held.specs.Handed.{BeginHands};
ghost use Rattle.held.specs.Replies.{begin_reply};

use super::OpenTransaction;
use cells::memory::Memory;
use cells::refusal::Refusal;
use engine::arrays::Arrays;
use engine::engine::Engine;
use filters::filter::Filter;

impl OpenTransaction {
    // The answer is the open transaction and its start.
    pub fn begin<M: Memory, F: Filter>(
        engine: &Engine,
        memory: &M,
        arrays: &mut Arrays<'_, '_, '_, '_, F, M::Cell>,
        task: u32,
    ) -> Result<(OpenTransaction, u32), Refusal>
        ensures step { Step F.Filter (view engine.now (M.contents memory.now) arrays.old) (by task begin) (begin_reply result) (view engine.now (M.contents memory.now) arrays.new) }
        ensures promise { Kept F.Filter (view engine.now (M.contents memory.now) arrays.old) (by task begin) (begin_reply result) (view engine.now (M.contents memory.now) arrays.new) }
        ensures handed { BeginHands task result }
        ensures loans { SameLoans arrays.old arrays.new }
    {
        let start = engine.begin(memory, arrays, task)?;
        Ok((OpenTransaction { task }, start))
    }
}
