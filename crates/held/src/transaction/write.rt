// Write: logs a cell for its address.
ghost use Rattle.engine.specs.View.{view, SameLoans};
ghost use Rattle.rules.specs.Calls.{by, write};
ghost use Rattle.rules.specs.Promise.{Kept};
ghost use Rattle.rules.specs.Steps.{Step};
ghost use Rattle.held.specs.Handed.{WriteHands};
ghost use Rattle.held.specs.Replies.{write_reply};

use super::OpenTransaction;
use crate::answer::Refused;
use cells::memory::Memory;
use engine::arrays::Arrays;
use engine::engine::Engine;
use filters::filter::Filter;

impl OpenTransaction {
    // Gives the open transaction back with the logged count, or with its refusal.
    pub fn write<M: Memory, F: Filter>(
        self,
        engine: &Engine,
        memory: &M,
        arrays: &mut Arrays<'_, '_, '_, '_, F, M::Cell>,
        address: u32,
        cell: M::Cell,
    ) -> Result<(OpenTransaction, u32), Refused<OpenTransaction>>
        ensures step { Step F.Filter (view engine.now (M.contents memory.now) arrays.old) (by self.task (write address cell)) (write_reply result) (view engine.now (M.contents memory.now) arrays.new) }
        ensures promise { Kept F.Filter (view engine.now (M.contents memory.now) arrays.old) (by self.task (write address cell)) (write_reply result) (view engine.now (M.contents memory.now) arrays.new) }
        ensures handed { WriteHands self.task result }
        ensures loans { SameLoans arrays.old arrays.new }
    {
        let OpenTransaction { task } = self;
        let logged = engine
            .write(memory, arrays, task, address, cell)
            .map_err(|refusal| Refused {
                transaction: OpenTransaction { task },
                refusal,
            })?;
        Ok((OpenTransaction { task }, logged))
    }
}
