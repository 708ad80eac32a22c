// Read: the cell, as the transaction sees it.
ghost use Rattle.engine.specs.View.{view, SameLoans};
ghost use Rattle.rules.specs.Calls.{by, read};
ghost use Rattle.rules.specs.Promise.{Kept};
ghost use Rattle.rules.specs.Steps.{Step};
ghost use Rattle.held.specs.Handed.{ReadHands};
ghost use Rattle.held.specs.Replies.{read_reply};

use super::OpenTransaction;
use crate::answer::{Denied, Reading};
use cells::memory::Memory;
use engine::arrays::Arrays;
use engine::engine::Engine;
use filters::filter::Filter;

impl OpenTransaction {
    // Gives the open transaction back with the cell and the number of filters compared, or with its refusal. A conflict or an overrun has ended it.
    pub fn read<M: Memory, F: Filter>(
        self,
        engine: &Engine,
        memory: &M,
        arrays: &mut Arrays<'_, '_, '_, '_, F, M::Cell>,
        address: u32,
    ) -> Result<Reading<M::Cell>, Denied>
        ensures step { Step F.Filter (view engine.now (M.contents memory.now) arrays.old) (by self.task (read address)) (read_reply result) (view engine.now (M.contents memory.now) arrays.new) }
        ensures promise { Kept F.Filter (view engine.now (M.contents memory.now) arrays.old) (by self.task (read address)) (read_reply result) (view engine.now (M.contents memory.now) arrays.new) }
        ensures handed { ReadHands self.task result }
        ensures loans { SameLoans arrays.old arrays.new }
    {
        let OpenTransaction { task } = self;
        let (cell, compared) = engine
            .read(memory, arrays, task, address)
            .map_err(|denial| OpenTransaction::denied(task, denial))?;
        Ok(Reading {
            transaction: OpenTransaction { task },
            cell,
            compared,
        })
    }
}
