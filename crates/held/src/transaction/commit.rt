// Commit: takes the open transaction away.
ghost use Rattle.engine.specs.View.{view, SameLoans};
ghost use Rattle.rules.specs.Calls.{by, commit};
ghost use Rattle.rules.specs.Promise.{Kept};
ghost use Rattle.rules.specs.Steps.{Step};
ghost use Rattle.held.specs.Handed.{CommitHands};
ghost use Rattle.held.specs.Replies.{commit_reply};

use super::{CommittedTransaction, OpenTransaction};
use crate::answer::{Committing, Denied};
use cells::memory::Memory;
use engine::arrays::Arrays;
use engine::engine::Engine;
use filters::filter::Filter;

impl OpenTransaction {
    // Gives back a committed transaction with its place, or the open one with its refusal, or neither where the transaction has ended.
    pub fn commit<M: Memory, F: Filter>(
        self,
        engine: &mut Engine,
        memory: &M,
        arrays: &mut Arrays<'_, '_, '_, '_, F, M::Cell>,
    ) -> Result<Committing, Denied>
        ensures step { Step F.Filter (view engine.old (M.contents memory.now) arrays.old) (by self.task commit) (commit_reply result) (view engine.new (M.contents memory.now) arrays.new) }
        ensures promise { Kept F.Filter (view engine.old (M.contents memory.now) arrays.old) (by self.task commit) (commit_reply result) (view engine.new (M.contents memory.now) arrays.new) }
        ensures handed { CommitHands self.task result }
        ensures loans { SameLoans arrays.old arrays.new }
    {
        let OpenTransaction { task } = self;
        match engine.commit(memory, arrays, task) {
            Ok((Some(place), compared)) => Ok(Committing::Committed {
                transaction: CommittedTransaction { task },
                place,
                compared,
            }),
            Ok((None, compared)) => Ok(Committing::NothingLogged { compared }),
            Err(denial) => Err(OpenTransaction::denied(task, denial)),
        }
    }
}
