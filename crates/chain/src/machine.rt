// The engine over the small filter, with the memory and the arrays that its calls are handed. A struct of the program: one for
// every owner would be public in `engine`, promise nothing, and still be named with each owner's types.
ghost use Rattle.std.specs.Prelude.{◌≡◌, IfOk};
ghost use Rattle.chain.specs.Pages.{Oldest};

use crate::answer::{Answer, Effect};
use crate::book::{Book, CELLS};
use crate::moves::{Act, Move};
use crate::statements::Turn;
use cells::memory::Memory;
use cells::refusal::Refusal;
use cells::words::Words;
use engine::arrays::Arrays;
use engine::engine::Engine;
use filters::small::Small;
use std::array;

#[derive(Drop)]
pub struct Machine<'w, 'r, 't, 'a, 'c> {
    pub engine: Engine,
    pub memory: Words<'w>,
    pub arrays: Arrays<'r, 't, 'a, 'c, Small, u32>,
}

impl<'w, 'r, 't, 'a, 'c> Machine<'w, 'r, 't, 'a, 'c> {
    // Makes one call, notes whose turn it was, and asks for the outstanding count before and after it.
    pub fn turn(&mut self, book: &Book, call: Move) -> Result<Turn, Refusal>
        ensures { IfOk result (λ turn. (turn.call ≡ call) × Oldest book.now.pages.items turn.oldest) }
    {
        let oldest = book.oldest();
        let before = self.outstanding()?;
        let answer = self.answered(call);
        let after = self.outstanding()?;
        Ok(Turn {
            call,
            answer,
            oldest,
            before,
            after,
        })
    }

    // The cells of the memory, in order of their addresses.
    pub(crate) fn contents(&self) -> Result<[u32; CELLS], Refusal> {
        array::try_from_fn(|address| self.memory.read(address))
    }

    fn outstanding(&mut self) -> Result<u32, Refusal> {
        self.engine.outstanding(&self.memory, &mut self.arrays)
    }

    // Makes the call of one move.
    fn answered(&mut self, call: Move) -> Answer {
        let Machine {
            engine,
            memory,
            arrays,
        } = self;
        let task = call.task;
        Ok(match call.act {
            Act::Begin => Effect::Began {
                start: engine.begin(memory, arrays, task)?,
            },
            Act::Read { address } => {
                let (cell, compared) = engine.read(memory, arrays, task, address)?;
                Effect::Read { cell, compared }
            }
            Act::Write { address, value } => Effect::Wrote {
                logged: engine.write(memory, arrays, task, address, value)?,
            },
            Act::Commit => {
                let (place, compared) = engine.commit(memory, arrays, task)?;
                Effect::Committed { place, compared }
            }
            Act::Work => Effect::Worked(engine.work(memory, arrays, task)?),
            Act::Quit => Effect::Quit {
                logged: engine.quit(memory, arrays, task)?,
            },
        })
    }
}
