// What a task holds between two of its moves, and the calls that this allows.
ghost use Rattle.std.specs.Prelude.{◌≡◌, IfOk, MatchResult};
ghost use Rattle.held.specs.Handed.{DeniedHands};
ghost use Rattle.bagger.specs.Holding.{number, holds_nothing, Own};
ghost use Rattle.bagger.specs.declared.holder.Held.TheVariants.{Committed, Open};

use crate::controller::Controller;
use crate::machine::Task;
use crate::moves::{Act, Outcome};
use crate::turn::Turn;
use cells::memory::Memory;
use cells::refusal::Refusal;
use filters::filter::Filter;
use held::answer::{Denied, Refused};
use held::transaction::{CommittedTransaction, OpenTransaction};

#[derive(Default)]
pub(crate) enum Held {
    #[default]
    Nothing,
    Open(OpenTransaction),
    Committed(CommittedTransaction),
}

impl From<OpenTransaction> for Held {
    ghost from_gives = { λ transaction held. held ≡ Open transaction };

    fn from(transaction: OpenTransaction) -> Held {
        Held::Open(transaction)
    }
}

impl From<CommittedTransaction> for Held {
    ghost from_gives = { λ transaction held. held ≡ Committed transaction };

    fn from(transaction: CommittedTransaction) -> Held {
        Held::Committed(transaction)
    }
}

impl Held {
    // Whether nothing was held. What was held goes on by the numbered calls.
    pub(crate) fn release(self) -> bool
        ensures { result ≡ holds_nothing self }
    {
        let _task = match self {
            Held::Nothing => return true,
            Held::Open(transaction) => transaction.into_task(),
            Held::Committed(transaction) => transaction.into_task(),
        };
        false
    }

    // Makes the move's call on what is held. The task keeps a transaction of its own.
    pub(crate) fn turn<M: Memory, F: Filter>(
        self,
        controller: &mut Controller<'_, '_, '_, '_, M, F>,
        task: Task,
        act: Act<M::Cell>,
    ) -> Turn<M::Cell>
        ensures { Own (number task) self → Own (number task) result.held }
    {
        match self {
            Held::Nothing => Turn::settled(idle(controller, task, act)),
            Held::Open(transaction) => Turn::settled(open(transaction, controller, act)),
            Held::Committed(transaction) => {
                Turn::settled(committed(transaction, controller, act))
            }
        }
    }
}

// A task that holds nothing can begin. Neither the engine's record nor a cell of the memory changes.
fn idle<M: Memory, F: Filter>(
    controller: &mut Controller<'_, '_, '_, '_, M, F>,
    task: Task,
    act: Act<M::Cell>,
) -> Result<Turn<M::Cell>, Refusal>
    ensures own { IfOk result (λ turn. Own (number task) turn.held) }
    ensures engine { controller.new.engine ≡ controller.old.engine }
    ensures memory { M.contents controller.new.memory ≡ M.contents controller.old.memory }
{
    let Act::Begin = act else {
        return Ok(Turn::new(Held::Nothing, Outcome::OutOfTurn));
    };
    let Controller {
        engine,
        memory,
        arrays,
    } = controller;
    let (transaction, start) = OpenTransaction::begin(engine, memory, arrays, task as u32)?;
    Ok(Turn::new(Held::Open(transaction), Outcome::Began(start)))
}

// An open transaction can be read and written through, committed and quit. No cell of the memory changes before a work.
fn open<M: Memory, F: Filter>(
    transaction: OpenTransaction,
    controller: &mut Controller<'_, '_, '_, '_, M, F>,
    act: Act<M::Cell>,
) -> Result<Turn<M::Cell>, Denied>
    ensures own { MatchResult result (λ turn. Own transaction.task turn.held) (λ denied. DeniedHands transaction.task denied) }
    ensures memory { M.contents controller.new.memory ≡ M.contents controller.old.memory }
{
    let Controller {
        engine,
        memory,
        arrays,
    } = controller;
    match act {
        Act::Read(signal) => {
            let reading = transaction.read(engine, memory, arrays, signal as u32)?;
            Ok(reading.into())
        }
        Act::Write(signal, cell) => {
            let address = signal as u32;
            let (transaction, logged) = transaction.write(engine, memory, arrays, address, cell)?;
            Ok(Turn::new(Held::Open(transaction), Outcome::Logged(logged)))
        }
        Act::Commit => Ok(transaction.commit(engine, memory, arrays)?.into()),
        Act::Quit => {
            let logged = transaction.quit(engine, memory, arrays)?;
            Ok(Turn::new(Held::Nothing, Outcome::GaveUp(logged)))
        }
        Act::Begin | Act::Work => Ok(Turn::new(Held::Open(transaction), Outcome::OutOfTurn)),
    }
}

// A committed transaction can be worked on. The engine's record does not change.
fn committed<M: Memory, F: Filter>(
    transaction: CommittedTransaction,
    controller: &mut Controller<'_, '_, '_, '_, M, F>,
    act: Act<M::Cell>,
) -> Result<Turn<M::Cell>, Refused<CommittedTransaction>>
    ensures own { MatchResult result (λ turn. Own transaction.task turn.held) (λ refused. refused.transaction.task ≡ transaction.task) }
    ensures engine { controller.new.engine ≡ controller.old.engine }
{
    let Act::Work = act else {
        return Ok(Turn::new(Held::Committed(transaction), Outcome::OutOfTurn));
    };
    let Controller {
        engine,
        memory,
        arrays,
    } = controller;
    Ok(transaction.work(engine, memory, arrays)?.into())
}
