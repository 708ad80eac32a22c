// What a call leaves with the task, and what came of the move.
ghost use Rattle.std.specs.Prelude.{◌≡◌, ℕ, MatchResult, Ok};
ghost use Rattle.held.specs.Handed.{CommitHands, DeniedHands, WorkHands};
ghost use Rattle.bagger.specs.Holding.{Own};
ghost use Rattle.bagger.specs.declared.holder.Held.TheVariants.{Nothing, Open};

use crate::holder::Held;
use crate::moves::Outcome;
use cells::refusal::Refusal;
use held::answer::{Committing, Denied, Reading, Refused, Working};

pub(crate) struct Turn<C> {
    pub(crate) held: Held,
    pub(crate) outcome: Outcome<C>,
}

impl<C> Turn<C> {
    pub(crate) fn new(held: Held, outcome: Outcome<C>) -> Turn<C>
        ensures { result.held ≡ held }
    {
        Turn { held, outcome }
    }

    // The turn of an accepted call, or what a refused or aborted one leaves.
    pub(crate) fn settled<E: Into<Turn<C>>>(answer: Result<Turn<C>, E>) -> Turn<C>
        ensures { MatchResult answer (λ turn. result ≡ turn) (λ denied. E.converts denied result) }
    {
        match answer {
            Ok(turn) => turn,
            Err(denied) => denied.into(),
        }
    }
}

impl<C> From<Reading<C>> for Turn<C> {
    ghost from_gives = { λ reading turn. turn.held ≡ Open reading.transaction };

    fn from(reading: Reading<C>) -> Turn<C> {
        let Reading {
            transaction,
            cell,
            compared: _,
        } = reading;
        Turn::new(Held::Open(transaction), Outcome::Answered(cell))
    }
}

impl<C> From<Committing> for Turn<C> {
    ghost from_gives = { λ committing turn. (task : ℕ) → CommitHands task (Ok committing) → Own task turn.held };

    fn from(committing: Committing) -> Turn<C> {
        match committing {
            Committing::Committed {
                transaction,
                place,
                compared: _,
            } => Turn::new(Held::Committed(transaction), Outcome::Placed(place)),
            Committing::NothingLogged { compared: _ } => {
                Turn::new(Held::Nothing, Outcome::NothingLogged)
            }
        }
    }
}

impl<C> From<Working> for Turn<C> {
    ghost from_gives = { λ working turn. (task : ℕ) → WorkHands task (Ok working) → Own task turn.held };

    fn from(working: Working) -> Turn<C> {
        match working {
            Working::Left { transaction, cells } => {
                Turn::new(Held::Committed(transaction), Outcome::Left(cells))
            }
            Working::Done { place } => Turn::new(Held::Nothing, Outcome::Finished(place)),
        }
    }
}

// A refused begin leaves nothing.
impl<C> From<Refusal> for Turn<C> {
    ghost from_gives = { λ refusal turn. turn.held ≡ Nothing };

    fn from(refusal: Refusal) -> Turn<C> {
        Turn::new(Held::Nothing, refusal.into())
    }
}

// A refused transaction stays with the task.
impl<C, T: Into<Held>> From<Refused<T>> for Turn<C> {
    ghost from_gives = { λ refused turn. T.converts refused.transaction turn.held };

    fn from(refused: Refused<T>) -> Turn<C> {
        let Refused {
            transaction,
            refusal,
        } = refused;
        Turn::new(transaction.into(), refusal.into())
    }
}

impl<C> From<Denied> for Turn<C> {
    ghost from_gives = { λ denied turn. (task : ℕ) → DeniedHands task denied → Own task turn.held };

    fn from(denied: Denied) -> Turn<C> {
        match denied {
            Denied::Refused(refused) => refused.into(),
            Denied::Aborted(abort) => Turn::new(Held::Nothing, abort.into()),
        }
    }
}
