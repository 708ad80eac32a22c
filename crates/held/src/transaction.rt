// The two held transactions. Neither is Copy or Drop: what a call has ended cannot be used again, and what no call has ended cannot be let go.
// They are two types of one form: each is a number only, and one type with a parameter for the state would need a marker beside it.
// A call takes the engine, the memory and the arrays one by one, as the engine's own does: work writes memory, commit the engine,
// and no other call either, which one struct for all would not say.
ghost use Rattle.std.specs.Prelude.{◌≡◌};
ghost use Rattle.held.specs.Handed.{DeniedHands};
ghost use Rattle.held.specs.Replies.{denied_reply};

use crate::answer::{Denied, Refused};
use rules::answer::Denial;

mod begin;
mod commit;
mod quit;
mod read;
mod work;
mod write;

// May read, write, commit and quit.
pub struct OpenTransaction {
    task: u32,
}

impl OpenTransaction {
    // The task, whose transaction goes on by the numbered calls.
    pub fn into_task(self) -> u32
        ensures { result ≡ self.task }
    {
        let OpenTransaction { task } = self;
        task
    }

    // What a denied call of the task leaves: the transaction where it is refused, and nothing where it is aborted.
    fn denied(task: u32, denial: Denial) -> Denied
        ensures reply { denied_reply result ≡ denial }
        ensures handed { DeniedHands task result }
    {
        match denial {
            Denial::Refused(refusal) => Denied::Refused(Refused {
                transaction: OpenTransaction { task },
                refusal,
            }),
            Denial::Aborted(abort) => Denied::Aborted(abort),
        }
    }
}

// Has a place, and works until its cells are written back.
pub struct CommittedTransaction {
    task: u32,
}

impl CommittedTransaction {
    // The task, whose transaction goes on by the numbered calls.
    pub fn into_task(self) -> u32
        ensures { result ≡ self.task }
    {
        let CommittedTransaction { task } = self;
        task
    }
}
