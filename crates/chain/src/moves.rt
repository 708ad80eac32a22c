// The moves of the chain, in order.
use std::fmt;

#[derive(Clone, Copy)]
pub enum Act {
    Begin,
    Read { address: u32 },
    Write { address: u32, value: u32 },
    Commit,
    Work,
    Quit,
}

impl fmt::Display for Act {
    fn fmt<W: fmt::Write>(&self, f: &mut fmt::Formatter<W>) -> fmt::Result {
        match *self {
            Act::Begin => write!(f, "begins"),
            Act::Read { address } => write!(f, "reads cell {address}"),
            Act::Write { address, value } => write!(f, "writes {value} to cell {address}"),
            Act::Commit => write!(f, "commits"),
            Act::Work => write!(f, "works"),
            Act::Quit => write!(f, "quits"),
        }
    }
}

#[derive(Clone, Copy)]
pub struct Move {
    pub task: u32,
    pub act: Act,
}

pub const MOVES: [Move; 108] = [
    // A number that no task has, and a call before any begin.
    Move {
        task: 5,
        act: Act::Begin,
    },
    Move {
        task: 0,
        act: Act::Read { address: 0 },
    },
    // Task 0 fills its log.
    Move {
        task: 0,
        act: Act::Begin,
    },
    Move {
        task: 0,
        act: Act::Read { address: 12 },
    },
    Move {
        task: 0,
        act: Act::Read { address: 0 },
    },
    Move {
        task: 0,
        act: Act::Write {
            address: 0,
            value: 10,
        },
    },
    Move {
        task: 0,
        act: Act::Write {
            address: 1,
            value: 11,
        },
    },
    Move {
        task: 0,
        act: Act::Write {
            address: 0,
            value: 12,
        },
    },
    Move {
        task: 0,
        act: Act::Read { address: 0 },
    },
    Move {
        task: 0,
        act: Act::Write {
            address: 2,
            value: 13,
        },
    },
    Move {
        task: 0,
        act: Act::Write {
            address: 3,
            value: 14,
        },
    },
    // Task 4 reads and then rests, until the ring no longer holds what it must be compared with.
    Move {
        task: 4,
        act: Act::Begin,
    },
    Move {
        task: 4,
        act: Act::Read { address: 11 },
    },
    // Task 1 has read a cell that task 0 commits.
    Move {
        task: 1,
        act: Act::Begin,
    },
    Move {
        task: 1,
        act: Act::Read { address: 1 },
    },
    Move {
        task: 0,
        act: Act::Commit,
    },
    Move {
        task: 0,
        act: Act::Begin,
    },
    Move {
        task: 1,
        act: Act::Read { address: 5 },
    },
    Move {
        task: 1,
        act: Act::Read { address: 5 },
    },
    // Task 1 logs a cell of place 1 too, so it must wait.
    Move {
        task: 1,
        act: Act::Begin,
    },
    Move {
        task: 1,
        act: Act::Read { address: 5 },
    },
    Move {
        task: 1,
        act: Act::Write {
            address: 2,
            value: 20,
        },
    },
    Move {
        task: 1,
        act: Act::Write {
            address: 6,
            value: 21,
        },
    },
    Move {
        task: 1,
        act: Act::Commit,
    },
    Move {
        task: 1,
        act: Act::Work,
    },
    // Task 2 shares no cell with the others, and waits only to finish.
    Move {
        task: 2,
        act: Act::Begin,
    },
    Move {
        task: 2,
        act: Act::Write {
            address: 7,
            value: 30,
        },
    },
    Move {
        task: 2,
        act: Act::Read { address: 7 },
    },
    Move {
        task: 2,
        act: Act::Read { address: 8 },
    },
    Move {
        task: 2,
        act: Act::Commit,
    },
    Move {
        task: 2,
        act: Act::Work,
    },
    Move {
        task: 2,
        act: Act::Work,
    },
    // The ring is full until place 1 is finished.
    Move {
        task: 3,
        act: Act::Begin,
    },
    Move {
        task: 3,
        act: Act::Write {
            address: 9,
            value: 40,
        },
    },
    Move {
        task: 3,
        act: Act::Commit,
    },
    Move {
        task: 0,
        act: Act::Work,
    },
    Move {
        task: 0,
        act: Act::Work,
    },
    Move {
        task: 3,
        act: Act::Read { address: 9 },
    },
    Move {
        task: 0,
        act: Act::Work,
    },
    Move {
        task: 1,
        act: Act::Work,
    },
    Move {
        task: 0,
        act: Act::Work,
    },
    Move {
        task: 3,
        act: Act::Commit,
    },
    Move {
        task: 1,
        act: Act::Work,
    },
    Move {
        task: 1,
        act: Act::Work,
    },
    Move {
        task: 1,
        act: Act::Work,
    },
    Move {
        task: 2,
        act: Act::Work,
    },
    // A cell that is being written is in conflict; others are read.
    Move {
        task: 0,
        act: Act::Begin,
    },
    Move {
        task: 0,
        act: Act::Read { address: 9 },
    },
    Move {
        task: 3,
        act: Act::Work,
    },
    Move {
        task: 0,
        act: Act::Begin,
    },
    Move {
        task: 0,
        act: Act::Read { address: 2 },
    },
    Move {
        task: 3,
        act: Act::Work,
    },
    Move {
        task: 0,
        act: Act::Write {
            address: 4,
            value: 50,
        },
    },
    Move {
        task: 0,
        act: Act::Commit,
    },
    // Place 5 has taken over the slot of place 1.
    Move {
        task: 4,
        act: Act::Write {
            address: 11,
            value: 90,
        },
    },
    Move {
        task: 4,
        act: Act::Commit,
    },
    // Task 4 reads what four writers left.
    Move {
        task: 4,
        act: Act::Begin,
    },
    Move {
        task: 4,
        act: Act::Read { address: 0 },
    },
    Move {
        task: 4,
        act: Act::Read { address: 1 },
    },
    Move {
        task: 4,
        act: Act::Read { address: 2 },
    },
    Move {
        task: 4,
        act: Act::Commit,
    },
    // A quit, and a work of a task that owes none.
    Move {
        task: 1,
        act: Act::Begin,
    },
    Move {
        task: 1,
        act: Act::Write {
            address: 4,
            value: 60,
        },
    },
    Move {
        task: 1,
        act: Act::Write {
            address: 10,
            value: 61,
        },
    },
    Move {
        task: 1,
        act: Act::Quit,
    },
    Move {
        task: 1,
        act: Act::Work,
    },
    // Three writers of cell 4 in a row.
    Move {
        task: 1,
        act: Act::Begin,
    },
    Move {
        task: 1,
        act: Act::Read { address: 3 },
    },
    Move {
        task: 1,
        act: Act::Write {
            address: 4,
            value: 62,
        },
    },
    Move {
        task: 1,
        act: Act::Commit,
    },
    Move {
        task: 2,
        act: Act::Begin,
    },
    Move {
        task: 2,
        act: Act::Write {
            address: 4,
            value: 63,
        },
    },
    Move {
        task: 2,
        act: Act::Write {
            address: 5,
            value: 64,
        },
    },
    Move {
        task: 2,
        act: Act::Commit,
    },
    Move {
        task: 2,
        act: Act::Work,
    },
    Move {
        task: 0,
        act: Act::Work,
    },
    Move {
        task: 2,
        act: Act::Work,
    },
    Move {
        task: 1,
        act: Act::Work,
    },
    Move {
        task: 0,
        act: Act::Work,
    },
    Move {
        task: 1,
        act: Act::Work,
    },
    Move {
        task: 3,
        act: Act::Begin,
    },
    Move {
        task: 3,
        act: Act::Read { address: 5 },
    },
    Move {
        task: 3,
        act: Act::Begin,
    },
    Move {
        task: 3,
        act: Act::Read { address: 6 },
    },
    Move {
        task: 3,
        act: Act::Write {
            address: 6,
            value: 70,
        },
    },
    Move {
        task: 1,
        act: Act::Work,
    },
    Move {
        task: 2,
        act: Act::Work,
    },
    Move {
        task: 2,
        act: Act::Work,
    },
    // Task 4 commits over a cell that task 3 has read.
    Move {
        task: 4,
        act: Act::Begin,
    },
    Move {
        task: 4,
        act: Act::Read { address: 8 },
    },
    Move {
        task: 4,
        act: Act::Write {
            address: 8,
            value: 80,
        },
    },
    Move {
        task: 4,
        act: Act::Write {
            address: 6,
            value: 81,
        },
    },
    Move {
        task: 4,
        act: Act::Commit,
    },
    Move {
        task: 3,
        act: Act::Commit,
    },
    Move {
        task: 2,
        act: Act::Work,
    },
    Move {
        task: 4,
        act: Act::Work,
    },
    Move {
        task: 4,
        act: Act::Work,
    },
    Move {
        task: 4,
        act: Act::Work,
    },
    // Task 3 takes the last place, and task 0 finds none.
    Move {
        task: 3,
        act: Act::Begin,
    },
    Move {
        task: 3,
        act: Act::Read { address: 6 },
    },
    Move {
        task: 3,
        act: Act::Write {
            address: 6,
            value: 71,
        },
    },
    Move {
        task: 3,
        act: Act::Commit,
    },
    Move {
        task: 0,
        act: Act::Begin,
    },
    Move {
        task: 0,
        act: Act::Write {
            address: 3,
            value: 91,
        },
    },
    Move {
        task: 0,
        act: Act::Commit,
    },
    Move {
        task: 0,
        act: Act::Quit,
    },
    Move {
        task: 3,
        act: Act::Work,
    },
    Move {
        task: 3,
        act: Act::Work,
    },
];
