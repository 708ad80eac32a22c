// What a line of a schedule text asks for.

// What a cell of the memory holds: a word, or a word with its quality.
#[derive(Clone, Copy, Debug, PartialEq, Eq)]
pub enum Area {
    Words,
    Tags,
}

// The numbers of a memory and its engine: how long the ring is, how many tasks there are, how long a log is, the last place, and how many cells there are.
// Not the engine's `Settings`, since the text of schedules stands without the engine.
#[derive(Clone, Copy, Debug, PartialEq, Eq)]
pub struct Making {
    pub slots: u32,
    pub tasks: u32,
    pub pairs: u32,
    pub last: u32,
    pub cells: u32,
}

#[derive(Clone, Copy, Debug, PartialEq, Eq)]
pub enum Command {
    Make {
        area: Area,
        making: Making,
    },
    Begin {
        task: u32,
    },
    Read {
        task: u32,
        address: u32,
    },
    Write {
        task: u32,
        address: u32,
        value: u32,
        // Where the memory has tags.
        quality: Option<u8>,
    },
    Commit {
        task: u32,
    },
    Work {
        task: u32,
    },
    Quit {
        task: u32,
    },
}
