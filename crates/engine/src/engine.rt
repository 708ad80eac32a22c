// The engine's record, and what its making is asked for.
ghost use Rattle.std.specs.Prelude.{◌≡◌, ◌≤◌, ◌*◌};

mod begin;
mod commit;
mod make;
mod outstanding;
mod quit;
mod read;
mod work;
mod write;

// What making is asked for.
#[derive(Clone, Copy, PartialEq, Eq, Debug)]
pub struct Settings {
    // The ring's length: 2 to 1,024 slots.
    pub slots: u32,
    // How many tasks there are: 1 to 64.
    pub tasks: u32,
    // The log length: 1 to 256 pairs of address and cell for each task.
    pub pairs: u32,
    // The last place that a writer may take: 1 to 4,294,967,295.
    pub last: u32,
}

// The numbers of one engine. No such record holds a number outside its limits or an index above the last place.
#[derive(Drop)]
pub struct Engine {
    pub(crate) settings: Settings,
    // How many cells the memory has.
    pub(crate) size: u32,
    // How many writers have committed.
    pub(crate) index: u32,
    ghost ring_limits: { (2 ≤ settings.slots) × (settings.slots ≤ 1024) },
    ghost task_limits: { (1 ≤ settings.tasks) × (settings.tasks ≤ 64) },
    ghost log_limits: { (1 ≤ settings.pairs) × (settings.pairs ≤ 256) },
    ghost last_limit: { 1 ≤ settings.last },
    ghost size_limit: { size ≤ 65536 },
    ghost index_limit: { index ≤ settings.last },
}

impl Engine {
    // Where task `task`'s log begins in the log arrays.
    pub(crate) fn log_base(&self, task: u32) -> usize
        ensures { result ≡ task * self.now.settings.pairs }
    {
        task as usize * self.settings.pairs as usize
    }
}
