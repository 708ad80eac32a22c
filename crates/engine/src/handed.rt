// What a call is handed, to look at, and the checks that all calls of a task share, in the order of their refusals.
ghost use Rattle.std.specs.Prelude.{◌≡◌, ◌*◌, ◌<◌, ◌≤◌, MatchBool};
ghost use Rattle.rules.specs.Admission.{Admits, Addresses};
ghost use Rattle.rules.specs.Logs.{Searched};
ghost use Rattle.rules.specs.State.{Fits};
ghost use Rattle.rules.specs.Torn.{LogRules, PhaseRules};
ghost use Rattle.engine.specs.View.{seen};

use crate::engine::Engine;
use crate::log::find;
use cells::memory::Memory;
use cells::refusal::Refusal;
use filters::filter::Filter;
use rules::ring::Entry;
use rules::table::{CallKind, Phase, TaskRecord, allowed};
use walks::ring::unfinished;

// The engine's numbers, the memory, and the four arrays.
#[derive(Drop)]
pub(crate) struct Handed<'h, M, F, C> {
    pub(crate) engine: &'h Engine,
    pub(crate) memory: &'h M,
    pub(crate) ring: &'h [Entry<F>],
    pub(crate) table: &'h [TaskRecord<F>],
    pub(crate) addresses: &'h [u32],
    pub(crate) cells: &'h [C],
}

impl<M: Memory<Cell = C>, F: Filter, C: Copy> Handed<'_, M, F, C> {
    // Whether the memory and the arrays have the lengths that the engine's record says.
    pub(crate) fn fits(&self) -> bool
        ensures { MatchBool result (Fits (seen M.contents self.now)) (Fits (seen M.contents self.now) → ⊥) }
    {
        let logs = self.engine.settings.tasks as usize * self.engine.settings.pairs as usize;
        self.ring.len() == self.engine.settings.slots as usize
            && self.table.len() == self.engine.settings.tasks as usize
            && self.addresses.len() == logs
            && self.cells.len() == logs
            && self.memory.size() == self.engine.size as usize
    }

    // The refusals of lengths, task number and address.
    fn addressed(&self, task: u32, address: Option<u32>) -> Result<(), Refusal>
        ensures { Addresses (seen M.contents self.now) task address result }
    {
        if !self.fits() {
            return Err(Refusal::ArrayLength);
        }
        if task >= self.engine.settings.tasks {
            return Err(Refusal::TaskNumber);
        }
        match address {
            Some(address) if address >= self.engine.size => Err(Refusal::Address),
            _ => Ok(()),
        }
    }

    // Whether the record keeps the rules that Open and Committed records share.
    fn log_rules(&self, task: u32, record: &TaskRecord<F>) -> bool
        requires fits { Fits (seen M.contents self.now) }
        requires known { task < self.now.engine.now.settings.tasks }
        ensures { MatchBool result (LogRules self.now.engine.now.settings.pairs self.now.engine.now.size self.now.engine.now.index self.now.addresses.now (task * self.now.engine.now.settings.pairs) «record».now) (LogRules self.now.engine.now.settings.pairs self.now.engine.now.size self.now.engine.now.index self.now.addresses.now (task * self.now.engine.now.settings.pairs) «record».now → ⊥) }
    {
        if record.logged > self.engine.settings.pairs
            || record.written > record.logged
            || record.start > self.engine.index
        {
            return false;
        }
        let base = self.engine.log_base(task);
        let end = base + record.logged as usize;
        self.addresses[base..end]
            .iter()
            .all(|address| *address < self.engine.size)
    }

    // Whether the record is whole. A torn one is Open or Committed and breaks a rule of its phase.
    pub(crate) fn whole(&self, task: u32, record: &TaskRecord<F>) -> bool
        requires fits { Fits (seen M.contents self.now) }
        requires known { task < self.now.engine.now.settings.tasks }
        ensures { MatchBool result (PhaseRules self.now.engine.now.settings.pairs self.now.engine.now.size self.now.engine.now.index self.now.engine.now.settings.slots self.now.ring.now self.now.addresses.now (task * self.now.engine.now.settings.pairs) «record».now «record».now.phase) (PhaseRules self.now.engine.now.settings.pairs self.now.engine.now.size self.now.engine.now.index self.now.engine.now.settings.slots self.now.ring.now self.now.addresses.now (task * self.now.engine.now.settings.pairs) «record».now «record».now.phase → ⊥) }
    {
        match record.phase {
            Phase::Idle => true,
            Phase::Open => self.log_rules(task, record) && record.place == 0 && record.written == 0,
            Phase::Committed => {
                self.log_rules(task, record)
                    && record.logged >= 1
                    && record.start < record.place
                    && record.place <= self.engine.index
                    && unfinished(self.ring, record.place)
            }
        }
    }

    // The first of the task's logged pairs with the address: its position in the log and its cell.
    pub(crate) fn lookup(&self, task: u32, logged: u32, address: u32) -> Option<(usize, C)>
        requires fits { Fits (seen M.contents self.now) }
        requires known { task < self.now.engine.now.settings.tasks }
        requires short { logged ≤ self.now.engine.now.settings.pairs }
        ensures { Searched self.now.addresses.now self.now.cells.now (task * self.now.engine.now.settings.pairs) logged address result }
    {
        let base = self.engine.log_base(task);
        let end = base + logged as usize;
        find(&self.addresses[base..end], &self.cells[base..end], address)
    }

    // The caller's record, where none of the shared checks refuses.
    pub(crate) fn admit(
        &self,
        task: u32,
        call: CallKind,
        address: Option<u32>,
    ) -> Result<TaskRecord<F>, Refusal>
        ensures { Admits (seen M.contents self.now) task call address result }
    {
        self.addressed(task, address)?;
        let record = &self.table[task as usize];
        if !self.whole(task, record) {
            return Err(Refusal::Torn);
        }
        if !allowed(record.phase, call) {
            return Err(Refusal::PhaseForbids);
        }
        Ok(*record)
    }
}
