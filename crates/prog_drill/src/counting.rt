// A desk that counts the updates that are taken from it.
ghost use Rattle.std.specs.Prelude.{◌≡◌, [], IfSome};
ghost use Rattle.prog_drill.specs.Drilling.{count_by, is_update};
ghost use Rattle.prog_drill.specs.Drives.{Counted};

use desk_api::{
    Channel, Desk, Done, Moment, NoMemory, PutAnswer, PvType, PvValue, RecRow, Sub, SubAnswer,
    Update,
};
use desk_core::SoloDesk;
use pva_outside::MemoryPort;
use pvd_type::{BitSet, Name};
use std::alloc::Global;

/// A desk of records without ports, and how many updates its calls handed out.
#[derive(Drop)]
pub(crate) struct Counting {
    pub(crate) desk: SoloDesk<MemoryPort>,
    updates: u64,
    /// They are the updates of the marks, unless the count stands at its greatest.
    ghost counted: { Counted updates (count_by is_update desk.log.log) },
}

impl Counting {
    /// Counts from the first call of the desk on.
    pub(crate) fn new(desk: SoloDesk<MemoryPort>) -> Counting
        requires { desk.log.log ≡ [] }
        ensures { result.desk ≡ desk }
    {
        Counting { desk, updates: 0 }
    }

    /// How many updates were handed out. None where they are too many to be counted.
    pub(crate) fn updates(&self) -> Option<u64>
        ensures { IfSome result (λ n. n ≡ count_by is_update self.now.desk.log.log) }
    {
        if self.updates == u64::MAX {
            return None;
        }
        Some(self.updates)
    }
}

impl Desk for Counting {
    ghost seat = { λ counting. counting.desk.log };

    fn has_legal_history(&self) {
        self.desk.has_legal_history();
    }

    fn find(&self, name: &str) -> Option<Channel> {
        self.desk.find(name)
    }

    fn type_of(&self, channel: Channel) -> Option<&PvType> {
        self.desk.type_of(channel)
    }

    fn records(&self) -> usize {
        self.desk.records()
    }

    fn groups(&self) -> usize {
        self.desk.groups()
    }

    fn names(&self, alloc: Global) -> Result<Vec<Name>, NoMemory> {
        self.desk.names(alloc)
    }

    fn get(
        &mut self,
        alloc: Global,
        channel: Channel,
        atomic: Option<bool>,
    ) -> Result<PvValue, NoMemory> {
        self.desk.get(alloc, channel, atomic)
    }

    fn put(
        &mut self,
        alloc: Global,
        channel: Channel,
        mask: &BitSet,
        value: &PvValue,
        moment: Moment,
        atomic: Option<bool>,
    ) -> Result<Done, PutAnswer> {
        self.desk.put(alloc, channel, mask, value, moment, atomic)
    }

    fn put_get(
        &mut self,
        alloc: Global,
        channel: Channel,
        mask: &BitSet,
        value: &PvValue,
        moment: Moment,
        atomic: Option<bool>,
    ) -> Result<(Done, PvValue), PutAnswer> {
        self.desk
            .put_get(alloc, channel, mask, value, moment, atomic)
    }

    fn snapshot(&mut self, alloc: Global) -> Result<Vec<RecRow>, NoMemory> {
        self.desk.snapshot(alloc)
    }

    fn subscribe(
        &mut self,
        alloc: Global,
        channel: Channel,
        mask: &BitSet,
        size: u32,
    ) -> Result<Sub, SubAnswer> {
        self.desk.subscribe(alloc, channel, mask, size)
    }

    fn pop(&mut self, sub: &Sub) -> Option<Update> {
        let update = self.desk.pop(sub);
        if update.is_some() {
            self.updates = self.updates.saturating_add(1);
        }
        update
    }

    fn unsubscribe(&mut self, sub: Sub) {
        self.desk.unsubscribe(sub);
    }
}
