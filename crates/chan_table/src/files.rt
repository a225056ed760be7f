ghost use Rattle.std.specs.Prelude.{◌≡◌, ◌<◌, ◌≤◌, [], None, Some, IfOk, OnOk, IsSome, vec_len, vec_capacity};
ghost use Rattle.std.specs.FinMap as map;
ghost use Rattle.chan_table.specs.declared.ask.Ask.{Ask as AskOf};
ghost use Rattle.chan_table.specs.Filing.{IsFiled};
ghost use Rattle.chan_table.specs.Tables.{sid_at, IsFirstOn};

use crate::ask::Ask;
use crate::directory::Directory;
use crate::index::Index;
use pvd_type::NoMemory;
use std::alloc::Global;

/// The requests by their channels: what a request is filed under is its sid and its id.
///
/// Who is lent a request may write another sid. So it is remembered which was lent last, and it is filed again where
/// its sid has changed before anything is looked up or changed here.
#[derive(Drop)]
pub(crate) struct Files {
    pub(crate) by_channel: Index<(u32, u32), ()>,
    // under what the request that was lent last is filed
    pub(crate) lent: Option<(u32, u32)>,
}

impl Files {
    /// No requests. It takes no memory yet.
    pub(crate) fn new(alloc: Global) -> Result<Files, NoMemory>
        ensures empty { IfOk result (λ f. f.by_channel.entries.items ≡ []) }
        ensures lent { IfOk result (λ f. f.lent ≡ None) }
    {
        let by_channel = Index::with_capacity(alloc, 0)?;
        Ok(Files {
            by_channel,
            lent: None,
        })
    }

    /// Makes room for one request more.
    pub(crate) fn reserve(&mut self) -> Result<(), NoMemory>
        ensures entries { self.new.by_channel.entries.items ≡ self.old.by_channel.entries.items }
        ensures lent { self.new.lent ≡ self.old.lent }
        ensures room { OnOk result (vec_len self.new.by_channel.entries < vec_capacity self.new.by_channel.entries) }
        ensures capacity { vec_capacity self.old.by_channel.entries ≤ vec_capacity self.new.by_channel.entries }
    {
        self.by_channel.reserve()?;
        Ok(())
    }

    /// Files the request that was lent last under its present sid.
    fn settle<S>(&mut self, asks: &Directory<Ask<S>>)
        requires { IsFiled self.old.by_channel.entries.items self.old.lent asks.now.values }
        ensures filed { IsFiled self.new.by_channel.entries.items None asks.now.values }
        ensures lent { self.new.lent ≡ None }
        ensures capacity { vec_capacity self.new.by_channel.entries ≡ vec_capacity self.old.by_channel.entries }
    {
        let Some(filed) = self.lent.take() else {
            return;
        };
        let Some(ask) = asks.get(filed.1) else {
            return;
        };
        if ask.sid == filed.0 {
            return;
        }
        self.by_channel.remove(filed);
        self.by_channel.insert((ask.sid, filed.1), ());
    }

    /// Files a request that is about to be put in. There is room for it.
    pub(crate) fn file<S>(&mut self, asks: &Directory<Ask<S>>, sid: u32, id: u32)
        requires filed { IsFiled self.old.by_channel.entries.items self.old.lent asks.now.values }
        requires absent { map.get asks.now.values id ≡ None }
        requires room { map.len asks.now.values < vec_capacity self.old.by_channel.entries }
        ensures filed { (ask : AskOf S) → ask.sid ≡ sid →
            IsFiled self.new.by_channel.entries.items self.new.lent (map.insert asks.now.values id ask) }
        ensures capacity { vec_capacity self.new.by_channel.entries ≡ vec_capacity self.old.by_channel.entries }
    {
        self.settle(asks);
        self.by_channel.insert((sid, id), ());
    }

    /// Takes out what a request is filed under that is about to be taken out, if it is there.
    pub(crate) fn unfile<S>(&mut self, asks: &Directory<Ask<S>>, id: u32)
        requires { IsFiled self.old.by_channel.entries.items self.old.lent asks.now.values }
        ensures filed { IsFiled self.new.by_channel.entries.items self.new.lent (map.remove asks.now.values id) }
        ensures capacity { vec_capacity self.new.by_channel.entries ≡ vec_capacity self.old.by_channel.entries }
    {
        self.settle(asks);
        let Some(ask) = asks.get(id) else {
            return;
        };
        self.by_channel.remove((ask.sid, id));
    }

    /// Remembers that a request is lent.
    pub(crate) fn lend<S>(&mut self, asks: &Directory<Ask<S>>, id: u32)
        requires filed { IsFiled self.old.by_channel.entries.items self.old.lent asks.now.values }
        requires there { IsSome (map.get asks.now.values id) }
        ensures filed { (ask : AskOf S) →
            IsFiled self.new.by_channel.entries.items self.new.lent (map.insert asks.now.values id ask) }
        ensures capacity { vec_capacity self.new.by_channel.entries ≡ vec_capacity self.old.by_channel.entries }
    {
        self.settle(asks);
        let Some(ask) = asks.get(id) else {
            return;
        };
        self.lent = Some((ask.sid, id));
    }

    /// The least id of the requests on a channel.
    pub(crate) fn first_on<S>(&mut self, asks: &Directory<Ask<S>>, sid: u32) -> Option<u32>
        requires { IsFiled self.old.by_channel.entries.items self.old.lent asks.now.values }
        ensures first { IsFirstOn (sid_at asks.now.values) sid result }
        ensures filed { IsFiled self.new.by_channel.entries.items self.new.lent asks.now.values }
        ensures capacity { vec_capacity self.new.by_channel.entries ≡ vec_capacity self.old.by_channel.entries }
    {
        self.settle(asks);
        let Some(entry) = self.by_channel.first_from((sid, 0)) else {
            return None;
        };
        let (at, id) = entry.0;
        if at == sid { Some(id) } else { None }
    }
}
