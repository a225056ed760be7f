// A desk on a pass of a hall of records.
ghost use Rattle.std.proofs.Props.{props};
ghost use Rattle.std.specs.Prelude.{◌≡◌, [], IfErr, IfOk, IsSomeAnd, Some, is_some, length, option_map};
ghost use Rattle.histories.specs.History.{Begins, deeds_by};
ghost use Rattle.journal_core.proofs.Facts.{are_legal_prop};
ghost use Rattle.pvd_type.specs.contracts.set.BitSet as bits;
ghost use Rattle.pvd_value.specs.contracts.value.PvValue as values;
ghost use Rattle.desk_api.specs.Calls.{Adds, first_seat};
ghost use Rattle.desk_api.specs.History.{IsLegal, commits};
ghost use Rattle.desk_core.specs.Ports.{ports_there, ports_wanted};
ghost use Rattle.desk_shared.specs.Desks.{IsFurnished, first_history, shown_of};
ghost use Rattle.desk_shared.specs.Records.{seat_of};

use crate::home::Home;
use crate::lent::LentPort;
use crate::looking::{get_in, snapshot_in};
use crate::putting::{put_get_in, put_in};
use crate::records::Records;
use crate::subscribing::{pop_in, subscribe_in, unsubscribe_in};
use crate::visiting::catch_up;
use desk_api::{
    Base, Channel, Desk, Done, Mark, Moment, NoMemory, PutAnswer, PvType, PvValue, RecRow, Site,
    Sub, SubAnswer, Update,
};
use desk_core::{Cells, Port, names_and_configs, opening_of};
use hall_core::Law;
use hall_locks::{Hall, Pass};
use journal_core::Entry;
use mon_shown::RollItem;
use pvd_type::{BitSet, Name};
use std::alloc::Global;
use std::marker::PhantomData;
use std::sync::Wait;

/// A desk on a pass of a hall, which other desks share: `T` is `Records<P>`. Its calls but `find`, `type_of`, `records`, `groups` and
/// `names` may wait.
#[derive(Drop)]
pub struct SharedDesk<
    'a,
    R: Wait,
    P: Port + Drop,
    T: Law<Base = Base, Entry = Entry, Mark = Mark, RollItem = RollItem<Channel>>,
    K: Home,
> {
    rt: &'a R,
    alloc: Global,
    hall: &'a Hall<T>,
    site: &'a Site,
    /// Of each record its opening state, and a place for its port. Those of the records that a call has in hand stand here meanwhile.
    cells: Cells<LentPort<P>>,
    /// Its pass, which is away only within a call.
    pub pass: Option<Pass<T>>,
    home: PhantomData<K>,
    /// The hall and the site are those that the type names.
    ghost hall_is: { hall.now.table.shared.table_id ≡ K.table },
    ghost site_is: { site.now ≡ K.base.site } by { Prim.hlevel (props, bits.the_row.coded) },
    ghost furnished: { IsFurnished hall.now.count site.now cells.states.items (ports_there cells.ports.items) } by { Prim.hlevel (props, bits.the_row.coded) },
    /// The pass is of this hall, the history that it has seen begins with this site and is legal, and it took in these logs.
    ghost own: { option_map (λ p. p.seat.table_id) pass ≡ Some K.table },
    ghost based: { option_map (λ p. p.seat.me.0.seen.base) pass ≡ Some K.base } by { Prim.hlevel (props, bits.the_row.coded) },
    ghost keeps: { option_map (λ p. p.seat.me.0.others) pass ≡ Some K.others } by { Prim.hlevel (props, bits.the_row.coded, values.the_row.coded) },
    ghost legal: { IsLegal (shown_of pass (first_history K.base) (λ p. p.seat.me.0.seen)) } by { are_legal_prop (shown_of pass (first_history K.base) (λ p. p.seat.me.0.seen)).base.site.configs (shown_of pass (first_history K.base) (λ p. p.seat.me.0.seen)).base.site.opening (commits (shown_of pass (first_history K.base) (λ p. p.seat.me.0.seen))) },
}

/// A place for a port, if it is wanted.
fn place_if<P>(wanted: bool) -> Option<LentPort<P>>
    ensures { is_some result ≡ wanted }
{
    if wanted { Some(LentPort::Away) } else { None }
}

/// A place for the port of each record that is to have one.
fn places_of<P: Drop>(alloc: Global, site: &Site) -> Result<Vec<Option<LentPort<P>>>, NoMemory>
    ensures { IfOk result (λ ports. ports_there ports.items ≡ ports_wanted site.now.configs) }
{
    let count = site.records();
    let mut ports = Vec::with_capacity(alloc, count)?;
    for rec in 0..count {
        ports.push(place_if(site.port(rec).is_some()))?;
    }
    Ok(ports)
}

impl<'a, R: Wait, P: Port + Drop, K: Home> SharedDesk<'a, R, P, Records<P>, K> {
    /// A desk on this pass of this hall, which was opened for this site. It sees the history to its present end, for which it may wait.
    /// It copies the opening states: its calls then need no other record than those that they have in hand. Without memory for that the
    /// pass comes back as it was.
    pub fn new(
        rt: &'a R,
        alloc: Global,
        hall: &'a Hall<Records<P>>,
        site: &'a Site,
        pass: Pass<Records<P>>,
    ) -> Result<SharedDesk<'a, R, P, Records<P>, K>, (Pass<Records<P>>, NoMemory)>
        requires hall { hall.now.table.shared.table_id ≡ K.table }
        requires site { site.now ≡ K.base.site }
        requires count { hall.now.count ≡ length site.now.names }
        requires own { pass.seat.table_id ≡ hall.now.table.shared.table_id }
        requires base { pass.seat.me.0.seen.base ≡ K.base }
        requires others { pass.seat.me.0.others ≡ K.others }
        ensures desk { IfOk result (λ desk. IsSomeAnd desk.pass (λ p. Adds (seat_of pass.seat.me.0) (seat_of p.seat.me.0) [])) }
        ensures back { IfErr result (λ e. e.0 ≡ pass) }
    {
        names_and_configs(site);
        let Ok(states) = opening_of(alloc, site) else {
            return Err((pass, NoMemory));
        };
        let Ok(ports) = places_of(alloc, site) else {
            return Err((pass, NoMemory));
        };
        let pass = catch_up(rt, alloc, hall, pass);
        Ok(SharedDesk {
            rt,
            alloc,
            hall,
            site,
            cells: Cells {
                states,
                ports,
                before: Vec::new(alloc),
            },
            pass: Some(pass),
            home: PhantomData,
        })
    }

    /// Its pass.
    pub fn into_pass(self) -> Pass<Records<P>>
        ensures pass { self.entry.pass ≡ Some result }
        ensures own { result.seat.table_id ≡ K.table }
        ensures base { result.seat.me.0.seen.base ≡ K.base }
        ensures others { result.seat.me.0.others ≡ K.others }
    {
        let SharedDesk { pass, .. } = self;
        let Some(pass) = pass else { unreachable!() };
        pass
    }

    /// What the other desk has seen begins what this one has seen then, which has nothing more of this one's own. Both keep what they had.
    /// It may wait.
    pub fn meet<L: Home>(&mut self, other: &mut SharedDesk<'a, R, P, Records<P>, L>)
        requires { L.table ≡ K.table }
        ensures one { Begins (shown_of other.new.pass (first_seat L.base) (λ p. seat_of p.seat.me.0)).seen (shown_of self.new.pass (first_seat K.base) (λ p. seat_of p.seat.me.0)).seen }
        ensures number { (shown_of self.new.pass (first_seat K.base) (λ p. seat_of p.seat.me.0)).number ≡ (shown_of self.old.pass (first_seat K.base) (λ p. seat_of p.seat.me.0)).number }
        ensures log { (shown_of self.new.pass (first_seat K.base) (λ p. seat_of p.seat.me.0)).log ≡ (shown_of self.old.pass (first_seat K.base) (λ p. seat_of p.seat.me.0)).log }
        ensures goes_on { Begins (shown_of self.old.pass (first_seat K.base) (λ p. seat_of p.seat.me.0)).seen (shown_of self.new.pass (first_seat K.base) (λ p. seat_of p.seat.me.0)).seen }
        ensures did { deeds_by (shown_of self.old.pass (first_seat K.base) (λ p. seat_of p.seat.me.0)).number (shown_of self.new.pass (first_seat K.base) (λ p. seat_of p.seat.me.0)).seen.deeds ≡ deeds_by (shown_of self.old.pass (first_seat K.base) (λ p. seat_of p.seat.me.0)).number (shown_of self.old.pass (first_seat K.base) (λ p. seat_of p.seat.me.0)).seen.deeds }
        ensures kept { shown_of other.new.pass (first_seat L.base) (λ p. seat_of p.seat.me.0) ≡ shown_of other.old.pass (first_seat L.base) (λ p. seat_of p.seat.me.0) }
    {
        let (Some(mut mine), Some(mut theirs)) = (self.pass.take(), other.pass.take()) else {
            unreachable!()
        };
        let Ok(()) = self.hall.meet(&mut mine, &mut theirs) else {
            unreachable!()
        };
        self.pass = Some(catch_up(self.rt, self.alloc, self.hall, mine));
        other.pass = Some(theirs);
    }
}

impl<'a, R: Wait, P: Port + Drop, K: Home> Desk for SharedDesk<'a, R, P, Records<P>, K> {
    ghost use Rattle.desk_api.specs.Calls.{first_seat};
    ghost use Rattle.desk_shared.specs.Desks.{shown_of};
    ghost use Rattle.desk_shared.specs.Records.{seat_of};

    ghost seat = { λ desk. shown_of desk.pass (first_seat K.base) (λ p. seat_of p.seat.me.0) };

    fn has_legal_history(&self) {}

    fn find(&self, name: &str) -> Option<Channel> {
        self.site.find(name)
    }

    fn type_of(&self, channel: Channel) -> Option<&PvType> {
        self.site.type_of(channel)
    }

    fn records(&self) -> usize {
        self.site.records()
    }

    fn groups(&self) -> usize {
        self.site.groups()
    }

    fn names(&self, alloc: Global) -> Result<Vec<Name>, NoMemory> {
        self.site.names(alloc)
    }

    fn get(
        &mut self,
        alloc: Global,
        channel: Channel,
        atomic: Option<bool>,
    ) -> Result<PvValue, NoMemory> {
        let Some(pass) = self.pass.take() else {
            unreachable!()
        };
        let cells = &mut self.cells;
        let (pass, answer) = get_in(
            self.rt, alloc, self.hall, self.site, cells, pass, channel, atomic,
        );
        self.pass = Some(pass);
        answer
    }

    fn put(
        &mut self,
        alloc: Global,
        channel: Channel,
        mask: &BitSet,
        value: &PvValue,
        moment: Moment,
        atomic: Option<bool>,
    ) -> Result<Done, PutAnswer> {
        let Some(pass) = self.pass.take() else {
            unreachable!()
        };
        let (pass, answer) = put_in(
            self.rt,
            alloc,
            self.hall,
            self.site,
            &mut self.cells,
            pass,
            channel,
            mask,
            value,
            moment,
            atomic,
        );
        self.pass = Some(pass);
        answer
    }

    fn put_get(
        &mut self,
        alloc: Global,
        channel: Channel,
        mask: &BitSet,
        value: &PvValue,
        moment: Moment,
        atomic: Option<bool>,
    ) -> Result<(Done, PvValue), PutAnswer> {
        let Some(pass) = self.pass.take() else {
            unreachable!()
        };
        let (pass, answer) = put_get_in(
            self.rt,
            alloc,
            self.hall,
            self.site,
            &mut self.cells,
            pass,
            channel,
            mask,
            value,
            moment,
            atomic,
        );
        self.pass = Some(pass);
        answer
    }

    fn snapshot(&mut self, alloc: Global) -> Result<Vec<RecRow>, NoMemory> {
        let Some(pass) = self.pass.take() else {
            unreachable!()
        };
        let cells = &mut self.cells;
        let (pass, answer) = snapshot_in(self.rt, alloc, self.hall, self.site, cells, pass);
        self.pass = Some(pass);
        answer
    }

    fn subscribe(
        &mut self,
        alloc: Global,
        channel: Channel,
        mask: &BitSet,
        size: u32,
    ) -> Result<Sub, SubAnswer> {
        let Some(pass) = self.pass.take() else {
            unreachable!()
        };
        let (pass, answer) = subscribe_in(
            self.rt,
            alloc,
            self.hall,
            self.site,
            &mut self.cells,
            pass,
            channel,
            mask,
            size,
        );
        self.pass = Some(pass);
        answer
    }

    fn pop(&mut self, sub: &Sub) -> Option<Update> {
        let Some(pass) = self.pass.take() else {
            unreachable!()
        };
        let (pass, answer) = pop_in(self.rt, self.alloc, self.hall, pass, sub.slot);
        self.pass = Some(pass);
        answer
    }

    fn unsubscribe(&mut self, sub: Sub) {
        let Some(pass) = self.pass.take() else {
            unreachable!()
        };
        let (rt, alloc, hall) = (self.rt, self.alloc, self.hall);
        self.pass = Some(unsubscribe_in(rt, alloc, hall, self.site, pass, sub.slot));
    }
}
