// A desk that nobody shares.
ghost use Rattle.std.proofs.Props.{props};
ghost use Rattle.std.specs.Prelude.{◌≡◌, ◌<◌, ◌≤◌, [], ◌∷◌, false, length, map, option_map, slice_get, Some, true, IfOk, IfSome, IsTrue, OnOk};
ghost use Rattle.std.specs.List.{AllByRecursion};
ghost use Rattle.desk_api.specs.History.{IsLegal, commits};
ghost use Rattle.desk_api.specs.Calls.{first_seat, Calls, OnTold, EndsAtItsMarks};
ghost use Rattle.desk_core.specs.Ports.{ports_there, ports_wanted};
ghost use Rattle.desk_core.specs.Standing.{Stands, answer_of, base_of};
ghost use Rattle.desk_core.specs.Subscribing.{IsNotBegunNow};
ghost use Rattle.desk_hub.proofs.Props.{seat_prop};
ghost use Rattle.desk_hub.specs.Seats.{KeepsSeat};
ghost use Rattle.group_view.specs.Puts.{MayBeDoneBy};
ghost use Rattle.journal_core.proofs.Facts.{are_legal_prop, are_valid_prop};
ghost use Rattle.journal_core.specs.Legality.{AreValid};
ghost use Rattle.pvd_type.specs.contracts.set.BitSet as bits;
ghost use Rattle.pvd_value.specs.Fits.{fits_of};
ghost use Rattle.pvd_value.specs.View.{view};

use crate::cells::{Cells, groups_over_records, names_and_configs, opening_of};
use crate::driving::discard;
use crate::entering::enter;
use crate::log::{Log, Terms, note_begun, note_crowded, note_dropped, note_popped};
use crate::looks::note_looks;
use desk_api::{
    Action, Channel, ChannelKind, Desk, Done, FieldAnswer, Moment, NoMemory, PutAnswer, PvType,
    PvValue, RecRow, RecState, Site, Sub, SubAnswer, Update, entries_write_inside,
    looks_show_states,
};
use desk_hub::{
    NotBegun, Subscriptions, a_new_desk_keeps, begin, end, logs_tell_slots, marks_keep, pop, ready,
};
use journal_core::History;
use pva_outside::Port;
use pvd_type::{BitSet, Name};
use std::alloc::Global;
use std::marker::Brand;

/// The desk of a site that nobody else reads or writes, with the ports of its records and its subscriptions. No call of it waits.
#[derive(Drop)]
pub struct SoloDesk<P> {
    terms: Terms,
    history: History,
    cells: Cells<P>,
    /// The living subscriptions.
    subs: Subscriptions<Channel>,
    /// Its seat, which takes no bytes: the history and the marks of its calls.
    pub log: Log,
    /// The history is the one that the desk keeps, the cells are its last states, and every entry is the desk's own.
    pub ghost stands: { Stands (base_of terms) cells.states.items history log } by { Prim.hlevel (props, bits.the_row.coded) },
    /// The history is legal.
    ghost legal: { IsLegal log.seen } by { are_legal_prop log.seen.base.site.configs log.seen.base.site.opening (commits log.seen) },
    /// Each record is in a state that is valid for it.
    ghost valid: { AreValid terms.site.configs cells.states.items } by { are_valid_prop terms.site.configs cells.states.items },
    /// A record has a port exactly where its configuration says so.
    ghost ported: { ports_there cells.ports.items ≡ ports_wanted terms.site.configs },
    /// The subscriptions are those that the log tells, each with what it is shown and what it has unread.
    ghost keeps: { KeepsSeat log.seen subs log.number log.log } by { seat_prop log.seen subs log.number log.log },
}

/// Why a put isn't done that gives no action.
pub fn not_done(answer: FieldAnswer) -> PutAnswer
    ensures { result ≡ answer_of answer }
{
    match answer {
        FieldAnswer::Refused(refusal) => PutAnswer::Refused(refusal),
        FieldAnswer::NoMemory => PutAnswer::NoMemory { done: 0 },
    }
}

impl<P: Port + Drop> SoloDesk<P> {
    ghost use Rattle.desk_core.specs.Desks.{ports_of};

    /// A desk of this site, with a port for each record whose configuration says that it has one, each at its record's place
    /// (EPICS record reference, "DTYP", "OUT"). The entries may weigh no more than the limit together. The history is the
    /// site's opening states with no entry, no subscription lives, and the log is empty. No port is driven.
    pub fn new(
        alloc: Global,
        site: Site,
        ports: Vec<Option<P>>,
        limit: u64,
    ) -> Result<SoloDesk<P>, NoMemory>
        requires { ports_there ports.items ≡ ports_wanted site.configs }
        ensures seat { IfOk result (λ desk. desk.log ≡ first_seat (record { site = site; limit = limit })) }
        ensures ports { IfOk result (λ desk. ports_of P.port desk ≡ map (option_map P.port) ports.items) }
    {
        let states = opening_of(alloc, &site)?;
        let history = History::new(alloc, opening_of(alloc, &site)?);
        let terms = Terms { site, limit };
        let subs = Subscriptions::new(alloc);
        a_new_desk_keeps();
        match Log::new(alloc, &terms) {
            Ok(log) => Ok(SoloDesk {
                terms,
                history,
                cells: Cells {
                    states,
                    ports,
                    before: Vec::new(alloc),
                },
                subs,
                log,
            }),
            Err(no_memory) => Err(no_memory),
        }
    }
}

impl<P> SoloDesk<P> {
    ghost use Rattle.desk_api.specs.Calls.{now};
    ghost use Rattle.desk_api.specs.History.{state_at};

    /// How many entries the history has.
    pub fn entries(&self) -> u64
        ensures { result ≡ now self.now.log }
    {
        self.history.len()
    }

    /// The states of all records behind them, by the records' numbers.
    pub fn states(&self) -> &[RecState]
        ensures { result.now ≡ state_at self.now.log.seen (now self.now.log) }
    {
        self.cells.states.as_slice()
    }
}

impl<P: Port> SoloDesk<P> {
    ghost use Rattle.desk_core.specs.Desks.{ports_of};

    /// The port of a record, by the record's number; None where it has none.
    pub fn port(&self, rec: usize) -> Option<&P>
        requires { rec < length self.now.log.seen.base.site.names }
        ensures { Some (option_map (λ p. P.port p.now) result) ≡ slice_get (ports_of P.port self.now) rec }
    {
        names_and_configs(&self.terms.site);
        self.cells.ports[rec].as_ref()
    }
}

/// The list of one action.
pub fn one_action(alloc: Global, action: (u32, Action)) -> Result<Vec<(u32, Action)>, NoMemory>
    ensures { IfOk result (λ actions. actions.items ≡ action ∷ []) }
{
    Ok(vec![in alloc; action]?)
}

impl<P: Port> SoloDesk<P> {
    ghost use Rattle.desk_core.specs.Begun.{ArePutInTurn, IsPutNow};
    ghost use Rattle.desk_core.specs.Desks.{ports_of};
    ghost use Rattle.desk_api.specs.Puts.{entries_by};

    /// Adds the entry of these actions behind so many others of its put, and tells its place. All of its memory, and that of what it
    /// posts, is taken before.
    fn put_entry(
        &mut self,
        alloc: Global,
        actions: Vec<(u32, Action)>,
        moment: Moment,
        done: u32,
    ) -> Result<u64, PutAnswer>
        requires within { AllByRecursion (λ a. a.0 < length self.old.terms.site.configs) actions.items }
        requires may { AllByRecursion (MayBeDoneBy self.old.terms.site.configs) actions.items }
        requires few { length actions.items ≤ 256 }
        ensures put { IsPutNow self.old.terms.site moment actions.items [] [] done self.old.log self.new.log (ports_of P.port self.old) (ports_of P.port self.new) result }
        ensures terms { self.new.terms ≡ self.old.terms }
    {
        entries_write_inside();
        marks_keep();
        let Ok(entry) = self
            .cells
            .draft(alloc, &self.terms.site, actions, &[], moment)
        else {
            return Err(PutAnswer::NoMemory { done });
        };
        let cells = self.cells.states.as_slice();
        match enter(
            alloc,
            &self.terms,
            &mut self.history,
            &mut self.log,
            &mut self.subs,
            entry,
            &[],
            cells,
            done,
        ) {
            Ok(place) => Ok(place),
            Err(answer) => {
                self.cells.restore();
                Err(answer)
            }
        }
    }

    /// Puts these actions, as one entry or as one for each, in order.
    fn put_entries(
        &mut self,
        alloc: Global,
        whole: bool,
        actions: Vec<(u32, Action)>,
        moment: Moment,
    ) -> Result<Done, PutAnswer>
        requires within { AllByRecursion (λ a. a.0 < length self.old.terms.site.configs) actions.items }
        requires may { AllByRecursion (MayBeDoneBy self.old.terms.site.configs) actions.items }
        requires few { length actions.items ≤ 256 }
        ensures put { ArePutInTurn self.old.terms.site moment (entries_by whole actions.items) self.old.log self.new.log (ports_of P.port self.old) (ports_of P.port self.new) result }
        ensures terms { self.new.terms ≡ self.old.terms }
    {
        if !whole {
            return self.put_each(alloc, actions, moment);
        }
        match self.put_entry(alloc, actions, moment, 0) {
            Ok(first) => Ok(Done { first, count: 1 }),
            Err(answer) => Err(answer),
        }
    }

    /// Puts these actions, each as an entry of its own, in order.
    fn put_each(
        &mut self,
        alloc: Global,
        actions: Vec<(u32, Action)>,
        moment: Moment,
    ) -> Result<Done, PutAnswer>
        requires within { AllByRecursion (λ a. a.0 < length self.old.terms.site.configs) actions.items }
        requires may { AllByRecursion (MayBeDoneBy self.old.terms.site.configs) actions.items }
        requires few { length actions.items ≤ 256 }
        ensures put { ArePutInTurn self.old.terms.site moment (entries_by false actions.items) self.old.log self.new.log (ports_of P.port self.old) (ports_of P.port self.new) result }
        ensures terms { self.new.terms ≡ self.old.terms }
    {
        let first = self.history.len();
        let mut count = 0;
        for action in actions {
            let Ok(actions) = one_action(alloc, action) else {
                return Err(PutAnswer::NoMemory { done: count });
            };
            match self.put_entry(alloc, actions, moment, count) {
                Ok(_) => count += 1,
                Err(answer) => return Err(answer),
            }
        }
        Ok(Done { first, count })
    }
}

/// How many subscriptions may live at a time.
pub const MOST: u32 = 1024;

/// What is answered where no subscription begins. It is noted where too many live.
fn not_begun(log: &mut Log, cause: NotBegun) -> SubAnswer
    ensures { IsNotBegunNow log.old log.new cause result }
{
    match cause {
        NotBegun::TooMany => {
            note_crowded::<Brand>(log, MOST);
            SubAnswer::TooManyMonitors(MOST)
        }
        NotBegun::NoMemory => SubAnswer::NoMemory,
    }
}

/// The service of the server.
pub const SERVICE: Channel = Channel {
    kind: ChannelKind::Service,
    number: 0,
};

impl<P: Port> SoloDesk<P> {
    ghost use Rattle.desk_api.specs.Calls.{ArePutGet};
    ghost use Rattle.desk_api.specs.Sites as sites;
    ghost use Rattle.desk_api.specs.Types as types;
    ghost use Rattle.desk_core.specs.Desks.{ports_of};
    ghost use Rattle.desk_core.specs.Ports.{DrivesPorts};
    ghost use Rattle.desk_core.specs.PutGets.{IsPutGotNow, done_of};

    /// Adds the entry of these actions, which holds the channel's records too, and tells what the channel shows right after it. All
    /// memory is taken before.
    fn put_and_show(
        &mut self,
        alloc: Global,
        channel: Channel,
        actions: Vec<(u32, Action)>,
        moment: Moment,
    ) -> Result<(Done, PvValue), PutAnswer>
        requires channel { IsTrue (sites.is_channel self.old.terms.site channel) }
        requires within { AllByRecursion (λ a. a.0 < length self.old.terms.site.configs) actions.items }
        requires may { AllByRecursion (MayBeDoneBy self.old.terms.site.configs) actions.items }
        requires few { length actions.items ≤ 256 }
        ensures put { IsPutGotNow self.old.terms.site channel moment actions.items self.old.log self.new.log (ports_of P.port self.old) (ports_of P.port self.new) result }
        ensures terms { self.new.terms ≡ self.old.terms }
    {
        entries_write_inside();
        looks_show_states();
        marks_keep();
        let terms = &self.terms;
        let site = &terms.site;
        names_and_configs(site);
        groups_over_records(site);
        let Ok(drafted) = self
            .cells
            .draft_shown(alloc, site, channel, actions, moment)
        else {
            return Err(PutAnswer::NoMemory { done: 0 });
        };
        let looked = site.footprint_of(channel);
        let cells = self.cells.states.as_slice();
        let (entry, value) = drafted;
        match enter(
            alloc,
            terms,
            &mut self.history,
            &mut self.log,
            &mut self.subs,
            entry,
            looked,
            cells,
            0,
        ) {
            Ok(first) => Ok((Done { first, count: 1 }, value)),
            Err(answer) => {
                discard(value);
                self.cells.restore();
                Err(answer)
            }
        }
    }

    /// Puts the marked leaves, and then gets the channel.
    fn put_then_get(
        &mut self,
        alloc: Global,
        channel: Channel,
        mask: &BitSet,
        value: &PvValue,
        moment: Moment,
        atomic: Option<bool>,
    ) -> Result<(Done, PvValue), PutAnswer>
        requires channel { IsTrue (sites.is_channel self.old.log.seen.base.site channel) }
        requires fits { fits_of 16 (view value.now) (types.type_of self.old.log.seen.base.site channel) ≡ true }
        requires leaves { types.HoldsLeaves (types.type_of self.old.log.seen.base.site channel) mask.now }
        requires apart { sites.is_atomic self.old.log.seen.base.site channel atomic ≡ false }
        ensures calls { Calls self.old.log self.new.log (ArePutGet (record { site = self.old.log.seen.base.site; channel = channel; mask = mask.now; value = view value.now; moment = moment; atomic = atomic }) result) }
        ensures ends { OnTold result (EndsAtItsMarks self.old.log self.new.log) }
        ensures fits { IfOk result (λ r. fits_of 16 (view r.1) (types.type_of self.old.log.seen.base.site channel) ≡ true) }
        ensures base { self.new.log.seen.base ≡ self.old.log.seen.base }
        ensures ports { DrivesPorts self.old.log self.new.log (ports_of P.port self.old) (ports_of P.port self.new) (record { site = self.old.log.seen.base.site; channel = channel; mask = mask.now; value = view value.now; moment = moment; atomic = atomic }) (done_of result) }
    {
        let done = match self.put(alloc, channel, mask, value, moment, atomic) {
            Ok(done) => done,
            Err(answer) => return Err(answer),
        };
        match self.get(alloc, channel, atomic) {
            Ok(value) => Ok((done, value)),
            Err(_) => Err(PutAnswer::NoMemory { done: done.count }),
        }
    }
}

impl<P: Port> Desk for SoloDesk<P> {
    ghost use Rattle.desk_api.specs.Calls.{AreGet, ArePut, ArePutGet, AreSnapshot, AreSubscribe, FitsSubscribed, IsEnding, IsPop, OnSubscribed, EndsAtLastRoll, now};
    ghost use Rattle.desk_api.specs.Living.{lives};
    ghost use Rattle.desk_api.specs.Sites as sites;
    ghost use Rattle.desk_api.specs.Triggers.{may_be_watched};
    ghost use Rattle.desk_api.specs.Types as types;
    ghost use Rattle.desk_core.specs.Desks.{ports_of};
    ghost use Rattle.desk_core.specs.Ports.{DrivesPorts};
    ghost use Rattle.desk_core.specs.PutGets.{done_of};
    ghost use Rattle.histories.specs.History.{deeds_by, tagged};

    ghost seat = { λ desk. desk.log };

    /// Nothing is done. It tells that the history is legal, and that every deed of it is this desk's own.
    fn has_legal_history(&self)
        ensures legal { IsLegal self.now.log.seen }
        ensures own { self.now.log.seen.deeds ≡ tagged self.now.log.number (deeds_by self.now.log.number self.now.log.seen.deeds) }
    {}

    fn find(&self, name: &str) -> Option<Channel> {
        self.terms.site.find(name)
    }

    fn type_of(&self, channel: Channel) -> Option<&PvType> {
        self.terms.site.type_of(channel)
    }

    fn records(&self) -> usize {
        self.terms.site.records()
    }

    fn groups(&self) -> usize {
        self.terms.site.groups()
    }

    fn names(&self, alloc: Global) -> Result<Vec<Name>, NoMemory> {
        self.terms.site.names(alloc)
    }

    /// What the channel shows, as every desk does it. It drives no port, and nothing is added to the history.
    fn get(
        &mut self,
        alloc: Global,
        channel: Channel,
        atomic: Option<bool>,
    ) -> Result<PvValue, NoMemory>
        requires { IsTrue (sites.is_channel self.old.log.seen.base.site channel) }
        ensures calls { Calls self.old.log self.new.log (AreGet self.old.log.seen.base.site channel atomic result) }
        ensures ends { OnOk result (EndsAtItsMarks self.old.log self.new.log) }
        ensures fits { IfOk result (λ v. fits_of 16 (view v) (types.type_of self.old.log.seen.base.site channel) ≡ true) }
        ensures base { self.new.log.seen.base ≡ self.old.log.seen.base }
        ensures seen { self.new.log.seen ≡ self.old.log.seen }
        ensures ports { ports_of P.port self.new ≡ ports_of P.port self.old }
    {
        let site = &self.terms.site;
        let cells = self.cells.states.as_slice();
        let Ok(value) = site.view(alloc, channel, cells) else {
            return Err(NoMemory);
        };
        names_and_configs(site);
        groups_over_records(site);
        looks_show_states();
        marks_keep();
        note_looks(&mut self.log, site, channel, atomic, cells);
        Ok(value)
    }

    /// Puts the marked leaves, as every desk does it. The port of the record of each action, if it has one, is driven once with
    /// the new value as plain text, after the channel has taken the put and before the action's entry is added: the entry tells
    /// whether the port took it. A port that was driven stays so where the history is full or memory runs out.
    fn put(
        &mut self,
        alloc: Global,
        channel: Channel,
        mask: &BitSet,
        value: &PvValue,
        moment: Moment,
        atomic: Option<bool>,
    ) -> Result<Done, PutAnswer>
        requires channel { IsTrue (sites.is_channel self.old.log.seen.base.site channel) }
        requires fits { fits_of 16 (view value.now) (types.type_of self.old.log.seen.base.site channel) ≡ true }
        requires leaves { types.HoldsLeaves (types.type_of self.old.log.seen.base.site channel) mask.now }
        ensures calls { Calls self.old.log self.new.log (ArePut (record { site = self.old.log.seen.base.site; channel = channel; mask = mask.now; value = view value.now; moment = moment; atomic = atomic }) result) }
        ensures ends { OnTold result (EndsAtItsMarks self.old.log self.new.log) }
        ensures base { self.new.log.seen.base ≡ self.old.log.seen.base }
        ensures first { IfOk result (λ done. done.first ≡ now self.old.log) }
        ensures ports { DrivesPorts self.old.log self.new.log (ports_of P.port self.old) (ports_of P.port self.new) (record { site = self.old.log.seen.base.site; channel = channel; mask = mask.now; value = view value.now; moment = moment; atomic = atomic }) result }
    {
        let actions = match self.terms.site.actions(alloc, channel, value, mask) {
            Ok(actions) => actions,
            Err(answer) => return Err(not_done(answer)),
        };
        let whole = self.terms.site.is_atomic(channel, atomic);
        self.put_entries(alloc, whole, actions, moment)
    }

    /// Puts the marked leaves and gets the channel, as every desk does it. The ports are driven as by the put alone.
    fn put_get(
        &mut self,
        alloc: Global,
        channel: Channel,
        mask: &BitSet,
        value: &PvValue,
        moment: Moment,
        atomic: Option<bool>,
    ) -> Result<(Done, PvValue), PutAnswer>
        requires channel { IsTrue (sites.is_channel self.old.log.seen.base.site channel) }
        requires fits { fits_of 16 (view value.now) (types.type_of self.old.log.seen.base.site channel) ≡ true }
        requires leaves { types.HoldsLeaves (types.type_of self.old.log.seen.base.site channel) mask.now }
        ensures calls { Calls self.old.log self.new.log (ArePutGet (record { site = self.old.log.seen.base.site; channel = channel; mask = mask.now; value = view value.now; moment = moment; atomic = atomic }) result) }
        ensures ends { OnTold result (EndsAtItsMarks self.old.log self.new.log) }
        ensures fits { IfOk result (λ r. fits_of 16 (view r.1) (types.type_of self.old.log.seen.base.site channel) ≡ true) }
        ensures base { self.new.log.seen.base ≡ self.old.log.seen.base }
        ensures ports { DrivesPorts self.old.log self.new.log (ports_of P.port self.old) (ports_of P.port self.new) (record { site = self.old.log.seen.base.site; channel = channel; mask = mask.now; value = view value.now; moment = moment; atomic = atomic }) (done_of result) }
    {
        let at_once = self.terms.site.is_atomic(channel, atomic);
        if !at_once {
            return self.put_then_get(alloc, channel, mask, value, moment, atomic);
        }
        match self.terms.site.actions(alloc, channel, value, mask) {
            Ok(actions) => self.put_and_show(alloc, channel, actions, moment),
            Err(answer) => Err(not_done(answer)),
        }
    }

    /// A row for each record, as every desk gives them. It drives no port.
    fn snapshot(&mut self, alloc: Global) -> Result<Vec<RecRow>, NoMemory>
        ensures calls { Calls self.old.log self.new.log (AreSnapshot self.old.log.seen.base.site result) }
        ensures ends { OnOk result (EndsAtItsMarks self.old.log self.new.log) }
        ensures base { self.new.log.seen.base ≡ self.old.log.seen.base }
        ensures ports { ports_of P.port self.new ≡ ports_of P.port self.old }
    {
        let site = &self.terms.site;
        names_and_configs(site);
        let cells = self.cells.states.as_slice();
        let Ok(rows) = site.rows(alloc, cells) else {
            return Err(NoMemory);
        };
        marks_keep();
        note_looks(&mut self.log, site, SERVICE, None, cells);
        Ok(rows)
    }

    /// Begins a subscription, as every desk does it. It drives no port.
    fn subscribe(
        &mut self,
        alloc: Global,
        channel: Channel,
        mask: &BitSet,
        size: u32,
    ) -> Result<Sub, SubAnswer>
        requires channel { may_be_watched self.old.log.seen.base.site channel ≡ true }
        requires leaves { types.HoldsLeaves (types.type_of self.old.log.seen.base.site channel) mask.now }
        requires size { (1 ≤ size) × (size ≤ 64) }
        ensures calls { Calls self.old.log self.new.log (AreSubscribe channel mask.now size result) }
        ensures rolled { OnSubscribed result (EndsAtLastRoll self.new.log) }
        ensures ends { OnSubscribed result (EndsAtItsMarks self.old.log self.new.log) }
        ensures base { self.new.log.seen.base ≡ self.old.log.seen.base }
        ensures ports { ports_of P.port self.new ≡ ports_of P.port self.old }
    {
        let Ok(requested) = mask.clone_in(alloc) else {
            return Err(SubAnswer::NoMemory);
        };
        marks_keep();
        let site = &self.terms.site;
        let cells = self.cells.states.as_slice();
        let Ok(watching) = ready(alloc, site, channel, requested, cells, size) else {
            return Err(SubAnswer::NoMemory);
        };
        match begin(alloc, site, &mut self.subs, watching) {
            Ok(slot) => {
                note_begun::<Brand>(&mut self.log, slot, channel, mask, size);
                Ok(Sub { slot })
            }
            Err(cause) => Err(not_begun(&mut self.log, cause)),
        }
    }

    /// The oldest unread update, as every desk gives it. It drives no port, and nothing is added to the history.
    fn pop(&mut self, sub: &Sub) -> Option<Update>
        requires { lives self.old.log.log sub.now.slot ≡ true }
        ensures calls { Calls self.old.log self.new.log (IsPop sub.now.slot result) }
        ensures ends { EndsAtItsMarks self.old.log self.new.log }
        ensures fits { IfSome result (FitsSubscribed self.old.log sub.now.slot) }
        ensures base { self.new.log.seen.base ≡ self.old.log.seen.base }
        ensures seen { self.new.log.seen ≡ self.old.log.seen }
        ensures ports { ports_of P.port self.new ≡ ports_of P.port self.old }
    {
        logs_tell_slots();
        let slot = sub.slot;
        let update = pop(&mut self.subs, slot);
        note_popped::<Brand>(&mut self.log, slot, &update);
        update
    }

    /// Ends a subscription, as every desk does it. It drives no port.
    fn unsubscribe(&mut self, sub: Sub)
        requires { lives self.old.log.log sub.slot ≡ true }
        ensures calls { Calls self.old.log self.new.log (IsEnding sub.slot) }
        ensures rolled { EndsAtLastRoll self.new.log }
        ensures ends { EndsAtItsMarks self.old.log self.new.log }
        ensures base { self.new.log.seen.base ≡ self.old.log.seen.base }
        ensures ports { ports_of P.port self.new ≡ ports_of P.port self.old }
    {
        let slot = sub.slot;
        end(&self.terms.site, &mut self.subs, slot);
        note_dropped::<Brand>(&mut self.log, slot);
    }
}
