// What a session asks of its desk.
ghost use Rattle.std.specs.Prelude.{◌≡◌, true, IfOk, IfSome, IsTrue, OnOk, option_map, ◌≤◌, length};
ghost use Rattle.desk_api.specs.declared.mark.Seat.{Seat};
ghost use Rattle.desk_api.specs.Sites as sites;
ghost use Rattle.desk_api.specs.Types as types;
ghost use Rattle.desk_api.specs.History.{IsLegal};
ghost use Rattle.desk_api.specs.Calls.{Calls, AreGet, ArePut, ArePutGet, AreSnapshot, AreSubscribe, EndsAtLastRoll, IsPop, IsEnding, FitsSubscribed, OnTold, OnSubscribed, EndsAtItsMarks};
ghost use Rattle.desk_api.specs.Living.{lives};
ghost use Rattle.desk_api.specs.Triggers.{may_be_watched};
ghost use Rattle.pvd_value.specs.Fits.{fits_of};
ghost use Rattle.pvd_value.specs.View.{view};

use crate::channel::Channel;
use crate::put::{Done, PutAnswer};
use crate::rows::RecRow;
use crate::sub::{Sub, SubAnswer};
use mon_queue::Update;
use pvd_type::{BitSet, Name, NoMemory, PvType};
use pvd_value::PvValue;
use rec_kinds::Moment;
use std::alloc::Global;

/// Where a session reads and writes the records. Others may add entries to the history between two calls.
///
/// A call keeps the base of the history, and so a channel of the site stays one.
pub trait Desk {
    /// The seat: its number, the history that it has seen, and its log. They take no bytes.
    ghost seat: { Self → Seat };

    /// Nothing is done. It tells that the history which the seat has seen is legal, as it is of every desk at any time.
    fn has_legal_history(&self)
        ensures { IsLegal (seat self.now).seen };

    /// The channel of this name. None exactly where the site has no such name. It takes no memory and makes no mark.
    fn find(&self, name: &str) -> Option<Channel>
        ensures { result ≡ sites.channel_named (seat self.now).seen.base.site name.now };

    /// The type of a channel's values. None exactly for the service. It makes no mark.
    fn type_of(&self, channel: Channel) -> Option<&PvType>
        requires { IsTrue (sites.is_channel (seat self.now).seen.base.site channel) }
        ensures { option_map (λ t. t.now) result ≡ types.type_if_valued (seat self.now).seen.base.site channel };

    /// How many records the site has: at most 4,000.
    fn records(&self) -> usize
        ensures records { result ≡ length (seat self.now).seen.base.site.names }
        ensures few { result ≤ 4000 };

    /// How many groups the site has: at most 1,024.
    fn groups(&self) -> usize
        ensures groups { result ≡ length (seat self.now).seen.base.site.groups }
        ensures few { result ≤ 1024 };

    /// The names of the records, in the order of their text, and then those of the groups, in the order in which the text first
    /// names them. It makes no mark.
    fn names(&self, alloc: Global) -> Result<Vec<Name>, NoMemory>
        ensures { IfOk result (λ names. names.items ≡ sites.names_of (seat self.now).seen.base.site) };

    /// What the channel shows of its records. A get that is atomic looks at all of them at one place, which is the end of the
    /// history that the seat has then seen: one mark. One of a group that isn't looks at one record after another: a mark for
    /// each, in the order of the records' numbers, and after `NoMemory` the first of them. `atomic` stands for the group's own
    /// flag where it is given; other channels are always got atomically (QSRV manual, "Group PV definitions", `+atomic`).
    fn get(
        &mut self,
        alloc: Global,
        channel: Channel,
        atomic: Option<bool>,
    ) -> Result<PvValue, NoMemory>
        requires { IsTrue (sites.is_channel (seat self.old).seen.base.site channel) }
        ensures calls { Calls (seat self.old) (seat self.new) (AreGet (seat self.old).seen.base.site channel atomic result) }
        ensures ends { OnOk result (EndsAtItsMarks (seat self.old) (seat self.new)) }
        ensures fits { IfOk result (λ v. fits_of 16 (view v) (types.type_of (seat self.old).seen.base.site channel) ≡ true) }
        ensures base { (seat self.new).seen.base ≡ (seat self.old).seen.base };

    /// Puts the marked leaves of the value at this moment. A put that is atomic is one entry of the history with all its
    /// actions; one to a group that isn't is an entry for each action, in put order. A mark for each entry that is added, and
    /// one of its weight where the next would be too heavy. The channel decides before anything is done whether it refuses the
    /// put: then there is no mark. `atomic` is as for a get.
    fn put(
        &mut self,
        alloc: Global,
        channel: Channel,
        mask: &BitSet,
        value: &PvValue,
        moment: Moment,
        atomic: Option<bool>,
    ) -> Result<Done, PutAnswer>
        requires channel { IsTrue (sites.is_channel (seat self.old).seen.base.site channel) }
        requires fits { fits_of 16 (view value.now) (types.type_of (seat self.old).seen.base.site channel) ≡ true }
        requires leaves { types.HoldsLeaves (types.type_of (seat self.old).seen.base.site channel) mask.now }
        ensures calls { Calls (seat self.old) (seat self.new) (ArePut (record { site = (seat self.old).seen.base.site; channel = channel; mask = mask.now; value = view value.now; moment = moment; atomic = atomic }) result) }
        ensures ends { OnTold result (EndsAtItsMarks (seat self.old) (seat self.new)) }
        ensures base { (seat self.new).seen.base ≡ (seat self.old).seen.base };

    /// Puts the marked leaves of the value at this moment, and then gets the channel. Where that is atomic, the put is one entry
    /// with all its actions, which holds the records of the get too, and the value is what the channel shows right after it: one
    /// mark. Else it is a put and then a get, with the marks of both; `NoMemory` tells the entries that were added, also where
    /// it is the get that stops. The channel decides before anything is done whether it refuses the put (pvAccess Protocol
    /// Specification, "Channel put-get").
    fn put_get(
        &mut self,
        alloc: Global,
        channel: Channel,
        mask: &BitSet,
        value: &PvValue,
        moment: Moment,
        atomic: Option<bool>,
    ) -> Result<(Done, PvValue), PutAnswer>
        requires channel { IsTrue (sites.is_channel (seat self.old).seen.base.site channel) }
        requires fits { fits_of 16 (view value.now) (types.type_of (seat self.old).seen.base.site channel) ≡ true }
        requires leaves { types.HoldsLeaves (types.type_of (seat self.old).seen.base.site channel) mask.now }
        ensures calls { Calls (seat self.old) (seat self.new) (ArePutGet (record { site = (seat self.old).seen.base.site; channel = channel; mask = mask.now; value = view value.now; moment = moment; atomic = atomic }) result) }
        ensures ends { OnTold result (EndsAtItsMarks (seat self.old) (seat self.new)) }
        ensures fits { IfOk result (λ r. fits_of 16 (view r.1) (types.type_of (seat self.old).seen.base.site channel) ≡ true) }
        ensures base { (seat self.new).seen.base ≡ (seat self.old).seen.base };

    /// A row for each record, in the order of their text: all are looked at in one place, which is the end of the history that the
    /// seat has then seen. One mark.
    fn snapshot(&mut self, alloc: Global) -> Result<Vec<RecRow>, NoMemory>
        ensures calls { Calls (seat self.old) (seat self.new) (AreSnapshot (seat self.old).seen.base.site result) }
        ensures ends { OnOk result (EndsAtItsMarks (seat self.old) (seat self.new)) }
        ensures base { (seat self.new).seen.base ≡ (seat self.old).seen.base };

    /// Begins a subscription to the marked leaves of what the channel shows. Its first update is what the channel shows at the end of
    /// the history that the seat has then seen; later ones come from the entries that post a marked leaf, and at most `size` wait to be
    /// popped: further ones are merged into the newest. `TooManyMonitors` exactly where 1,024 live, of this and other seats. One mark,
    /// and none where memory runs out (pvAccess Protocol Specification, "Channel Monitor").
    fn subscribe(
        &mut self,
        alloc: Global,
        channel: Channel,
        mask: &BitSet,
        size: u32,
    ) -> Result<Sub, SubAnswer>
        requires channel { may_be_watched (seat self.old).seen.base.site channel ≡ true }
        requires leaves { types.HoldsLeaves (types.type_of (seat self.old).seen.base.site channel) mask.now }
        requires size { (1 ≤ size) × (size ≤ 64) }
        ensures calls { Calls (seat self.old) (seat self.new) (AreSubscribe channel mask.now size result) }
        ensures rolled { OnSubscribed result (EndsAtLastRoll (seat self.new)) }
        ensures ends { OnSubscribed result (EndsAtItsMarks (seat self.old) (seat self.new)) }
        ensures base { (seat self.new).seen.base ≡ (seat self.old).seen.base };

    /// The oldest unread update of a living subscription of this seat; None exactly where none is unread. One mark. It takes no memory.
    fn pop(&mut self, sub: &Sub) -> Option<Update>
        requires { lives (seat self.old).log sub.now.slot ≡ true }
        ensures calls { Calls (seat self.old) (seat self.new) (IsPop sub.now.slot result) }
        ensures ends { EndsAtItsMarks (seat self.old) (seat self.new) }
        ensures fits { IfSome result (FitsSubscribed (seat self.old) sub.now.slot) }
        ensures base { (seat self.new).seen.base ≡ (seat self.old).seen.base };

    /// Ends a living subscription of this seat. One mark. It takes no memory.
    fn unsubscribe(&mut self, sub: Sub)
        requires { lives (seat self.old).log sub.slot ≡ true }
        ensures calls { Calls (seat self.old) (seat self.new) (IsEnding sub.slot) }
        ensures rolled { EndsAtLastRoll (seat self.new) }
        ensures ends { EndsAtItsMarks (seat self.old) (seat self.new) }
        ensures base { (seat self.new).seen.base ≡ (seat self.old).seen.base };
}
