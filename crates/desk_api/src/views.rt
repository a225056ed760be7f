// A site's channels, as subscriptions see them.
ghost use Rattle.std.specs.Prelude.{◌≡◌, ◌<◌, ℕ, true, IfOk, length, slice_get};
ghost use Rattle.std.specs.FinSet as set;
ghost use Rattle.desk_api.specs.Triggers.{triggers_for};
ghost use Rattle.desk_api.specs.Types.{group_type};
ghost use Rattle.desk_api.specs.Views.{grouped};
ghost use Rattle.desk_api.specs.declared.channel.ChannelKind.TheVariants.{Rec};
ghost use Rattle.journal_core.specs.Legality.{AreValid};
ghost use Rattle.pvd_value.specs.Fits.{fits_of};
ghost use Rattle.pvd_value.specs.Leaves.{leaf_at};
ghost use Rattle.pvd_value.specs.View.{view};

use crate::channel::{Channel, ChannelKind};
use crate::records::discard;
use crate::site::Site;
use mon_shown::Views;
use pvd_type::{BitSet, NoMemory, PvType};
use pvd_value::{PvValue, blank};
use rec_kinds::RecState;
use std::alloc::Global;

impl Site {
    /// The leaves of a record's own channel that are taken anew where a record is written: all of them where it is this record,
    /// and else none.
    fn record_triggers(&self, number: u32, rec: u32) -> &BitSet
        requires { number < length self.now.names }
        ensures { result.now ≡ triggers_for Rec self.now number rec }
    {
        if rec == number {
            return self.records.leaves_at(number as usize);
        }
        self.no_leaf()
    }

    /// The marked leaves of what a group shows where the records have these states; its other leaves are blank. Only the members
    /// are viewed that stand under marked leaves.
    fn group_part(
        &self,
        alloc: Global,
        number: usize,
        states: &[RecState],
        mask: &BitSet,
    ) -> Result<PvValue, NoMemory>
        requires group { number < length self.now.groups }
        requires valid { AreValid self.now.configs states.now }
        ensures shown { IfOk result (λ v. (k : ℕ) → set.contains mask.now k ≡ true → leaf_at k (group_type (slice_get self.now.groups number)) (view v) ≡ leaf_at k (group_type (slice_get self.now.groups number)) (grouped (slice_get self.now.groups number) states.now)) }
        ensures fits { IfOk result (λ v. fits_of 16 (view v) (group_type (slice_get self.now.groups number)) ≡ true) }
    {
        let group = self.group(number);
        let mut value = blank(alloc, group.type_of())?;
        match group.view_into(alloc, states, mask, &mut value) {
            Ok(()) => Ok(value),
            Err(NoMemory) => {
                discard(value);
                Err(NoMemory)
            }
        }
    }
}

impl Views<Channel> for Site {
    ghost use Rattle.desk_api.specs.Triggers.{channel_view, may_be_watched};
    ghost use Rattle.journal_core.specs.Legality.{AreValid};

    ghost has = { λ site channel. may_be_watched site channel };

    ghost shows = { λ site channel. channel_view site channel };

    ghost ready = { λ site channel mask states. AreValid site.configs states };

    fn type_of(&self, channel: Channel) -> &PvType {
        let number = channel.number as usize;
        match channel.kind {
            ChannelKind::Rec => self.records.type_at(number),
            ChannelKind::Desc => self.text(),
            ChannelKind::Group => self.group(number).type_of(),
            ChannelKind::Service => self.text(),
        }
    }

    fn is_same(&self, one: Channel, other: Channel) -> bool {
        one == other
    }

    fn triggers(&self, channel: Channel, rec: u32) -> &BitSet {
        match channel.kind {
            ChannelKind::Rec => self.record_triggers(channel.number, rec),
            ChannelKind::Desc | ChannelKind::Service => self.no_leaf(),
            ChannelKind::Group => self.group(channel.number as usize).triggered(rec),
        }
    }

    fn triggering(&self, channel: Channel) -> &[u32] {
        self.footprint_of(channel)
    }

    fn view_part(
        &self,
        alloc: Global,
        channel: Channel,
        states: &[RecState],
        mask: &BitSet,
    ) -> Result<PvValue, NoMemory> {
        match channel.kind {
            ChannelKind::Rec | ChannelKind::Desc | ChannelKind::Service => self.view(
                alloc, channel, states,
            ),
            ChannelKind::Group => self.group_part(alloc, channel.number as usize, states, mask),
        }
    }
}
