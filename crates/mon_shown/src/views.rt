ghost use Rattle.std.specs.Prelude.{◌≡◌, true, false, ℕ, IfOk, IsTrue};
ghost use Rattle.std.specs.List.{list_any};
ghost use Rattle.std.specs.FinSet.{contains, empty};
ghost use Rattle.pvd_value.specs.View.{view};
ghost use Rattle.pvd_value.specs.Leaves.{leaf_at};
ghost use Rattle.pvd_value.specs.Fits.{fits_of};
ghost use Rattle.mon_shown.specs.Channels.{is_one_of};

use pvd_type::{BitSet, NoMemory, PvType};
use pvd_value::PvValue;
use rec_kinds::RecState;
use std::alloc::Global;

/// The channels of a desk, each as a function of the states of the records.
pub trait Views<C> {
    ghost use Rattle.std.specs.Prelude.{Bool, List};
    ghost use Rattle.std.specs.Ordering.{nat_cmp};
    ghost use Rattle.std.specs.FinSet.{FinSet};
    ghost use Rattle.rec_kinds.specs.declared.state.RecState.{RecState};
    ghost use Rattle.mon_shown.specs.Channels.{ChannelView};

    /// Whether there is this channel.
    ghost has: { Self → C → Bool };

    /// What it shows.
    ghost shows: { Self → C → ChannelView };

    /// These leaves of it can be viewed where the records have these states.
    ghost ready: { Self → C → FinSet nat_cmp → List RecState → Type 0 };

    /// The type of the channel's values.
    fn type_of(&self, channel: C) -> &PvType
        requires { has self.now channel ≡ true }
        ensures { result.now ≡ (shows self.now channel).ty };

    /// Whether two are one channel, where that is known.
    fn is_same(&self, one: C, other: C) -> bool
        ensures { IsTrue result → one ≡ other };

    /// The leaves that are taken anew where this record is written.
    fn triggers(&self, channel: C, rec: u32) -> &BitSet
        requires { has self.now channel ≡ true }
        ensures { result.now ≡ (shows self.now channel).triggers rec };

    /// The records that trigger leaves of the channel, and maybe others.
    fn triggering(&self, channel: C) -> &[u32]
        requires { has self.now channel ≡ true }
        ensures { (rec : ℕ) → is_one_of result.now rec ≡ false → (shows self.now channel).triggers rec ≡ empty };

    /// The marked leaves of what the channel shows of these states. Its other leaves are any, and only the records have to be in
    /// these states whose fields stand under marked leaves.
    fn view_part(
        &self,
        alloc: Global,
        channel: C,
        states: &[RecState],
        mask: &BitSet,
    ) -> Result<PvValue, NoMemory>
        requires there { has self.now channel ≡ true }
        requires ready { ready self.now channel mask.now states.now }
        ensures shown { IfOk result (λ v. (k : ℕ) → contains mask.now k ≡ true → leaf_at k (shows self.now channel).ty (view v) ≡ leaf_at k (shows self.now channel).ty ((shows self.now channel).view states.now)) }
        ensures fits { IfOk result (λ v. fits_of 16 (view v) (shows self.now channel).ty ≡ true) };
}
