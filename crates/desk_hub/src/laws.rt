// Laws of what is kept of seats, each the contract of a function that does nothing.
ghost use Rattle.std.specs.Prelude.{◌≡◌, ◌∷◌, ◌++◌, [], ℕ, List, None, Some};
ghost use Rattle.desk_api.specs.History.{History, roll};
ghost use Rattle.desk_api.specs.Living.{Living, living, lives};
ghost use Rattle.desk_api.specs.Triggers.{channel_view, may_be_watched};
ghost use Rattle.desk_api.specs.Types.{type_of};
ghost use Rattle.desk_api.specs.declared.mark.Mark.{Mark};
ghost use Rattle.desk_hub.specs.Seats.{Subs, has_slot, IsAside, IsTyped, KeepsSeat};
ghost use Rattle.mon_shown.specs.Slots.{slot_in, Stand};

/// Without a subscription nothing is kept, of any seat that made no mark, in a history in which none began.
pub fn a_new_desk_keeps()
    ensures { (h : History) (subs : Subs) (seat : ℕ) → roll h ≡ [] → Stand (may_be_watched h.base.site) (channel_view h.base.site) subs → ((slot : ℕ) → slot_in subs slot ≡ None) → KeepsSeat h subs seat [] }
{}

/// A mark that is of no subscription, and of no entry, keeps what is kept.
pub fn marks_keep()
    ensures { (h : History) (subs : Subs) (seat : ℕ) (log : List Mark) (mark : Mark) → IsAside mark → KeepsSeat h subs seat log → KeepsSeat h subs seat (log ++ mark ∷ []) }
{}

/// What is kept of a seat tells that it holds, by the roll, just the slots in which its log has a living subscription, and that these are
/// of the channels that the log tells.
pub fn logs_tell_slots()
    ensures held { (h : History) (subs : Subs) (seat : ℕ) (log : List Mark) → KeepsSeat h subs seat log → (slot : ℕ) → lives log slot ≡ has_slot h seat slot }
    ensures typed { (h : History) (subs : Subs) (seat : ℕ) (log : List Mark) → KeepsSeat h subs seat log → (slot : ℕ) (l : Living) → living log slot ≡ Some l → IsTyped (type_of h.base.site l.channel) (slot_in subs slot) }
{}
