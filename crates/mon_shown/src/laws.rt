//! Laws of what subscriptions are shown and of their slots, each the contract of a function that does nothing.
ghost use Rattle.std.specs.Prelude.{◌≡◌, ◌≤◌, ◌<◌, ◌++◌, ◌∷◌, [], ℕ, List, Option, None, Some, true, false};
ghost use Rattle.std.specs.Ordering.{nat_cmp};
ghost use Rattle.std.specs.FinSet.{FinSet};
ghost use Rattle.rec_kinds.specs.declared.state.RecState.{RecState};
ghost use Rattle.journal_core.specs.declared.entry.Entry.{Entry};
ghost use Rattle.mon_queue.specs.Runs.{Run};
ghost use Rattle.mon_queue.specs.Shown.{anew, next_scene, scene_after, posts_by, posts_after, blank, first_scene, first_post};
ghost use Rattle.mon_queue.specs.Course.{with_posts};
ghost use Rattle.pvd_value.specs.LeafValues.{over};
ghost use Rattle.mon_queue.proofs.Folding.{showing};
ghost use Rattle.mon_shown.specs.Channels.{ChannelView, RecordsWatch, RecordsScene, SeenAlike};
ghost use Rattle.mon_shown.specs.Keeping.{capacity_of, Keeps, watch_of, IsReady, Took};
ghost use Rattle.mon_shown.specs.Slots.{is_filled, slot_in, OtherSlotsStay, IsFirstFree, IsFull};
ghost use Rattle.mon_shown.specs.Rolls.{holder, is_held, alive, IsLeastFree, Follows};
ghost use Rattle.mon_shown.specs.declared.roll.RollItem.{RollItem};
ghost use Rattle.mon_shown.specs.declared.roll.RollItem.TheVariants.{Begins, Ends};
ghost use Rattle.mon_shown.specs.declared.subscriptions.Subscriptions.{Subscriptions};
ghost use Rattle.mon_shown.specs.declared.watching.Watching.{Watching};
ghost use Rattle.mon_shown.specs.declared.watching.Ready.{Ready};

/// The posts of entries, merged in order into what was shown before them, are what is shown after them; and the first post, merged
/// into the blank value, is what is shown at the beginning.
pub fn posts_show()
    ensures later { (w : RecordsWatch) (s : RecordsScene) (entries : List Entry) → showing s.shown (posts_after w s entries) ≡ (scene_after w s entries).shown }
    ensures first { (w : RecordsWatch) (states : List RecState) → over w.requested (blank w) (first_post w states).leaves ≡ (first_scene w states).shown }
{}

/// What was made ready for an entry and taken keeps the subscription with the entry and its posts.
pub fn entries_are_kept<C>()
    ensures { (shows : C → ChannelView) (states : List RecState) (e : Entry) (x y : Watching C) (r : Option Ready) → IsReady shows states e x r → Took x r y
        → (s : RecordsScene) (runs : List Run) → Keeps (watch_of shows x) (capacity_of x) s runs x → SeenAlike (watch_of shows x) (anew (watch_of shows x) e) states ((watch_of shows x).next s.state e)
        → Keeps (watch_of shows x) (capacity_of x) (next_scene (watch_of shows x) s e) (with_posts (capacity_of x) runs (posts_by (watch_of shows x) s e)) y }
{}

/// The roll tells the least free slot, which is below 1,024 exactly while fewer subscriptions live.
pub fn slots_are_least<C>()
    ensures one { (items : List (ℕ × RollItem C)) (a b : ℕ) → IsLeastFree items a → IsLeastFree items b → a ≡ b }
    ensures below { (items : List (ℕ × RollItem C)) (slot : ℕ) → IsLeastFree items slot → alive items < 1024 → slot < 1024 }
    ensures few { (items : List (ℕ × RollItem C)) (slot : ℕ) → slot < 1024 → is_held items slot ≡ false → alive items < 1024 }
    ensures full { (items : List (ℕ × RollItem C)) → ((k : ℕ) → k < 1024 → is_held items k ≡ true) → alive items ≡ 1024 }
    ensures most { (items : List (ℕ × RollItem C)) → alive items ≤ 1024 }
{}

/// Slots that are filled where the roll has them held stay so as subscriptions begin and end.
pub fn slots_follow_the_roll<C>()
    ensures least { (items : List (ℕ × RollItem C)) (subs : Subscriptions C) (slot : ℕ) → Follows items subs → IsFirstFree subs slot → IsLeastFree items slot }
    ensures full { (items : List (ℕ × RollItem C)) (subs : Subscriptions C) → Follows items subs → IsFull subs → alive items ≡ 1024 }
    ensures begins { (items : List (ℕ × RollItem C)) (subs more : Subscriptions C) (seat slot size : ℕ) (channel : C) (mask : FinSet nat_cmp) → Follows items subs → OtherSlotsStay subs slot more → is_filled more slot ≡ true
        → Follows (items ++ (seat, Begins slot channel mask size) ∷ []) more }
    ensures ends { (items : List (ℕ × RollItem C)) (subs more : Subscriptions C) (seat slot : ℕ) → Follows items subs → holder items slot ≡ Some seat → OtherSlotsStay subs slot more → slot_in more slot ≡ None
        → Follows (items ++ (seat, Ends slot) ∷ []) more }
{}
