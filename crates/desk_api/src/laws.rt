// Laws of the definitions. Each is the contract of a function that does nothing.
ghost use Rattle.std.specs.Prelude.{◌≡◌, ℕ, ◌+◌, ◌≤◌, ◌==◌, Bool, true, List, [], ◌++◌, length, Option, Some, Result, IsTrue};
ghost use Rattle.std.specs.List.{list_all, list_any};
ghost use Rattle.std.specs.List.Sorted.{IsStrictlyIncreasing};
ghost use Rattle.histories.specs.History.{Begins};
ghost use Rattle.journal_core.specs.Legality.{AreProcessed, AreValid};
ghost use Rattle.journal_core.specs.declared.entry.Entry.{Entry};
ghost use Rattle.desk_api.specs.History.{History, entries, state_at, kept_at, IsLegal};
ghost use Rattle.histories.specs.History.{AllTrue};
ghost use Rattle.desk_api.specs.Living.{Living, BeganIn, living, living_after, IsFolded, PopsUpTo};
ghost use Rattle.desk_api.specs.Marks.{AllHold, IsTrueEntry, IsTrueRead, IsFoldedAtEnd};
ghost use Rattle.journal_core.specs.Moments.{Moment};
ghost use Rattle.desk_api.specs.Calls.{Adds, Asked, AreFindings, AreGet, ArePut, ArePutGet, AreSnapshot, laid_by, looks_of};
ghost use Rattle.desk_api.specs.Puts.{footprint_by, footprint_with};
ghost use Rattle.desk_api.specs.Sites.{AreOver, all_records, channel_named, channel_of, footprint_of, is_channel};
ghost use Rattle.desk_api.specs.Types.{type_of};
ghost use Rattle.desk_api.specs.Views.{value_of, laid};
ghost use Rattle.desk_api.specs.declared.channel.Channel.{Channel};
ghost use Rattle.desk_api.specs.declared.channel.ChannelKind.TheVariants.{Service};
ghost use Rattle.desk_api.specs.declared.history.SiteData.{SiteData};
ghost use Rattle.desk_api.specs.declared.mark.Mark.{Mark};
ghost use Rattle.desk_api.specs.declared.mark.Seat.{Seat};
ghost use Rattle.desk_api.specs.declared.put.Done.{Done};
ghost use Rattle.desk_api.specs.declared.put.PutAnswer.{PutAnswer};
ghost use Rattle.desk_api.specs.declared.rows.RecRow.{RecRow};
ghost use Rattle.pvd_type.specs.declared.memory.NoMemory.{NoMemory};
ghost use Rattle.pvd_value.specs.declared.value.PvValue.{PvValue};
ghost use Rattle.std.specs.Global.{Vec};
ghost use Rattle.pvd_value.specs.Fits.{fits_of};
ghost use Rattle.rec_kinds.specs.declared.datum.Action.{Action};
ghost use Rattle.rec_kinds.specs.declared.state.RecState.{RecState};

use group_view::value_reads_records;

/// What is found may be asked for: a name of a site stands for a channel of it.
pub fn found_channels()
    ensures { (site : SiteData) (name : List ℕ) (channel : Channel) → channel_named site name ≡ Some channel → IsTrue (is_channel site channel) }
{}

/// Where the groups are over the records, and each record is in a state that is valid for it, what a channel shows fits its type.
pub fn values_fit()
    ensures { (site : SiteData) (channel : Channel) (states : List RecState) → AreOver site → AreValid site.configs states → fits_of 16 (value_of site channel states) (type_of site channel) ≡ true }
{}

/// What a true read of all of a channel's records found, laid over the opening states, shows what the channel shows of all
/// records at the read's place.
pub fn gets_show_their_place()
    ensures { (h : History) (at : ℕ) (channel : Channel) (found : List RecState) → IsTrueRead h at channel (footprint_of h.base.site channel) found → value_of h.base.site channel (laid h.base.site.opening (footprint_of h.base.site channel) found) ≡ value_of h.base.site channel (state_at h at) }
{
    value_reads_records();
}

/// What a put-get's true entry found of all of a channel's records, laid over the opening states, shows what the channel shows
/// of all records right after the entry.
pub fn put_gets_show_their_entry()
    ensures { (h : History) (seat at : ℕ) (channel : Channel) (entry : Entry) (found : List RecState) → IsTrueEntry h seat at entry (footprint_of h.base.site channel) found → value_of h.base.site channel (laid h.base.site.opening (footprint_of h.base.site channel) found) ≡ value_of h.base.site channel (state_at h (at + 1)) }
{
    value_reads_records();
}

/// What a get's looks found of the channel's records, laid over the opening states, shows what the channel shows of any states
/// in which all of them found these records.
pub fn looks_show_states()
    ensures { (site : SiteData) (channel : Channel) (atomic : Option Bool) (states : List RecState) (marks : List Mark) → length site.opening ≡ length states → AreFindings states channel (looks_of site channel atomic) marks → value_of site channel (laid_by site.opening marks) ≡ value_of site channel states }
{
    value_reads_records();
}

/// What a true look at all records found are the states of all records at its place, in order.
pub fn snapshots_show_their_place()
    ensures { (h : History) (at : ℕ) (found : List RecState) → length h.base.site.names ≡ length h.base.site.opening → IsTrueRead h at (channel_of Service 0) (all_records h.base.site) found → found ≡ state_at h at }
{}

/// An entry writes only records that it holds, be it that of a put or that of a put-get.
pub fn entries_write_inside()
    ensures puts { (site : SiteData) (states : List RecState) (moment : Moment) (actions : List (ℕ × Action)) (drove : List Bool) (writes : List (ℕ × RecState)) → AreProcessed site.configs states moment actions drove writes → IsTrue (list_all (λ write. list_any (λ rec. rec == write.0) (footprint_by site actions)) writes) }
    ensures put_gets { (site : SiteData) (states : List RecState) (moment : Moment) (actions : List (ℕ × Action)) (looked : List ℕ) (drove : List Bool) (writes : List (ℕ × RecState)) → AreProcessed site.configs states moment actions drove writes → IsTrue (list_all (λ write. list_any (λ rec. rec == write.0) (footprint_with site actions looked)) writes) }
{}

/// The records that a get reads and those that an entry holds stand in rising order, each once.
pub fn footprints_rise()
    ensures gets { (site : SiteData) (channel : Channel) → IsStrictlyIncreasing (footprint_of site channel) }
    ensures entries { (site : SiteData) (actions : List (ℕ × Action)) → IsStrictlyIncreasing (footprint_by site actions) }
    ensures put_gets { (site : SiteData) (actions : List (ℕ × Action)) (looked : List ℕ) → IsStrictlyIncreasing (footprint_with site actions looked) }
{}

/// A desk that isn't called adds no mark, and calls one after another add their marks one after another.
pub fn calls_in_turn()
    ensures nothing { (s : Seat) → IsLegal s.seen → Adds s s [] }
    ensures more { (a b c : Seat) (xs ys : List Mark) → Adds a b xs → Adds b c ys → Adds a c (xs ++ ys) }
{}

/// As a history grows its states and their weights stay, and so does the truth of the marks.
pub fn truth_lasts()
    ensures states { (h k : History) → Begins h k → (at : ℕ) → at ≤ length (entries h) → state_at k at ≡ state_at h at }
    ensures weights { (h k : History) → Begins h k → (at : ℕ) → at ≤ length (entries h) → kept_at k at ≡ kept_at h at }
    ensures marks { (h k : History) → Begins h k → (seat : ℕ) (before marks : List Mark) → AllHold seat h before marks → AllHold seat k before marks }
{}

/// What was handed out of a subscription and what is still queued fold to what it is shown, at each place from its last pop on.
/// Each subscription that ends is folded where it ends.
pub fn updates_fold()
    ensures living { (h : History) (seat : ℕ) (before marks : List Mark) → AllHold seat h before marks → (slot : ℕ) (l : Living) → living marks slot ≡ Some l → (n : ℕ) → PopsUpTo l n → IsFolded h l n }
    ensures ended { (h : History) (seat : ℕ) (before marks : List Mark) → AllHold seat h before marks → AllTrue (IsFoldedAtEnd h) [] marks }
{}

/// A living subscription began in the log, with its channel, its leaves and its size; the marks behind that tell its pops.
pub fn subscriptions_begin()
    ensures { (log : List Mark) (slot : ℕ) (l : Living) → living log slot ≡ Some l → BeganIn log slot l }
{}

/// A call that is none of subscriptions leaves what lives in each slot.
pub fn other_calls_leave_subscriptions()
    ensures gets { (slot : ℕ) (o : Option Living) (site : SiteData) (channel : Channel) (atomic : Option Bool) (result : Result PvValue NoMemory) (marks : List Mark) → AreGet site channel atomic result marks → living_after slot o marks ≡ o }
    ensures puts { (slot : ℕ) (o : Option Living) (a : Asked) (result : Result Done PutAnswer) (marks : List Mark) → ArePut a result marks → living_after slot o marks ≡ o }
    ensures put_gets { (slot : ℕ) (o : Option Living) (a : Asked) (result : Result (Done × PvValue) PutAnswer) (marks : List Mark) → ArePutGet a result marks → living_after slot o marks ≡ o }
    ensures snapshots { (slot : ℕ) (o : Option Living) (site : SiteData) (result : Result (Vec RecRow) NoMemory) (marks : List Mark) → AreSnapshot site result marks → living_after slot o marks ≡ o }
{}
