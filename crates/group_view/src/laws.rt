// Laws of the definitions, as contracts of functions that do nothing.
ghost use Rattle.std.specs.Prelude.{◌≡◌, ℕ, List};
ghost use Rattle.std.specs.FinSet.{FinSet};
ghost use Rattle.std.specs.Ordering.{nat_cmp};
ghost use Rattle.rec_kinds.specs.Configs.{Config};
ghost use Rattle.rec_kinds.specs.declared.state.RecState.{RecState};
ghost use Rattle.group_view.specs.Groups.{GroupData, AreConfigured, AreReady, IsOver};
ghost use Rattle.group_view.specs.Leaves.{triggered, footprint};
ghost use Rattle.group_view.specs.Views.{part_shown, IsReadyFor};
ghost use Rattle.group_view.specs.Laws.{ReadsRecords, ReadsFootprint, Agree, IsWithin, PartsReadFootprint, FootprintMakesReady};

/// What a group shows depends on the states of its own records alone.
pub fn value_reads_records()
    ensures { (g : GroupData) → ReadsRecords g }
{}

/// What a group shows under the leaves that a record triggers depends on the states of that record's footprint alone.
pub fn value_reads_footprint()
    ensures { (g : GroupData) (rec : ℕ) → ReadsFootprint g rec }
{}

/// A group over records that are so configured can be viewed where each of these has a state that it may be in.
pub fn valid_states_are_ready()
    ensures { (configs : List Config) (states : List RecState) (g : GroupData) → IsOver configs g → AreConfigured configs states → AreReady states g }
{}

/// A group that can be viewed can be viewed under any mask.
pub fn ready_groups_are_ready_for_parts()
    ensures { (mask : FinSet nat_cmp) (states : List RecState) (g : GroupData) → AreReady states g → IsReadyFor mask states g }
{}

/// Of leaves that a record triggers, the values that the group shows depend on the states of that record's footprint alone, over
/// whatever value they are written: what the other records' states are doesn't matter, nor whether they have any.
pub fn parts_read_footprint()
    ensures over { (g : GroupData) (rec : ℕ) → PartsReadFootprint g rec }
    ensures blank { (g : GroupData) (rec : ℕ) (mask : FinSet nat_cmp) (a b : List RecState) → IsWithin mask (triggered g rec) → Agree (footprint g rec) a b → part_shown g mask a ≡ part_shown g mask b }
{}

/// A group over records that are so configured can be viewed under any leaves that a record triggers, where the records of its
/// footprint have states that they may be in.
pub fn footprint_makes_parts_ready()
    ensures { (g : GroupData) (rec : ℕ) → FootprintMakesReady g rec }
{}
