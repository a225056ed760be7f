// The history.
ghost use Rattle.std.specs.Prelude.{◌≡◌, ◌<◌, ◌≤◌, ◌+◌, ◌^◌, [], ◌∷◌, ◌++◌, length, IfOk, OnOk, OnErr, List};
ghost use Rattle.journal_core.specs.Weights.{weight as weight_of};
ghost use Rattle.journal_core.specs.Histories.{state_at, kept as kept_by, WritesWithin};
ghost use Rattle.journal_core.specs.Legality.{IsLegalEntry, IsLegal};
ghost use Rattle.rec_kinds.specs.Configs.{Config};

use crate::entry::{Entry, weight};
use crate::replay::{copy_of, replay};
use rec_kinds::{NoMemory, RecState};
use std::alloc::Global;
use std::marker::Model;

/// The states that the records open with, and the entries in the order of their commits.
///
/// A contract sees both lists, and for how many more entries there is room.
#[derive(Drop)]
pub struct History {
    opening: Vec<RecState>,
    entries: Vec<Entry>,
    kept: u64,
}

impl Model for History {
    ghost use Rattle.std.specs.Prelude.{◌-◌, vec_len, vec_capacity};
    ghost use Rattle.journal_core.specs.Histories.{Journal, IsKept};

    ghost Value = { Journal };

    ghost view = { λ h. record { opening = h.opening.items; entries = h.entries.items; room = vec_capacity h.entries - vec_len h.entries } };

    ghost invariant = { λ h. IsKept h.opening.items h.entries.items h.kept };
}

impl History {
    /// The history of records that open with these states. It has no entry yet. A record's number is its place in the list.
    pub fn new(alloc: Global, states: Vec<RecState>) -> History
        ensures opening { result.opening ≡ states.items }
        ensures entries { result.entries ≡ [] }
    {
        History {
            opening: states,
            entries: Vec::new(alloc),
            kept: 0,
        }
    }

    /// The number of entries.
    pub fn len(&self) -> u64
        ensures { result ≡ length self.now.entries }
    {
        self.entries.len() as u64
    }

    /// What the entries weigh together.
    pub fn kept(&self) -> u64
        ensures { result ≡ kept_by self.now.entries }
    {
        self.kept
    }

    /// Takes the memory of one more entry.
    pub fn reserve(&mut self) -> Result<(), NoMemory>
        ensures opening { self.new.opening ≡ self.old.opening }
        ensures entries { self.new.entries ≡ self.old.entries }
        ensures ok { OnOk result (0 < self.new.room) }
        ensures err { OnErr result (self.new ≡ self.old) }
    {
        self.entries.reserve(1)?;
        Ok(())
    }

    /// Adds an entry at the end. It takes no memory and can't fail.
    pub fn push(&mut self, entry: Entry)
        requires room { 0 < self.old.room }
        requires weight { kept_by self.old.entries + weight_of entry < 2 ^ 64 }
        requires within { WritesWithin (length self.old.opening) entry.writes }
        ensures opening { self.new.opening ≡ self.old.opening }
        ensures entries { self.new.entries ≡ self.old.entries ++ entry ∷ [] }
        ensures room { self.new.room + 1 ≡ self.old.room }
        ensures legal { (configs : List Config) → IsLegal configs self.old.opening self.old.entries → IsLegalEntry configs (state_at self.old.opening self.old.entries (length self.old.entries)) entry → IsLegal configs self.new.opening self.new.entries }
    {
        self.kept += weight(&entry);
        self.entries.push_reserved(entry);
    }

    /// The states of all records after the first `place` entries.
    pub fn state_at(&self, alloc: Global, place: u64) -> Result<Vec<RecState>, NoMemory>
        requires { place ≤ length self.now.entries }
        ensures { IfOk result (λ states. states.items ≡ state_at self.now.opening self.now.entries place) }
    {
        let mut states = copy_of(alloc, &self.opening)?;
        replay(alloc, &mut states, &self.entries[..place as usize])?;
        Ok(states)
    }
}
