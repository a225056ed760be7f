ghost use Rattle.std.specs.Prelude.{◌≡◌, ◌<◌, ◌≤◌, ◌+◌, ◌^◌, None, Some, IfOk, OnOk, IsSome, max};
ghost use Rattle.std.specs.Option.{option_copied};
ghost use Rattle.std.specs.Borrow.{sem};
ghost use Rattle.std.specs.FinMap as map;
ghost use Rattle.chan_table.specs.Kept.{with_value};
ghost use Rattle.chan_table.specs.Numbers.{IsLeastAbsent, IsNextFrom};

use crate::index::Index;
use pvd_type::NoMemory;
use slab::Slab;
use std::alloc::Global;
use std::marker::Model;

/// Values by their numbers: they lie in a slab, and an index has the slab's key of each number.
///
/// A look-up takes as many steps as the number of values has bits.
#[derive(Drop)]
pub(crate) struct Directory<V> {
    keys: Index<u32, usize>,
    values: Slab<V>,
    // how many values fit for which memory was taken
    room: usize,
}

impl<V> Model for Directory<V> {
    ghost use Rattle.std.specs.Prelude.{vec_capacity};
    ghost use Rattle.chan_table.specs.Kept.{Kept, kept_code, gathered, IsSound};

    ghost Value = { Kept V };

    ghost coded = { kept_code V.code };

    ghost view = { λ a. record { values = gathered a.keys.entries.items a.values; room = a.room } };

    ghost invariant = { λ a. IsSound a.keys.entries.items a.values a.room (vec_capacity a.keys.entries) };
}

impl<V> Directory<V> {
    ghost use Rattle.chan_table.specs.Lends.{lends_value};

    /// A directory without values that has room for so many.
    pub(crate) fn with_room(alloc: Global, room: usize) -> Result<Directory<V>, NoMemory>
        ensures { IfOk result (λ d. d ≡ record { values = map.empty; room = room }) }
    {
        let keys = Index::with_capacity(alloc, room)?;
        let values = Slab::with_capacity(alloc, room)?;
        Ok(Directory { keys, values, room })
    }

    /// How many values it has.
    pub(crate) fn len(&self) -> usize
        ensures len { result ≡ map.len self.now.values }
        ensures fits { result ≤ self.now.room }
    {
        self.keys.len()
    }

    /// Whether a number has a value.
    pub(crate) fn contains(&self, number: u32) -> bool
        ensures { result ≡ map.contains_key self.now.values number }
    {
        self.keys.get(number).is_some()
    }

    /// The value of a number. Where there is no gap in the numbers from 0 on each stands at its own place, and is found at once.
    pub(crate) fn get(&self, number: u32) -> Option<&V>
        ensures { option_copied result ≡ map.get self.now.values number }
    {
        let mut near = number as usize;
        self.get_near(&mut near, number)
    }

    /// The value of a number, which is looked for first at the places from `near` on. `near` is then its place.
    pub(crate) fn get_near(&self, near: &mut usize, number: u32) -> Option<&V>
        ensures { option_copied result ≡ map.get self.now.values number }
    {
        let (key, place) = self.keys.get_near(*near, number);
        *near = place;
        match key {
            Some(key) => self.values.get(key),
            None => None,
        }
    }

    /// The value of a number that has one, for writing.
    pub(crate) fn value_mut(&mut self, number: u32) -> &mut V
        requires { IsSome (map.get self.old.values number) }
        ensures* writes_back { sem 𝓛 (lends_value V.row self.entry number result) }
        ensures value { map.get self.old.values number ≡ Some result.now }
    {
        match self.keys.get(number) {
            Some(key) => &mut self.values[key],
            None => unreachable!(),
        }
    }

    /// Takes the memory for one value more. Without memory the values stay as they were.
    pub(crate) fn reserve(&mut self) -> Result<(), NoMemory>
        ensures values { self.new.values ≡ self.old.values }
        ensures room { OnOk result (map.len self.new.values < self.new.room) }
        ensures keeps { self.old.room ≤ self.new.room }
        ensures little { self.new.room ≤ max self.old.room (map.len self.old.values + 1) }
    {
        let wanted = self.keys.len() + 1;
        if wanted <= self.room {
            return Ok(());
        }
        self.keys.reserve()?;
        self.values.reserve(1)?;
        self.room = wanted;
        Ok(())
    }

    /// Puts in a value under a number that has none. There is room for it.
    pub(crate) fn insert(&mut self, number: u32, value: V)
        requires absent { map.get self.old.values number ≡ None }
        requires room { map.len self.old.values < self.old.room }
        ensures { self.new ≡ with_value self.old number value }
    {
        let key = self.values.insert_reserved(value);
        self.keys.insert(number, key);
    }

    /// Takes out the value of a number.
    pub(crate) fn remove(&mut self, number: u32) -> Option<V>
        ensures value { result ≡ map.get self.old.values number }
        ensures rest { self.new ≡ record self.old { values = map.remove self.old.values number } }
    {
        match self.keys.remove(number) {
            Some(key) => Some(self.values.remove(key)),
            None => None,
        }
    }

    /// The least number at or above `from` that has a value.
    pub(crate) fn first_from(&self, from: u32) -> Option<u32>
        ensures { IsNextFrom (map.get self.now.values) from result }
    {
        match self.keys.first_from(from) {
            Some(entry) => Some(entry.0),
            None => None,
        }
    }

    /// The least number that has no value.
    pub(crate) fn least_absent(&self) -> u32
        requires { map.len self.now.values < 2 ^ 32 }
        ensures { IsLeastAbsent (map.get self.now.values) result }
    {
        self.keys.least_absent()
    }
}
