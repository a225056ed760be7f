ghost use Rattle.std.specs.Prelude.{◌≡◌, ◌<◌, ◌≤◌, ◌+◌, ◌^◌, [], cond, is_some, None, Some, OnOk, IfOk, IfNone, IsTrue, vec_len, vec_capacity, slice_get};
ghost use Rattle.std.specs.Bool.{OnTrue};
ghost use Rattle.std.specs.Ordering.{eq_by_cmp, nat_cmp};
ghost use Rattle.std.specs.FinMap.{find, is_sorted};
ghost use Rattle.chan_table.specs.Index.{place as place_of, IsFirstFrom};
ghost use Rattle.chan_table.specs.Numbers.{IsLeastAbsent};

use std::alloc::{AllocError, Global};

/// How many places are looked at from a hint on before the list is searched.
const NEAR: usize = 4;

/// Values by their keys, in the rising order of the keys.
///
/// A look-up takes as many steps as the number of entries has bits. An entry that comes or goes moves those behind it,
/// which lie side by side.
#[derive(Drop)]
pub(crate) struct Index<K: Ord, V> {
    pub(crate) entries: Vec<(K, V)>,
    ghost sorted: { IsTrue (is_sorted K.cmp entries.items) },
}

impl<K: Ord + Copy, V: Copy> Index<K, V> {
    /// An index without entries that has room for so many.
    pub(crate) fn with_capacity(alloc: Global, capacity: usize) -> Result<Index<K, V>, AllocError>
        ensures empty { IfOk result (λ x. x.entries.items ≡ []) }
        ensures room { IfOk result (λ x. capacity ≤ vec_capacity x.entries) }
    {
        let entries = Vec::with_capacity(alloc, capacity)?;
        Ok(Index { entries })
    }

    /// How many entries it has.
    pub(crate) fn len(&self) -> usize
        ensures { result ≡ vec_len self.now.entries }
    {
        self.entries.len()
    }

    /// How many keys are below this one: the place of its entry, if it has one.
    fn place_of(&self, key: K) -> usize
        ensures { result ≡ place_of K.cmp key self.now.entries.items }
    {
        self.entries
            .as_slice()
            .partition_point(|entry| entry.0.cmp(&key).is_lt())
    }

    /// The same, where the key is looked for first at the places from `near` on.
    fn place_near(&self, near: usize, key: K) -> usize
        ensures { result ≡ place_of K.cmp key self.now.entries.items }
    {
        for place in near..near.saturating_add(NEAR) {
            if self.stands_at(place, key) {
                return place;
            }
        }
        self.place_of(key)
    }

    /// Whether a key has its entry at this place.
    fn stands_at(&self, place: usize, key: K) -> bool
        ensures { OnTrue result (place ≡ place_of K.cmp key self.now.entries.items) }
    {
        match self.entry_at(place) {
            Some(entry) => key.cmp(&entry.0).is_eq(),
            None => false,
        }
    }

    /// The entry at a place, if there are so many.
    fn entry_at(&self, place: usize) -> Option<(K, V)>
        ensures { result ≡ slice_get self.now.entries.items place }
    {
        self.entries.as_slice().get(place).copied()
    }

    /// The value of a key, whose entry stands at this place if it has one.
    fn value_at(&self, place: usize, key: K) -> Option<V>
        requires { place ≡ place_of K.cmp key self.now.entries.items }
        ensures { result ≡ find K.cmp key self.now.entries.items }
    {
        let Some(entry) = self.entry_at(place) else {
            return None;
        };
        if key.cmp(&entry.0).is_eq() {
            Some(entry.1)
        } else {
            None
        }
    }

    /// The value of a key.
    pub(crate) fn get(&self, key: K) -> Option<V>
        ensures { result ≡ find K.cmp key self.now.entries.items }
    {
        self.value_at(self.place_of(key), key)
    }

    /// The value of a key, which is looked for first at the places from `near` on. The place where it is, or would be, is
    /// told too.
    pub(crate) fn get_near(&self, near: usize, key: K) -> (Option<V>, usize)
        ensures { result.0 ≡ find K.cmp key self.now.entries.items }
    {
        let place = self.place_near(near, key);
        (self.value_at(place, key), place)
    }

    /// The entry with the least key that isn't below `from`.
    pub(crate) fn first_from(&self, from: K) -> Option<(K, V)>
        ensures { IsFirstFrom K.cmp self.now.entries.items from result }
    {
        self.entry_at(self.place_of(from))
    }

    /// Makes room for one entry more.
    pub(crate) fn reserve(&mut self) -> Result<(), AllocError>
        ensures entries { self.new.entries.items ≡ self.old.entries.items }
        ensures len { vec_len self.new.entries ≡ vec_len self.old.entries }
        ensures room { OnOk result (vec_len self.new.entries < vec_capacity self.new.entries) }
        ensures capacity { vec_capacity self.old.entries ≤ vec_capacity self.new.entries }
    {
        self.entries.reserve(1)
    }

    /// Puts in an entry for a key that has none. There is room for it.
    pub(crate) fn insert(&mut self, key: K, value: V)
        requires absent { find K.cmp key self.old.entries.items ≡ None }
        requires room { vec_len self.old.entries < vec_capacity self.old.entries }
        ensures finds { (q : K) → find K.cmp q self.new.entries.items
            ≡ cond (eq_by_cmp K.cmp q key) (Some value) (find K.cmp q self.old.entries.items) }
        ensures len { vec_len self.new.entries ≡ vec_len self.old.entries + 1 }
        ensures capacity { vec_capacity self.new.entries ≡ vec_capacity self.old.entries }
    {
        let place = self.place_of(key);
        match self.entries.insert(place, (key, value)) {
            Ok(()) => {}
            Err(_) => unreachable!(),
        }
    }

    /// Takes out the entry of a key, and gives its value.
    pub(crate) fn remove(&mut self, key: K) -> Option<V>
        ensures value { result ≡ find K.cmp key self.old.entries.items }
        ensures finds { (q : K) → find K.cmp q self.new.entries.items
            ≡ cond (eq_by_cmp K.cmp q key) None (find K.cmp q self.old.entries.items) }
        ensures len { vec_len self.new.entries + cond (is_some result) 1 0 ≡ vec_len self.old.entries }
        ensures none { IfNone result (self.new.entries.items ≡ self.old.entries.items) }
        ensures capacity { vec_capacity self.new.entries ≡ vec_capacity self.old.entries }
    {
        let place = self.place_of(key);
        match self.value_at(place, key) {
            Some(value) => {
                self.entries.remove(place);
                Some(value)
            }
            None => None,
        }
    }
}

impl<V: Copy> Index<u32, V> {
    /// The least number that is no key.
    pub(crate) fn least_absent(&self) -> u32
        requires { vec_len self.now.entries < 2 ^ 32 }
        ensures { IsLeastAbsent (λ q. find nat_cmp q self.now.entries.items) result }
    {
        // up to some place each key is its place, and from there on greater
        let mut low = 0;
        let mut high = self.entries.len();
        while low < high {
            let middle = low + (high - low) / 2;
            if self.entries[middle].0 as usize == middle {
                low = middle + 1;
            } else {
                high = middle;
            }
        }
        low as u32
    }
}
