// Records by their names.
ghost use Rattle.std.specs.Prelude.{◌≡◌, ◌<◌, ◌^◌, ℕ, List, length, codes, IfOk, IfSome};
ghost use Rattle.db_links.specs.Live.{number_of, number_before, value_of, target_named};
ghost use Rattle.rec_kinds.specs.declared.record_text.RecText.{RecText};
ghost use Rattle.db_links.specs.Numbered.{number_in, AreNumbers};

use crate::words::before;
use pvd_type::NoMemory;
use rec_kinds::RecText;
use std::alloc::Global;
use std::collections::BTreeMap;

/// The numbers of records, by their names.
pub(crate) type Numbers<'a> = BTreeMap<&'a [u8], u32>;

/// The numbers of these records. Of a name that stands twice it is the first that counts.
pub(crate) fn numbers_of<'a>(alloc: Global, records: &'a [RecText]) -> Result<Numbers<'a>, NoMemory>
    requires few { length records.now < 2 ^ 32 }
    ensures { IfOk result (λ numbers. AreNumbers records.now numbers) }
{
    let mut numbers = BTreeMap::new(alloc);
    for number in (0..records.len()).rev() {
        let rec = &records[number];
        numbers.insert(rec.name.as_str().as_bytes(), number as u32)?;
    }
    Ok(numbers)
}

/// The record that a word names.
fn named(numbers: &Numbers, word: &[u8]) -> Option<u32>
    ensures { result ≡ number_in numbers.now word.now }
{
    numbers.get(word).copied()
}

/// The record that a word names before an ending.
fn named_before(numbers: &Numbers, ending: &[u8], word: &[u8]) -> Option<u32>
    ensures { (records : List RecText) → AreNumbers records numbers.now → result ≡ number_before records ending.now word.now }
{
    match before(ending, word) {
        Some(name) => named(numbers, name),
        None => None,
    }
}

/// The record whose value a word names: by its name alone or with `.VAL`.
fn value_named(numbers: &Numbers, word: &[u8]) -> Option<u32>
    ensures { (records : List RecText) → AreNumbers records numbers.now → result ≡ value_of records word.now }
{
    let alone = named(numbers, word);
    let with_val = named_before(numbers, b".VAL", word);
    alone.or(with_val)
}

/// The record that a word names. `proc` says whether `.PROC` may stand behind its name.
pub(crate) fn target_named(numbers: &Numbers, proc: bool, word: &[u8]) -> Option<u32>
    ensures { (records : List RecText) → AreNumbers records numbers.now → result ≡ target_named records proc word.now }
{
    let value = value_named(numbers, word);
    if !proc {
        return value;
    }
    value.or(named_before(numbers, b".PROC", word))
}
