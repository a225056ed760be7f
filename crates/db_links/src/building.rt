// The live links of all records of a text.
ghost use Rattle.std.specs.Prelude.{◌≡◌, ◌<◌, ◌^◌, ℕ, List, Option, length, map, IfOk};
ghost use Rattle.std.specs.Option.{option_copied};
ghost use Rattle.rec_kinds.specs.declared.record_text.RecText.{RecText};
ghost use Rattle.db_links.specs.Live.{target_named, link_of, link_in, links_in, links_of};
ghost use Rattle.db_links.specs.Numbered.{AreNumbers};

use crate::fields::{flnk_text, inp_text, out_text};
use crate::link::{Link, Links, RecordLinks};
use crate::numbers::{Numbers, numbers_of, target_named};
use crate::words::{has_pp, words};
use pvd_type::NoMemory;
use rec_kinds::RecText;
use std::alloc::Global;

impl Links {
    /// The live links of these records.
    pub fn build(alloc: Global, records: &[RecText]) -> Result<Links, NoMemory>
        requires few { length records.now < 2 ^ 32 }
        ensures { IfOk result (λ links. links ≡ links_of records.now) }
    {
        let numbers = numbers_of(alloc, records)?;
        Ok(Links {
            by_record: links_of(alloc, &numbers, records)?,
        })
    }
}

/// The live links of each record.
fn links_of(
    alloc: Global,
    numbers: &Numbers,
    records: &[RecText],
) -> Result<Vec<RecordLinks>, NoMemory>
    requires named { AreNumbers records.now numbers.now }
    ensures { IfOk result (λ links. links.items ≡ links_of records.now) }
{
    let mut links = Vec::with_capacity(alloc, records.len())?;
    for rec in records {
        links.push(links_in(alloc, numbers, rec)?)?;
    }
    Ok(links)
}

/// The live links of a record.
fn links_in(alloc: Global, numbers: &Numbers, rec: &RecText) -> Result<RecordLinks, NoMemory>
    ensures { IfOk result (λ links. (records : List RecText) → AreNumbers records numbers.now → links ≡ links_in records rec.now) }
{
    Ok(RecordLinks {
        inp: link_in(alloc, numbers, false, inp_text(rec))?,
        out: link_in(alloc, numbers, false, out_text(rec))?,
        flnk: link_in(alloc, numbers, true, flnk_text(rec))?,
    })
}

/// The live link that a text is. `proc` says whether `.PROC` may stand behind the record's name.
fn link_in(
    alloc: Global,
    numbers: &Numbers,
    proc: bool,
    text: Option<&str>,
) -> Result<Option<Link>, NoMemory>
    ensures { IfOk result (λ link. (records : List RecText) → AreNumbers records numbers.now → link ≡ link_in (target_named records proc) (option_copied text.entry)) }
{
    let Some(text) = text else {
        return Ok(None);
    };
    let words = words(alloc, text.as_bytes())?;
    Ok(link_of(numbers, proc, &words))
}

/// The live link that words are.
fn link_of(numbers: &Numbers, proc: bool, words: &[&[u8]]) -> Option<Link>
    ensures { (records : List RecText) → AreNumbers records numbers.now → result ≡ link_of (target_named records proc) (map (λ word. word.now) words.now) }
{
    let (first, others) = words.split_first()?;
    let target = target_named(numbers, proc, first)?;
    let processes = has_pp(others);
    Some(Link { target, processes })
}
