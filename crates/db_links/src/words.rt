// The words of a link's text.
ghost use Rattle.std.specs.Prelude.{◌≡◌, ◌++◌, map, codes, IfOk, OnOk};
ghost use Rattle.std.specs.List.{list_any};
ghost use Rattle.std.specs.Option.{option_copied};
ghost use Rattle.std.specs.Str.{bytes_eq};
ghost use Rattle.db_links.specs.Words.{is_blank, word_of, words, before};

use pvd_type::NoMemory;
use std::alloc::Global;

/// Whether a byte is a blank: a space or a tab.
fn is_blank(byte: u8) -> bool
    ensures { result ≡ is_blank byte }
{
    matches!(byte, b' ' | b'\t')
}

/// The words of a text, which blanks divide.
pub(crate) fn words(alloc: Global, text: &[u8]) -> Result<Vec<&[u8]>, NoMemory>
    ensures { IfOk result (λ found. map (λ word. word.now) found.items ≡ words text.now) }
{
    let mut found = Vec::new(alloc);
    let mut start = 0;
    'bytes: for (place, byte) in text.iter().enumerate() {
        if !is_blank(*byte) {
            continue 'bytes;
        }
        add_word(&mut found, &text[start..place])?;
        start = place + 1;
    }
    add_word(&mut found, &text[start..])?;
    Ok(found)
}

/// Adds what stands between two blanks, if anything does.
fn add_word<'a>(found: &mut Vec<&'a [u8]>, word: &'a [u8]) -> Result<(), NoMemory>
    ensures { OnOk result (map (λ w. w.now) found.new.items ≡ map (λ w. w.now) found.old.items ++ word_of word.now) }
{
    if !word.is_empty() {
        found.push(word)?;
    }
    Ok(())
}

/// Whether one of the words is `PP`.
pub(crate) fn has_pp(words: &[&[u8]]) -> bool
    ensures { result ≡ list_any (λ w. bytes_eq w (codes "PP")) (map (λ word. word.now) words.now) }
{
    for word in words {
        if *word == b"PP".as_slice() {
            return true;
        }
    }
    false
}

/// What stands in a word before an ending.
pub(crate) fn before<'a>(ending: &[u8], word: &'a [u8]) -> Option<&'a [u8]>
    ensures { option_copied result ≡ before ending.now word.now }
{
    word.strip_suffix(ending)
}
