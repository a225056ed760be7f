// One case.
use crate::content::{Around, Expected, exact, push_bytes, push_lines};
use crate::names::Named;
use crate::numbers::{number_in, numbers_in};
use crate::script::turns_of;
use crate::words::push_words;
use crate::{CaseFault, Depth, Line};
use pva_outside::Turn;
use std::alloc::{AllocError, Global};

/// One entry of a case: its key, what stands behind the key, and the lines below.
#[derive(Clone, Copy, Debug)]
pub struct Entry<'a> {
    pub key: &'a str,
    /// What stands behind the key, in its line.
    pub rest: &'a str,
    /// The number of its line.
    pub line: u32,
    /// The lines that go on with it.
    pub more: &'a [Line<'a>],
}

/// The first word of a line, and what stands behind it.
pub(crate) fn first_word(text: &str) -> (&str, &str) {
    match text.split_once(' ') {
        Some((word, rest)) => (word, rest.trim_start()),
        None => (text, ""),
    }
}

impl<'a> Entry<'a> {
    /// An entry with what stands behind its first word as its key: `fails print 1` is an entry `fails`, and in it stands one `print` of 1.
    pub fn inner(self) -> Entry<'a> {
        let (key, rest) = first_word(self.rest);
        Entry { key, rest, ..self }
    }

    /// Its words.
    pub fn words(self, alloc: Global) -> Result<Vec<String>, CaseFault> {
        let mut words = Vec::new(alloc);
        push_words(alloc, self.rest, self.line, &mut words)?;
        for line in self.more {
            push_words(alloc, line.text, line.number, &mut words)?;
        }
        Ok(words)
    }

    /// Its one number.
    pub fn number(self) -> Result<u64, CaseFault> {
        number_in(self.rest, self.line)
    }

    /// Its numbers.
    pub fn numbers(self, alloc: Global) -> Result<Vec<u64>, CaseFault> {
        numbers_in(alloc, self.rest, self.line)
    }

    /// What each call of a link does in turn.
    pub fn script(self, alloc: Global) -> Result<Vec<Turn>, CaseFault> {
        turns_of(alloc, self.rest, self.line)
    }
}

/// Appends those of these entries that have this key.
fn push_those<'a>(
    entries: &[Entry<'a>],
    key: &str,
    those: &mut Vec<Entry<'a>>,
) -> Result<(), AllocError> {
    for entry in entries {
        if entry.key == key {
            those.push(*entry)?;
        }
    }
    Ok(())
}

/// A case: its title, and its entries, those that it shares with others among them.
#[derive(Drop)]
pub struct Case<'a> {
    pub title: &'a str,
    /// The number of its line.
    pub line: u32,
    pub entries: Vec<Entry<'a>>,
    pub(crate) names: &'a [Named<'a>],
}

impl<'a> Case<'a> {
    /// The first entry of this key.
    pub fn find(&self, key: &str) -> Option<Entry<'a>> {
        self.entries.iter().find(|entry| entry.key == key).copied()
    }

    /// The entries of this key.
    pub fn all(&self, alloc: Global, key: &str) -> Result<Vec<Entry<'a>>, AllocError> {
        let mut entries = Vec::new(alloc);
        push_those(&self.entries, key, &mut entries)?;
        Ok(entries)
    }

    /// The bytes or the text of an entry, of which some may be left open.
    pub fn content(&self, alloc: Global, entry: Entry<'_>) -> Result<Vec<Expected>, CaseFault> {
        let around = Around {
            names: self.names,
            number: None,
        };
        let mut content = Vec::new(alloc);
        push_bytes(alloc, around, entry.rest, entry.line, &mut content)?;
        push_lines(alloc, around, entry.more, &mut content)?;
        Ok(content)
    }

    /// The bytes or the text of an entry.
    pub fn bytes(&self, alloc: Global, entry: Entry<'_>) -> Result<Vec<u8>, CaseFault> {
        let content = self.content(alloc, entry)?;
        exact(alloc, &content, entry.line)
    }

    /// What is expected under this key: nothing where it has no entry.
    pub fn expected(&self, alloc: Global, key: &str) -> Result<Vec<Expected>, CaseFault> {
        match self.find(key) {
            Some(entry) => self.content(alloc, entry),
            None => Ok(Vec::new(alloc)),
        }
    }

    /// The bytes under this key: none where it has no entry.
    pub fn input(&self, alloc: Global, key: &str) -> Result<Vec<u8>, CaseFault> {
        match self.find(key) {
            Some(entry) => self.bytes(alloc, entry),
            None => Ok(Vec::new(alloc)),
        }
    }
}

/// The lines before the first that is at this depth, or at the margin.
fn lines_before<'a>(lines: &'a [Line<'a>], depth: Depth) -> &'a [Line<'a>] {
    let end = lines
        .iter()
        .position(|line| line.depth == depth || line.depth == Depth::Margin)
        .unwrap_or(lines.len());
    &lines[..end]
}

/// The lines of a paragraph, of those behind its first line.
pub(crate) fn paragraph_lines<'a>(lines: &'a [Line<'a>]) -> &'a [Line<'a>] {
    lines_before(lines, Depth::Margin)
}

/// The entry that a line begins, with what goes on with it of the lines behind it.
fn entry_of<'a>(line: &Line<'a>, after: &'a [Line<'a>]) -> Entry<'a> {
    let (key, rest) = first_word(line.text);
    Entry {
        key,
        rest,
        line: line.number,
        more: lines_before(after, Depth::Key),
    }
}

/// Appends the entries of these lines, of which the first begins one in any case.
pub(crate) fn push_entries<'a>(
    lines: &'a [Line<'a>],
    entries: &mut Vec<Entry<'a>>,
) -> Result<(), CaseFault> {
    for (place, line) in lines.iter().enumerate() {
        if place == 0 || line.depth == Depth::Key {
            entries.push(entry_of(line, &lines[place + 1..]))?;
        }
    }
    Ok(())
}
