ghost use Rattle.std.specs.Prelude.{◌≡◌, ◌<◌, ◌^◌, length};
ghost use Rattle.db_text.specs.Cutting.{cut};
ghost use Rattle.db_load.specs.Loading.{text_fault, counted, behind, loaded_cut, last_line, IsLoaded, Loads};

use crate::fault::{FormStop, LoadFault};
use crate::records::records_at;
use db_text::{TextFault, cut, expand};
use pvd_type::Name;
use rec_kinds::RecText;
use std::alloc::Global;

/// The most records that a text may have.
const MOST: usize = 4000;

/// A fault of a text as one of its loading.
fn text_fault(fault: TextFault) -> LoadFault
    ensures { result ≡ text_fault fault }
{
    match fault {
        TextFault::NoMemory => LoadFault::NoMemory,
        TextFault::BadToken(line) => LoadFault::Text(TextFault::BadToken(line)),
        TextFault::OpenString(line) => LoadFault::Text(TextFault::OpenString(line)),
        TextFault::UnknownMacro(name, line) => {
            LoadFault::Text(TextFault::UnknownMacro(name, line))
        }
        TextFault::MacroDepth(line) => LoadFault::Text(TextFault::MacroDepth(line)),
    }
}

/// The records, if there are as many as a text may have.
fn counted(records: Vec<RecText>) -> Result<Vec<RecText>, LoadFault>
    ensures { IsLoaded result (counted records.items) }
{
    let count = records.len();
    if count == 0 {
        return Err(LoadFault::Count(0));
    }
    if count > MOST {
        return Err(LoadFault::Count(count));
    }
    Ok(records)
}

/// The line of a text's last byte.
fn last_line(text: &[u8]) -> u32
    requires { length text.now < 2 ^ 32 }
    ensures { result ≡ last_line text.now }
{
    let before = &text[..text.len().saturating_sub(1)];
    let ends = before.iter().filter(|byte| **byte == b'\n').count();
    ends as u32 + 1
}

/// What was found, unless the text has a fault behind it.
fn behind(
    stop: Option<TextFault>,
    found: Result<Vec<RecText>, LoadFault>,
) -> Result<Vec<RecText>, LoadFault>
    ensures { result ≡ behind stop found }
{
    match stop {
        Some(fault) => Err(text_fault(fault)),
        None => found,
    }
}

/// The records of a text whose macros are replaced. The text as given ends on this line.
fn loaded_cut(alloc: Global, end: u32, plain: &str) -> Result<Vec<RecText>, LoadFault>
    ensures { IsLoaded result (loaded_cut end (cut plain.now)) }
{
    let (tokens, stop) = cut(alloc, plain)?;
    match records_at(alloc, &tokens) {
        Ok(records) => behind(stop, counted(records)),
        Err(failed) => match failed {
            FormStop::Fault(fault) => Err(fault),
            FormStop::Short => behind(stop, Err(LoadFault::BadForm(end))),
        },
    }
}

/// The records of a database text with these macros, of which values hold no line feed; of two values
/// of one macro the later counts (EPICS IOC Application Developer's Guide, "Database Definition").
/// All macros come first, then tokens and forms from left to right, where an unknown kind or field is told
/// as soon as its name is read; then Count, where there are no records or more than 4,000. A field that a
/// record gives twice is given once, by its last text and at its last place.
pub fn read_records(
    alloc: Global,
    text: &str,
    macros: &[(Name, Name)],
) -> Result<Vec<RecText>, LoadFault>
    ensures exact { Loads macros.now text.now result }
{
    let bytes = text.as_bytes();
    if bytes.len() > u32::MAX as usize {
        return Err(LoadFault::NoMemory);
    }
    match expand(alloc, text, macros) {
        Ok(plain) => loaded_cut(alloc, last_line(bytes), plain.as_str()),
        Err(fault) => Err(text_fault(fault)),
    }
}
