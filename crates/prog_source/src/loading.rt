// The site of SOURCE.
ghost use Rattle.std.specs.Prelude.{◌≡◌, ◌<◌, ◌+◌, ◌^◌, IsTrue, IsUtf8, length};
ghost use Rattle.desk_api.specs.Sites.{is_record_name};
ghost use Rattle.prog_source.specs.Opening.{BytesGive, Opens, IsSingleSite, bad_byte, line_after, stop_at};
ghost use Rattle.prog_source.specs.Words.{IsNamed, file, source_of};

use crate::source::Source;
use db_load::LoadFault;
use db_text::TextFault;
use desk_api::{Site, SiteFault};
use pva_outside::{FileStep, Files};
use pvd_type::Name;
use std::alloc::Global;

/// Why SOURCE gives no site.
#[derive(Debug, Drop)]
pub enum SourceStop {
    /// Its file can't be read.
    Unread,
    /// Its text is at fault.
    Fault(SiteFault),
    /// Memory ran out.
    NoMemory,
}

/// The line on which the next byte stands, behind these.
fn line_after(bytes: &[u8]) -> u32
    requires { length bytes.now + 1 < 2 ^ 32 }
    ensures { result ≡ line_after bytes.now }
{
    let ends = bytes.iter().filter(|byte| **byte == b'\n').count();
    ends as u32 + 1
}

/// The fault of bytes that are UTF-8 up to this place.
fn bad_byte(bytes: &[u8], at: usize) -> SiteFault
    requires few { length bytes.now < 2 ^ 32 }
    requires within { at < length bytes.now }
    ensures { result ≡ bad_byte bytes.now at }
{
    SiteFault::Load(LoadFault::Text(TextFault::BadToken(line_after(&bytes[..at]))))
}

/// The site of a database text.
#[tactic(auto, using(crate::proofs::Opened::built, crate::proofs::Opened::unbuilt))]
fn site_of_text(alloc: Global, text: &str, macros: &[(Name, Name)]) -> Result<Site, SourceStop>
    ensures { BytesGive macros.now text.now result }
{
    text_is_utf8(text);
    match Site::build(alloc, text, macros) {
        Ok(site) => Ok(site),
        Err(fault) => Err(stop_at(fault)),
    }
}

/// Nothing is done. It tells that a text is UTF-8.
fn text_is_utf8(text: &str)
    ensures { IsUtf8 text.now }
{
    let _ = text.as_bytes();
}

/// The site of a database text in bytes. Those that aren't UTF-8 are at fault on the line of the first byte that isn't.
#[tactic(auto, using(crate::proofs::Opened::no_text))]
fn site_of_bytes(alloc: Global, bytes: &[u8], macros: &[(Name, Name)]) -> Result<Site, SourceStop>
    ensures { BytesGive macros.now bytes.now result }
{
    if bytes.len() > u32::MAX as usize {
        return Err(SourceStop::NoMemory);
    }
    match str::from_utf8(bytes) {
        Ok(text) => site_of_text(alloc, text, macros),
        Err(error) => Err(SourceStop::Fault(bad_byte(bytes, error.valid_up_to()))),
    }
}

/// What a site that can't be built for this fault comes to.
fn stop_at(fault: SiteFault) -> SourceStop
    ensures { result ≡ stop_at fault }
{
    match fault {
        SiteFault::NoMemory => SourceStop::NoMemory,
        fault => SourceStop::Fault(fault),
    }
}

/// The site of one longout.
fn site_of_record(alloc: Global, name: &str, value: i32) -> Result<Site, SourceStop>
    requires { IsTrue (is_record_name name.now) }
    ensures { IsSingleSite name.now value result }
{
    match Site::single(alloc, name, value) {
        Ok(site) => Ok(site),
        Err(_) => Err(SourceStop::NoMemory),
    }
}

/// The site of the database text in a file.
#[tactic(auto, using(crate::proofs::Opened::file_gives))]
fn site_of_file<F: Files>(
    alloc: Global,
    name: &str,
    macros: &[(Name, Name)],
    files: &mut F,
) -> Result<Site, SourceStop>
    ensures { Opens macros.now (file name.now) (F.files files.old) (F.files files.new) result }
{
    match files.read(alloc, name) {
        FileStep::Got(bytes) => site_of_bytes(alloc, &bytes, macros),
        FileStep::Failed => Err(SourceStop::Unread),
        FileStep::NoMemory => Err(SourceStop::NoMemory),
    }
}

/// The site of a source with these macros. Where it is a file, the file is asked for once, and otherwise none.
#[tactic(auto, using(crate::proofs::Opened::single_opens))]
pub fn read_site<F: Files>(
    alloc: Global,
    source: Source<'_>,
    macros: &[(Name, Name)],
    files: &mut F,
) -> Result<Site, SourceStop>
    requires { IsNamed (source_of source) }
    ensures { Opens macros.now (source_of source.entry) (F.files files.old) (F.files files.new) result }
{
    match source {
        Source::Record(name, value) => site_of_record(alloc, name, value),
        Source::File(name) => site_of_file(alloc, name, macros, files),
    }
}
