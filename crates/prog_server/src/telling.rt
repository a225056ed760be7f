// What `--check` says of a source.
ghost use Rattle.std.specs.Prelude.{◌≡◌, IfOk, codes, length};
ghost use Rattle.std.specs.String.{string_bytes};
ghost use Rattle.prog_server.specs.Telling.{counts_line, fault_line, place_in_build, place_in_group, place_in_load, place_in_text, place_in_type, place_of, place_told};
ghost use Rattle.prog_source.specs.Printing.{IsPrinted};

use db_load::LoadFault;
use db_text::TextFault;
use desk_api::{Site, SiteFault};
use group_defs::GroupFault;
use pvd_type::TypeFault;
use rec_kinds::BuildFault;
use std::alloc::{AllocError, Global};

/// Where a fault stands, and its name.
#[derive(Clone, Copy, Debug, PartialEq, Eq)]
pub struct Place {
    /// The line of the text as given, counted from 1, and 0 where the fault has none.
    pub line: u32,
    pub name: &'static str,
}

/// The place on this line of a fault of this name.
fn at(line: u32, name: &'static str) -> Place
    ensures { place_told result ≡ (line, name.now) }
{
    Place { line, name }
}

fn place_in_text(fault: &TextFault) -> Place
    ensures { place_told result ≡ place_in_text fault.now }
{
    match fault {
        TextFault::BadToken(line) => at(*line, "BadToken"),
        TextFault::OpenString(line) => at(*line, "OpenString"),
        TextFault::UnknownMacro(_, line) => at(*line, "UnknownMacro"),
        TextFault::MacroDepth(line) => at(*line, "MacroDepth"),
        TextFault::NoMemory => at(0, "NoMemory"),
    }
}

fn place_in_load(fault: &LoadFault) -> Place
    ensures { place_told result ≡ place_in_load fault.now }
{
    match fault {
        LoadFault::Text(fault) => place_in_text(fault),
        LoadFault::SameRecord(_, line) => at(*line, "SameRecord"),
        LoadFault::UnknownKind(_, line) => at(*line, "UnknownKind"),
        LoadFault::UnknownField(_, line) => at(*line, "UnknownField"),
        LoadFault::BadForm(line) => at(*line, "BadForm"),
        LoadFault::Count(_) => at(0, "Count"),
        LoadFault::NoMemory => at(0, "NoMemory"),
    }
}

fn place_in_build(fault: &BuildFault) -> Place
    ensures { place_told result ≡ place_in_build fault.now }
{
    match fault {
        BuildFault::BadNumber(field) => at(field.line, "BadNumber"),
        BuildFault::BadChoice(field) => at(field.line, "BadChoice"),
        BuildFault::BadLength(field) => at(field.line, "BadLength"),
        BuildFault::BadPort(field) => at(field.line, "BadPort"),
        BuildFault::NoMemory => at(0, "NoMemory"),
    }
}

/// The name of the fault of a type, which has no line.
fn place_in_type(fault: &TypeFault) -> Place
    ensures { place_told result ≡ place_in_type fault.now }
{
    let name = match fault {
        TypeFault::TooDeep => "TooDeep",
        TypeFault::TooMany => "TooMany",
        TypeFault::EmptyName => "EmptyName",
        TypeFault::SameName => "SameName",
        TypeFault::NoMemory => "NoMemory",
    };
    Place { line: 0, name }
}

/// The name of the fault of a group, which has no line.
fn place_in_group(fault: &GroupFault) -> Place
    ensures { place_told result ≡ place_in_group fault.now }
{
    let name = match fault {
        GroupFault::BadJson(_) => "BadJson",
        GroupFault::UnknownKey(_) => "UnknownKey",
        GroupFault::SameMember(_) => "SameMember",
        GroupFault::UnknownTrigger(_) => "UnknownTrigger",
        GroupFault::NameTaken(_) => "NameTaken",
        GroupFault::BadMember(_) => "BadMember",
        GroupFault::Shape(fault) => return place_in_type(fault),
        GroupFault::TooMany(_) => "TooMany",
        GroupFault::NoMemory => "NoMemory",
    };
    Place { line: 0, name }
}

/// Where a fault of a site stands, by its innermost variant.
fn place_of(fault: &SiteFault) -> Place
    ensures { place_told result ≡ place_of fault.now }
{
    match fault {
        SiteFault::Load(fault) => place_in_load(fault),
        SiteFault::Build(_, fault) => place_in_build(fault),
        SiteFault::Group(fault) => place_in_group(fault),
        SiteFault::NoMemory => at(0, "NoMemory"),
    }
}

/// The line that says what a site has.
pub fn line_of_site(alloc: Global, site: &Site) -> Result<String, AllocError>
    ensures { IfOk result (λ line. string_bytes line ≡ counts_line (length site.now.names) (length site.now.groups)) }
{
    let records = site.records();
    let groups = site.groups();
    format!(in alloc; "{records} records, {groups} groups\n")
}

/// The line that says where a text is wrong.
pub fn line_of_fault(alloc: Global, fault: &SiteFault) -> Result<String, AllocError>
    ensures { IfOk result (λ line. string_bytes line ≡ fault_line fault.now) }
{
    let place = place_of(fault);
    format!(in alloc; "line {}: {}\n", place.line, place.name)
}
