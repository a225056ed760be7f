// The fields of a record that tell its links.
ghost use Rattle.std.specs.Prelude.{◌≡◌, codes, Some, if◌then◌else◌};
ghost use Rattle.std.specs.Option.{option_copied};
ghost use Rattle.std.specs.Str.{bytes_eq};
ghost use Rattle.rec_kinds.specs.Given.{text_of};
ghost use Rattle.db_links.specs.Live.{has_inp, has_out, out_counts, counted};

use rec_kinds::{FieldText, Kind, RecText};

/// The text that a field is given last.
fn last_text<'a>(fields: &'a [FieldText], name: &str) -> Option<&'a str>
    ensures { option_copied result ≡ text_of fields.now name.now }
{
    let mut last = None;
    for field in fields {
        last = later(field, name, last);
    }
    last
}

/// The text of a field of this name, and else the one before.
fn later<'a>(field: &'a FieldText, name: &str, before: Option<&'a str>) -> Option<&'a str>
    ensures { option_copied result ≡ (if bytes_eq field.now.name name.now then Some field.now.text else option_copied before.entry) }
{
    if field.name.as_str() == name {
        return Some(field.text.as_str());
    }
    before
}

/// Whether a kind's field INP counts.
fn has_inp(kind: Kind) -> bool
    ensures { result ≡ has_inp kind }
{
    matches!(
        kind,
        Kind::Longin | Kind::Int64in | Kind::Bi | Kind::Mbbi | Kind::Stringin
    )
}

/// Whether a kind's field OUT counts.
fn has_out(kind: Kind) -> bool
    ensures { result ≡ has_out kind }
{
    matches!(
        kind,
        Kind::Longout | Kind::Int64out | Kind::Bo | Kind::Mbbo | Kind::Stringout
    )
}

/// Whether OUT is a link, and leads to no port: where DTYP isn't `File`.
fn out_counts(kind: Kind, fields: &[FieldText]) -> bool
    ensures { result ≡ out_counts kind fields.now }
{
    if !has_out(kind) {
        return false;
    }
    match last_text(fields, "DTYP") {
        Some(device) => device != "File",
        None => true,
    }
}

/// The text of INP, where it counts.
pub(crate) fn inp_text(rec: &RecText) -> Option<&str>
    ensures { option_copied result ≡ counted (has_inp rec.now.kind) rec.now.fields (codes "INP") }
{
    if !has_inp(rec.kind) {
        return None;
    }
    last_text(rec.fields.as_slice(), "INP")
}

/// The text of OUT, where it counts.
pub(crate) fn out_text(rec: &RecText) -> Option<&str>
    ensures { option_copied result ≡ counted (out_counts rec.now.kind rec.now.fields) rec.now.fields (codes "OUT") }
{
    let fields = rec.fields.as_slice();
    if !out_counts(rec.kind, fields) {
        return None;
    }
    last_text(fields, "OUT")
}

/// The text of FLNK.
pub(crate) fn flnk_text(rec: &RecText) -> Option<&str>
    ensures { option_copied result ≡ text_of rec.now.fields (codes "FLNK") }
{
    last_text(rec.fields.as_slice(), "FLNK")
}
