// What a text says of a record's fields.
ghost use Rattle.std.specs.Prelude.{◌≡◌, ◌==◌, ◌+◌, ◌<◌, ◌≤◌, ℕ, pos, unsigned_abs, length, map, Some, if◌then◌else◌};
ghost use Rattle.std.specs.Borrow.{Bor};
ghost use Rattle.std.specs.Str.{bytes_eq};
ghost use Rattle.std.specs.Option.{option_copied, is_some};
ghost use Rattle.rec_kinds.specs.ChoiceFields.{choice_names};
ghost use Rattle.rec_kinds.specs.Given.{text_of, told, text_told, number_told, severity_told, element_told, all_choices, choices_kept, up_to_last, is_file, path_in, port_told};

use crate::choice::choice_fields;
use crate::element::{Element, element_named};
use crate::field::{Rule, rule_named};
use crate::kind::Kind;
use crate::number::number_within;
use crate::record_text::FieldText;
use crate::severity::{Severity, severity_named};

/// The fields that a text gives a record of a kind.
#[derive(Clone, Copy)]
pub(crate) struct Given<'a> {
    pub(crate) kind: Kind,
    pub(crate) fields: &'a [FieldText],
}

/// The text that a field is given last.
fn last_text<'a>(fields: &'a [FieldText], name: &str) -> Option<&'a str>
    ensures { option_copied result ≡ text_of fields.now name.now }
{
    let mut last = None;
    for field in fields {
        last = later(field, name, last);
    }
    last
}

/// The text of a field of this name, and else the one before.
fn later<'a>(field: &'a FieldText, name: &str, before: Option<&'a str>) -> Option<&'a str>
    ensures { option_copied result ≡ (if bytes_eq field.now.name name.now then Some field.now.text else option_copied before.entry) }
{
    if field.name.as_str() == name {
        return Some(field.text.as_str());
    }
    before
}

/// Whether a field is given.
pub(crate) fn is_given(fields: &[FieldText], name: &str) -> bool
    ensures { result ≡ is_some (text_of fields.now name.now) }
{
    for field in fields {
        if field.name.as_str() == name {
            return true;
        }
    }
    false
}

impl<'a> Given<'a> {
    /// The text that a field is given last, with or without effect.
    pub(crate) fn text_of(&self, name: &str) -> Option<&'a str>
        ensures { option_copied result ≡ text_of self.now.fields.now name.now }
    {
        last_text(self.fields, name)
    }

    /// The text of a field that has an effect.
    pub(crate) fn told(&self, name: &str) -> Option<&'a str>
        ensures { option_copied result ≡ told self.now.kind self.now.fields.now name.now }
    {
        match rule_named(self.kind, name) {
            None | Some(Rule::Unread) => None,
            Some(_) => last_text(self.fields, name),
        }
    }

    /// The text of a field that has an effect, or the empty one.
    pub(crate) fn text(&self, name: &str) -> &'a str
        ensures { result.now ≡ text_told self.now.kind self.now.fields.now name.now }
    {
        match self.told(name) {
            Some(text) => text,
            None => "",
        }
    }

    /// The number of a range that a field's text spells, and else another.
    pub(crate) fn number(&self, name: &str, range: (i64, i64), other: i64) -> i64
        ensures { result ≡ number_told self.now.kind self.now.fields.now name.now range.0 range.1 other }
    {
        match self.told(name) {
            Some(text) => number_within(text, range.0, range.1).unwrap_or(other),
            None => other,
        }
    }

    /// The number of a range without negative ones that a field's text spells, and else another.
    pub(crate) fn count(&self, name: &str, range: (u16, u16), other: u16) -> u16
        ensures { result ≡ unsigned_abs (number_told self.now.kind self.now.fields.now name.now (pos range.0) (pos range.1) (pos other)) }
    {
        let Some(text) = self.told(name) else {
            return other;
        };
        match number_within(text, i64::from(range.0), i64::from(range.1)) {
            Some(number) => number as u16,
            None => other,
        }
    }

    /// The severity that a field names, and else no alarm.
    pub(crate) fn severity(&self, name: &str) -> Severity
        ensures { result ≡ severity_told self.now.kind self.now.fields.now name.now }
    {
        match self.told(name) {
            Some(text) => severity_named(text).unwrap_or(Severity::NoAlarm),
            None => Severity::NoAlarm,
        }
    }

    /// The type of a list's elements.
    pub(crate) fn element(&self) -> Element
        ensures { result ≡ element_told self.now.kind self.now.fields.now }
    {
        match self.told("FTVL") {
            Some(text) => element_named(text).unwrap_or(Element::Text),
            None => Element::Text,
        }
    }

    /// How many choices there are: both of two, and of sixteen those up to the last whose text isn't empty.
    pub(crate) fn choice_count(&self) -> usize
        ensures same { result ≡ choices_kept self.now.kind (all_choices self.now.kind self.now.fields.now) }
        ensures most { result ≤ length (choice_names self.now.kind) }
    {
        let names = choice_fields(self.kind);
        match self.kind {
            Kind::Mbbi | Kind::Mbbo => self.up_to_last(names),
            Kind::Bi | Kind::Bo => names.len(),
            Kind::Longin | Kind::Longout | Kind::Int64in | Kind::Int64out => names.len(),
            Kind::Stringin | Kind::Stringout | Kind::Waveform => names.len(),
        }
    }

    /// How many of these fields there are up to the last whose text isn't empty.
    fn up_to_last(&self, names: &[&str]) -> usize
        ensures same { result ≡ up_to_last (map (text_told self.now.kind self.now.fields.now) (map (λ name. name.now) names.now)) }
        ensures most { result ≤ length names.now }
    {
        let mut count = 0;
        for (index, name) in names.iter().enumerate() {
            count = counted(count, index, self.text(name));
        }
        count
    }

    /// Where the record's port leads.
    pub(crate) fn port(&self) -> Option<&'a str>
        ensures { option_copied result ≡ port_told self.now.kind self.now.fields.now }
    {
        if !names_file(self.told("DTYP")) {
            return None;
        }
        path_of(self.told("OUT")?)
    }
}

/// How many texts count with one more at an index.
fn counted(count: usize, index: usize, text: &str) -> usize
    requires { index < usize.MAX }
    ensures { result ≡ (if length text.now == 0 then count else index + 1) }
{
    if text.is_empty() { count } else { index + 1 }
}

/// Whether a device is given, and is `File`.
pub(crate) fn names_file(device: Option<&str>) -> bool
    ensures { result ≡ is_file (option_copied device.entry) }
{
    match device {
        Some(device) => device == "File",
        None => false,
    }
}

/// The path after `@file` and a blank.
pub(crate) fn path_of(text: &str) -> Option<&str>
    ensures { option_copied result ≡ path_in text.now }
{
    let path = text.strip_prefix("@file ")?;
    if path.is_empty() { None } else { Some(path) }
}
