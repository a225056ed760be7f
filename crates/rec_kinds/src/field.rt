// The fields of records, and how their texts are read.
ghost use Rattle.std.specs.Prelude.{◌≡◌, map};
ghost use Rattle.std.specs.Option.{is_some};
ghost use Rattle.rec_kinds.specs.Fields.{listed, choice_rule, own_rule, rule_of};

use crate::choice::{choice_fields, severity_fields};
use crate::kind::Kind;
use crate::named::named;
use crate::ranges::{DESC_BYTES, ELEMENT_COUNT, FLAG, TEXT_BYTES};

/// How the text of a field is read (EPICS record reference).
#[derive(Clone, Copy, Debug, PartialEq, Eq)]
pub enum Rule {
    /// The field has no effect, and its text isn't read.
    Unread,
    /// Any text.
    Any,
    /// A text of at most so many bytes.
    Text(u32),
    /// A number from the first to the second.
    Number(i64, i64),
    /// A count from the first to the second.
    Count(i64, i64),
    /// The index of one of the record's choices.
    Index,
    /// One of the four severities.
    Severity,
    /// The type of a list's elements.
    Element,
    /// The device; `File` makes a port.
    Device,
    /// Where the port leads: `@file` and a path.
    Path,
}

// A number of the range of flags.
const FLAG_NUMBER: Rule = Rule::Number(FLAG.0, FLAG.1);

// The fields that every kind has.
const COMMON: [(&str, Rule); 2] = [("DESC", Rule::Text(DESC_BYTES)), ("DISP", FLAG_NUMBER)];

// The fields that every kind takes without effect.
const UNREAD: [(&str, Rule); 57] = [
    ("DTYP", Rule::Unread),
    ("OUT", Rule::Unread),
    ("SCAN", Rule::Unread),
    ("PINI", Rule::Unread),
    ("PHAS", Rule::Unread),
    ("EVNT", Rule::Unread),
    ("PRIO", Rule::Unread),
    ("TSE", Rule::Unread),
    ("TSEL", Rule::Unread),
    ("DISV", Rule::Unread),
    ("DISA", Rule::Unread),
    ("SDIS", Rule::Unread),
    ("DISS", Rule::Unread),
    ("FLNK", Rule::Unread),
    ("INP", Rule::Unread),
    ("EGU", Rule::Unread),
    ("PREC", Rule::Unread),
    ("HOPR", Rule::Unread),
    ("LOPR", Rule::Unread),
    ("HYST", Rule::Unread),
    ("ADEL", Rule::Unread),
    ("MDEL", Rule::Unread),
    ("ASG", Rule::Unread),
    ("OMSL", Rule::Unread),
    ("DOL", Rule::Unread),
    ("IVOA", Rule::Unread),
    ("IVOV", Rule::Unread),
    ("SIOL", Rule::Unread),
    ("SIML", Rule::Unread),
    ("SIMS", Rule::Unread),
    ("SVAL", Rule::Unread),
    ("NOBT", Rule::Unread),
    ("SHFT", Rule::Unread),
    ("MASK", Rule::Unread),
    ("TPRO", Rule::Unread),
    ("ACKT", Rule::Unread),
    ("APST", Rule::Unread),
    ("MPST", Rule::Unread),
    ("COSV", Rule::Unread),
    ("UNSV", Rule::Unread),
    ("RVAL", Rule::Unread),
    ("ZRVL", Rule::Unread),
    ("ONVL", Rule::Unread),
    ("TWVL", Rule::Unread),
    ("THVL", Rule::Unread),
    ("FRVL", Rule::Unread),
    ("FVVL", Rule::Unread),
    ("SXVL", Rule::Unread),
    ("SVVL", Rule::Unread),
    ("EIVL", Rule::Unread),
    ("NIVL", Rule::Unread),
    ("TEVL", Rule::Unread),
    ("ELVL", Rule::Unread),
    ("TVVL", Rule::Unread),
    ("TTVL", Rule::Unread),
    ("FTVL", Rule::Unread),
    ("FFVL", Rule::Unread),
];

// A number of 32 bits.
const INT32: Rule = Rule::Number(-2_147_483_648, 2_147_483_647);

// A number of 64 bits.
const INT64: Rule = Rule::Number(-9_223_372_036_854_775_808, 9_223_372_036_854_775_807);

// The value of a number of 32 bits and its alarms.
const INTEGER: [(&str, Rule); 9] = [
    ("VAL", INT32),
    ("HIHI", INT32),
    ("HIGH", INT32),
    ("LOW", INT32),
    ("LOLO", INT32),
    ("HHSV", Rule::Severity),
    ("HSV", Rule::Severity),
    ("LSV", Rule::Severity),
    ("LLSV", Rule::Severity),
];

// The limits of what is put into a number of 32 bits.
const INTEGER_DRIVE: [(&str, Rule); 2] = [("DRVH", INT32), ("DRVL", INT32)];

// The value of a number of 64 bits and its alarms.
const LONG: [(&str, Rule); 9] = [
    ("VAL", INT64),
    ("HIHI", INT64),
    ("HIGH", INT64),
    ("LOW", INT64),
    ("LOLO", INT64),
    ("HHSV", Rule::Severity),
    ("HSV", Rule::Severity),
    ("LSV", Rule::Severity),
    ("LLSV", Rule::Severity),
];

// The limits of what is put into a number of 64 bits.
const LONG_DRIVE: [(&str, Rule); 2] = [("DRVH", INT64), ("DRVL", INT64)];

// The value of one of two.
const TWO: [(&str, Rule); 1] = [("VAL", FLAG_NUMBER)];

// What a bo takes without effect besides.
const BO_UNREAD: [(&str, Rule); 1] = [("HIGH", Rule::Unread)];

// The value of one of up to sixteen.
const SIXTEEN: [(&str, Rule); 1] = [("VAL", Rule::Index)];

// The value of a text.
const STRING: [(&str, Rule); 1] = [("VAL", Rule::Text(TEXT_BYTES))];

// How many elements a list may have.
const LIST_COUNT: Rule = Rule::Count(ELEMENT_COUNT.0 as i64, ELEMENT_COUNT.1 as i64);

// The elements of a list.
const LIST: [(&str, Rule); 2] = [("FTVL", Rule::Element), ("NELM", LIST_COUNT)];

// The port of a record that has one.
const PORT: [(&str, Rule); 2] = [("DTYP", Rule::Device), ("OUT", Rule::Path)];

/// This rule where a name is one of these; none where it isn't.
fn listed(rule: Rule, names: &[&str], name: &str) -> Option<Rule>
    ensures { result ≡ listed rule (map (λ n. n.now) names.now) name.now }
{
    for other in names {
        if *other == name {
            return Some(rule);
        }
    }
    None
}

/// How the text of a choice or of its severity is read; none of a field that is neither.
fn choice_rule_of(kind: Kind, name: &str) -> Option<Rule>
    ensures { result ≡ choice_rule kind name.now }
{
    let choice = listed(Rule::Any, choice_fields(kind), name);
    choice.or(listed(Rule::Severity, severity_fields(kind), name))
}

/// How the text of a kind's own field is read; none where it has no field of its own of this name.
fn own_rule_of(kind: Kind, name: &str) -> Option<Rule>
    ensures { result ≡ own_rule kind name.now }
{
    match kind {
        Kind::Longin => named(&INTEGER, name),
        Kind::Longout => named(&INTEGER, name)
            .or(named(&INTEGER_DRIVE, name))
            .or(named(&PORT, name)),
        Kind::Int64in => named(&LONG, name),
        Kind::Int64out => named(&LONG, name)
            .or(named(&LONG_DRIVE, name))
            .or(named(&PORT, name)),
        Kind::Bi => named(&TWO, name).or(choice_rule_of(kind, name)),
        Kind::Bo => named(&TWO, name)
            .or(choice_rule_of(kind, name))
            .or(named(&BO_UNREAD, name))
            .or(named(&PORT, name)),
        Kind::Mbbi => named(&SIXTEEN, name).or(choice_rule_of(kind, name)),
        Kind::Mbbo => named(&SIXTEEN, name)
            .or(choice_rule_of(kind, name))
            .or(named(&PORT, name)),
        Kind::Stringin => named(&STRING, name),
        Kind::Stringout => named(&STRING, name).or(named(&PORT, name)),
        Kind::Waveform => named(&LIST, name),
    }
}

/// How the text of a kind's field is read; none where the kind doesn't know the field.
pub(crate) fn rule_named(kind: Kind, name: &str) -> Option<Rule>
    ensures { result ≡ rule_of kind name.now }
{
    own_rule_of(kind, name)
        .or(named(&COMMON, name))
        .or(named(&UNREAD, name))
}

/// Whether a record of this kind takes a field of this name, with or without effect.
pub fn field_known(kind: Kind, name: &str) -> bool
    ensures { result ≡ is_some (rule_of kind name.now) }
{
    rule_named(kind, name).is_some()
}
