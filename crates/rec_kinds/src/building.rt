// Records of the fields that a text gives.
ghost use Rattle.std.specs.Prelude.{◌≡◌, ◌-◌, pos, IfOk, IfErr, None, Some, false, [], map};
ghost use Rattle.std.specs.Option.{is_some};
ghost use Rattle.rec_kinds.specs.Raised.{limits_in};
ghost use Rattle.rec_kinds.specs.Fields.{rule_of};
ghost use Rattle.rec_kinds.specs.Numbers.{number_in};
ghost use Rattle.rec_kinds.specs.ChoiceFields.{severity_names};
ghost use Rattle.rec_kinds.specs.Given.{choices_told, severity_told, port_told};
ghost use Rattle.rec_kinds.specs.Building.{config_of, opening_datum, opens_undefined, opening, opening_of, unless, misread, count_fault, build_fault, IsBuildFault, empty_list, limit_told};
ghost use Rattle.rec_kinds.specs.Configured.{IsInRange};
ghost use Rattle.rec_kinds.specs.Validity.{IsValid, index_bound};

use crate::choice::{choice_fields, severity_fields};
use crate::config::{Limits, RecConfig};
use crate::datum::Datum;
use crate::element::{Element, element_named};
use crate::fault::{BuildFault, Cause, fault_for};
use crate::field::{Rule, rule_named};
use crate::given::{Given, is_given, names_file, path_of};
use crate::items::Items;
use crate::kind::Kind;
use crate::number::{is_number, number_within};
use crate::put::index_limit;
use crate::ranges::{ELEMENT_COUNT, FLAG};
use crate::record_text::FieldText;
use crate::severity::{Severity, severity_named};
use crate::shared::{SharedItems, SharedText};
use crate::state::RecState;
use pvd_type::{Name, NoMemory};
use std::alloc::Global;

/// The configuration that these fields make of a record of this kind, and the state in which it opens: with its field
/// VAL, or else undefined with 0 or the empty text; a waveform opens empty and defined. A field that is given twice counts
/// where it stands last, and one that the kind doesn't know has no effect. What is built stands in the ranges of its fields.
/// The first fault in the order of the fields is answered (EPICS record reference).
pub fn build(
    alloc: Global,
    kind: Kind,
    fields: &[FieldText],
) -> Result<(RecConfig, RecState), BuildFault>
    ensures faultless { IfOk result (λ built. build_fault kind fields.now ≡ None) }
    ensures config { IfOk result (λ built. built.0 ≡ config_of kind fields.now) }
    ensures state { IfOk result (λ built. built.1 ≡ opening_of kind fields.now) }
    ensures valid { IfOk result (λ built. IsValid built.0 built.1) }
    ensures ranges { IfOk result (λ built. IsInRange built.0) }
    ensures fault { IfErr result (IsBuildFault kind fields.now) }
{
    let given = Given { kind, fields };
    check_fields(alloc, &given)?;
    let config = configured(alloc, &given)?;
    let state = opened(alloc, &config, &given)?;
    Ok((config, state))
}

/// A longout with the value VAL and no other field.
pub fn longout(alloc: Global, value: i32) -> Result<(RecConfig, RecState), NoMemory>
    ensures config { IfOk result (λ built. built.0 ≡ config_of Kind.Longout []) }
    ensures state { IfOk result (λ built. built.1 ≡ opening (config_of Kind.Longout []) (Datum.Num value) false) }
    ensures valid { IfOk result (λ built. IsValid built.0 built.1) }
{
    let given = Given {
        kind: Kind::Longout,
        fields: &[],
    };
    let config = configured(alloc, &given)?;
    let state = RecState::opening(&config, Datum::Num(i64::from(value)), false);
    Ok((config, state))
}

/// The first fault of the fields is answered, if there is one.
fn check_fields(alloc: Global, given: &Given) -> Result<(), BuildFault>
    ensures ok { IfOk result (λ _. build_fault given.now.kind given.now.fields.now ≡ None) }
    ensures fault { IfErr result (IsBuildFault given.now.kind given.now.fields.now) }
{
    for (index, field) in given.fields.iter().enumerate() {
        if is_given(&given.fields[index + 1..], field.name.as_str()) {
            continue;
        }
        if let Some(cause) = cause_of(given, field) {
            return Err(fault_for(alloc, field, cause));
        }
    }
    Ok(())
}

/// What is wrong with a field.
fn cause_of(given: &Given, field: &FieldText) -> Option<Cause>
    ensures { result ≡ misread given.now.kind given.now.fields.now field.now.text (rule_of given.now.kind field.now.name) }
{
    let rule = rule_named(given.kind, field.name.as_str())?;
    cause_by(given, field.text.as_str(), rule)
}

/// What is wrong with the text of a field that is read by this rule.
fn cause_by(given: &Given, text: &str, rule: Rule) -> Option<Cause>
    ensures { result ≡ misread given.now.kind given.now.fields.now text.now (Some rule) }
{
    match rule {
        Rule::Unread | Rule::Any => None,
        Rule::Text(most) => unless_good(text.len() <= most as usize, Cause::Length),
        Rule::Number(low, high) => {
            unless_good(number_within(text, low, high).is_some(), Cause::Number)
        }
        Rule::Count(low, high) => cause_of_count(text, low, high),
        Rule::Index => unless_good(is_index(given, text), Cause::Number),
        Rule::Severity => unless_good(severity_named(text).is_some(), Cause::Choice),
        Rule::Element => unless_good(element_named(text).is_some(), Cause::Choice),
        Rule::Device => unless_good(text != "File" || is_given(given.fields, "OUT"), Cause::Port),
        Rule::Path => unless_good(
            !names_file(given.text_of("DTYP")) || path_of(text).is_some(),
            Cause::Port,
        ),
    }
}

fn unless_good(good: bool, cause: Cause) -> Option<Cause>
    ensures { result ≡ unless good cause }
{
    if good { None } else { Some(cause) }
}

/// What is wrong with a count.
fn cause_of_count(text: &str, low: i64, high: i64) -> Option<Cause>
    ensures { result ≡ count_fault low high text.now }
{
    if !is_number(text) {
        return Some(Cause::Number);
    }
    unless_good(number_within(text, low, high).is_some(), Cause::Length)
}

/// Whether a text is the index of one of the record's choices.
fn is_index(given: &Given, text: &str) -> bool
    ensures { result ≡ is_some (number_in (pos 0) (pos (index_bound (choices_told given.now.kind given.now.fields.now) - 1)) text.now) }
{
    let last = index_limit(given.choice_count()) - 1;
    number_within(text, 0, last as i64).is_some()
}

/// The configuration that the fields make.
fn configured(alloc: Global, given: &Given) -> Result<RecConfig, NoMemory>
    ensures { IfOk result (λ config. config ≡ config_of given.now.kind given.now.fields.now) }
{
    Ok(RecConfig {
        kind: given.kind,
        desc: Name::of(alloc, given.text("DESC"))?,
        disabled: given.number("DISP", FLAG, 0) == 1,
        port: port_of(alloc, given)?,
        limits: limits_of(given),
        drvh: limit(given, "DRVH"),
        drvl: limit(given, "DRVL"),
        choices: choices_of(alloc, given)?,
        severities: severities_of(alloc, given)?,
        ftvl: given.element(),
        nelm: u32::from(given.count("NELM", ELEMENT_COUNT, 1)),
    })
}

/// The number that a field tells, or 0.
fn limit(given: &Given, name: &str) -> i64
    ensures { result ≡ limit_told given.now.kind given.now.fields.now name.now }
{
    given.number(name, (i64::MIN, i64::MAX), 0)
}

/// The limits and their severities.
fn limits_of(given: &Given) -> Limits
    ensures { result ≡ limits_in (config_of given.now.kind given.now.fields.now) }
{
    Limits {
        hihi: limit(given, "HIHI"),
        high: limit(given, "HIGH"),
        low: limit(given, "LOW"),
        lolo: limit(given, "LOLO"),
        hhsv: given.severity("HHSV"),
        hsv: given.severity("HSV"),
        lsv: given.severity("LSV"),
        llsv: given.severity("LLSV"),
    }
}

/// Where the port leads.
fn port_of(alloc: Global, given: &Given) -> Result<Option<Name>, NoMemory>
    ensures { IfOk result (λ port. port ≡ port_told given.now.kind given.now.fields.now) }
{
    match given.port() {
        Some(path) => Ok(Some(Name::of(alloc, path)?)),
        None => Ok(None),
    }
}

/// The texts of the choices.
fn choices_of(alloc: Global, given: &Given) -> Result<Items<Name>, NoMemory>
    ensures { IfOk result (λ choices. choices ≡ choices_told given.now.kind given.now.fields.now) }
{
    let count = given.choice_count();
    let names = &choice_fields(given.kind)[..count];
    let mut choices = Vec::with_capacity(alloc, count)?;
    for name in names {
        choices.push(Name::of(alloc, given.text(name))?)?;
    }
    Ok(Items::from_vec(choices))
}

/// The severities of the choices.
fn severities_of(alloc: Global, given: &Given) -> Result<Items<Severity>, NoMemory>
    ensures { IfOk result (λ severities. severities ≡ map (severity_told given.now.kind given.now.fields.now) (severity_names given.now.kind)) }
{
    let names = severity_fields(given.kind);
    let mut severities = Vec::with_capacity(alloc, names.len())?;
    for name in names {
        severities.push(given.severity(name))?;
    }
    Ok(Items::from_vec(severities))
}

/// The state in which the record opens.
fn opened(alloc: Global, config: &RecConfig, given: &Given) -> Result<RecState, NoMemory>
    ensures { IfOk result (λ state. state ≡ opening config.now (opening_datum given.now.kind given.now.fields.now) (opens_undefined given.now.kind given.now.fields.now)) }
{
    let datum = datum_of(alloc, given)?;
    Ok(RecState::opening(config, datum, is_undefined(given)))
}

/// What the record opens with.
fn datum_of(alloc: Global, given: &Given) -> Result<Datum, NoMemory>
    ensures { IfOk result (λ datum. datum ≡ opening_datum given.now.kind given.now.fields.now) }
{
    match given.kind {
        Kind::Longin | Kind::Longout | Kind::Int64in | Kind::Int64out => Ok(Datum::Num(limit(
            given, "VAL",
        ))),
        Kind::Bi | Kind::Bo | Kind::Mbbi | Kind::Mbbo => {
            Ok(Datum::Index(given.count("VAL", (0, 65_535), 0)))
        }
        Kind::Stringin | Kind::Stringout => Ok(Datum::Text(SharedText::of(
            alloc,
            given.text("VAL"),
        )?)),
        Kind::Waveform => no_elements(alloc, given.element()),
    }
}

/// An empty list of elements of this type.
fn no_elements(alloc: Global, element: Element) -> Result<Datum, NoMemory>
    ensures { IfOk result (λ datum. datum ≡ empty_list element) }
{
    match element {
        Element::Text => Ok(Datum::Texts(SharedItems::of(alloc, Vec::new(alloc))?)),
        Element::I8
        | Element::U8
        | Element::I16
        | Element::U16
        | Element::I32
        | Element::U32
        | Element::I64
        | Element::U64 => { Ok(Datum::Nums(SharedItems::of(alloc, Vec::new(alloc))?)) }
    }
}

/// Whether the record could be given VAL and isn't.
fn is_undefined(given: &Given) -> bool
    ensures { result ≡ opens_undefined given.now.kind given.now.fields.now }
{
    match given.kind {
        Kind::Waveform => false,
        Kind::Longin
        | Kind::Longout
        | Kind::Int64in
        | Kind::Int64out
        | Kind::Bi
        | Kind::Bo
        | Kind::Mbbi
        | Kind::Mbbo
        | Kind::Stringin
        | Kind::Stringout => { given.told("VAL").is_none() }
    }
}
