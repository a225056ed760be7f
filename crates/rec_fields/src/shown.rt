// What a record shows of a state.
ghost use Rattle.std.specs.Prelude.{◌≡◌, pos, true, IfOk};
ghost use Rattle.pvd_value.specs.Data.{single, int, texts, many, members, more, end};
ghost use Rattle.pvd_value.specs.Fits.{fits_of};
ghost use Rattle.pvd_value.specs.View.{view, items_view};
ghost use Rattle.rec_kinds.specs.Sorts.{suits, is_of, sort_of, element_sort};
ghost use Rattle.rec_kinds.specs.Validity.{IsValid};
ghost use Rattle.rec_fields.specs.Shown.{shown, value_shown, number_shown, numbers_shown};
ghost use Rattle.rec_fields.specs.Types.{record_tree};

use crate::numbers::narrowed;
use crate::parts::{alarm_view, time_view};
use pvd_type::{Name, NoMemory};
use pvd_value::{Items, PvValue};
use rec_kinds::{Datum, Element, Kind, RecConfig, RecState};
use std::alloc::Global;

/// What a record shows of a state that it may be in: its value, its alarm and its time stamp (EPICS Normative Types 1.0).
/// It fits [`crate::type_of`]. A list is copied once.
pub fn view(alloc: Global, config: &RecConfig, state: &RecState) -> Result<PvValue, NoMemory>
    requires { IsValid config.now state.now }
    ensures shown { IfOk result (λ v. view v ≡ shown config.now state.now) }
    ensures fits { IfOk result (λ v. fits_of 16 (view v) (record_tree config.now) ≡ true) }
{
    let whole = whole_of(alloc, config, state)?;
    Ok(whole)
}

/// The value, the alarm and the time stamp, side by side.
fn whole_of(alloc: Global, config: &RecConfig, state: &RecState) -> Result<PvValue, NoMemory>
    requires { IsValid config.now state.now }
    ensures { IfOk result (λ v. view v ≡ shown config.now state.now) }
{
    let mut parts = Vec::with_capacity(alloc, 3)?;
    parts.push(value_of(alloc, config, &state.datum)?)?;
    parts.push(alarm_view(alloc, state)?)?;
    parts.push(time_view(alloc, state)?)?;
    Ok(PvValue::Struct(parts))
}

/// What a record holds.
pub(crate) fn value_of(
    alloc: Global,
    config: &RecConfig,
    datum: &Datum,
) -> Result<PvValue, NoMemory>
    requires { suits config.now datum.now ≡ true }
    ensures { IfOk result (λ v. view v ≡ value_shown config.now datum.now) }
{
    match datum {
        Datum::Num(number) => Ok(number_value(config.kind(), config.ftvl(), *number)),
        Datum::Index(index) => index_value(alloc, *index, config.choices()),
        Datum::Text(text) => Ok(PvValue::Text(Name::of(alloc, text.as_str())?)),
        Datum::Nums(numbers) => {
            let items = elements_value(alloc, config.ftvl(), numbers.as_slice())?;
            Ok(PvValue::List(items))
        }
        Datum::Texts(texts) => Ok(PvValue::List(Items::Text(copy_of(alloc, texts.as_slice())?))),
    }
}

/// A number, of 64 bits where the record's are, and else of 32.
fn number_value(kind: Kind, ftvl: Element, number: i64) -> PvValue
    requires { is_of (sort_of kind ftvl) (Datum.Num number) ≡ true }
    ensures { view result ≡ single (number_shown kind number) }
{
    match kind {
        Kind::Int64in | Kind::Int64out => PvValue::I64(number),
        Kind::Longin
        | Kind::Longout
        | Kind::Bi
        | Kind::Bo
        | Kind::Mbbi
        | Kind::Mbbo
        | Kind::Stringin
        | Kind::Stringout
        | Kind::Waveform => PvValue::I32(number as i32),
    }
}

/// An index and the choices that it is of.
fn index_value(alloc: Global, index: u16, choices: &[Name]) -> Result<PvValue, NoMemory>
    ensures { IfOk result (λ v. view v ≡ members (more (single (int (pos index))) (more (many (texts choices.now)) end))) }
{
    let choices = PvValue::List(Items::Text(copy_of(alloc, choices)?));
    let index = PvValue::I32(i32::from(index));
    Ok(PvValue::Struct(vec![in alloc; index, choices]?))
}

/// A list of numbers of this type.
fn elements_value(alloc: Global, ftvl: Element, numbers: &[i128]) -> Result<Items, NoMemory>
    requires { is_of (element_sort ftvl) (Datum.Nums numbers.now) ≡ true }
    ensures { IfOk result (λ v. items_view v ≡ numbers_shown ftvl numbers.now) }
{
    match ftvl {
        Element::I8 => Ok(Items::I8(narrowed(alloc, numbers)?)),
        Element::U8 => Ok(Items::U8(narrowed(alloc, numbers)?)),
        Element::I16 => Ok(Items::I16(narrowed(alloc, numbers)?)),
        Element::U16 => Ok(Items::U16(narrowed(alloc, numbers)?)),
        Element::I32 => Ok(Items::I32(narrowed(alloc, numbers)?)),
        Element::U32 => Ok(Items::U32(narrowed(alloc, numbers)?)),
        Element::I64 => Ok(Items::I64(narrowed(alloc, numbers)?)),
        Element::U64 => Ok(Items::U64(narrowed(alloc, numbers)?)),
        Element::Text => Ok(Items::Text(Vec::new(alloc))),
    }
}

/// A copy of these texts.
pub(crate) fn copy_of(alloc: Global, texts: &[Name]) -> Result<Vec<Name>, NoMemory>
    ensures { IfOk result (λ copy. copy.items ≡ texts.now) }
{
    let mut copies = Vec::with_capacity(alloc, texts.len())?;
    for text in texts {
        copies.push(text.clone_in(alloc)?)?;
    }
    Ok(copies)
}
