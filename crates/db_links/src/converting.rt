// What a link moves into a record.
ghost use Rattle.std.specs.Prelude.{◌≡◌, ℤ, IfOk, IfSome};
ghost use Rattle.std.specs.Option.{option_and_then};
ghost use Rattle.rec_kinds.specs.Sorts.{Sort, sort_of};
ghost use Rattle.rec_kinds.specs.Validity.{IsAllowed, IsOfSort};
ghost use Rattle.db_links.specs.Converting.{number_in, ranged, text_in, as_sort, converted};

use pvd_type::NoMemory;
use rec_kinds::{Datum, Kind, RecConfig, SharedText, check_put};
use std::alloc::Global;

/// What a link moves of a datum into a record, if anything: a number or an index as a number in the range of the record, as
/// the index of one of its choices, or in decimal as a text; and a text as a text (EPICS record reference, "Database Links").
/// Nothing moves that doesn't fit, nor what a put is refused.
pub fn convert(alloc: Global, config: &RecConfig, datum: &Datum) -> Result<Option<Datum>, NoMemory>
    ensures converted { IfOk result (λ moved. moved ≡ converted config.now datum.now) }
    ensures allowed { IfOk result (λ moved. IfSome moved (IsAllowed config.now)) }
{
    let Some(moved) = of_kind(alloc, config, datum)? else {
        return Ok(None);
    };
    if check_put(config, &moved).is_err() {
        return Ok(None);
    }
    Ok(Some(moved))
}

/// What a datum is as one of a record's sort.
fn of_kind(alloc: Global, config: &RecConfig, datum: &Datum) -> Result<Option<Datum>, NoMemory>
    ensures same { IfOk result (λ made. made ≡ as_sort (sort_of config.now.kind config.now.ftvl) datum.now) }
    ensures sort { IfOk result (λ made. IfSome made (IsOfSort config.now)) }
{
    match config.kind() {
        Kind::Longin | Kind::Longout => Ok(number(datum, i64::from(i32::MIN), i64::from(i32::MAX))),
        Kind::Int64in | Kind::Int64out => Ok(number(datum, i64::MIN, i64::MAX)),
        Kind::Bi | Kind::Bo | Kind::Mbbi | Kind::Mbbo => Ok(index(datum)),
        Kind::Stringin | Kind::Stringout => text(alloc, datum),
        Kind::Waveform => Ok(None),
    }
}

/// The number that a number or an index is.
fn number_in(datum: &Datum) -> Option<i64>
    ensures { result ≡ number_in datum.now }
{
    match datum {
        Datum::Num(number) => Some(*number),
        Datum::Index(index) => Some(i64::from(*index)),
        Datum::Text(_) | Datum::Nums(_) | Datum::Texts(_) => None,
    }
}

/// The number that a number or an index is, where it stands in a range.
fn number_within(datum: &Datum, low: i64, high: i64) -> Option<i64>
    ensures { result ≡ option_and_then (ranged (low, high)) (number_in datum.now) }
{
    let number = number_in(datum)?;
    if number < low || high < number {
        return None;
    }
    Some(number)
}

/// A datum as a number of a range.
fn number(datum: &Datum, low: i64, high: i64) -> Option<Datum>
    ensures { result ≡ as_sort (Sort.number low high) datum.now }
{
    match number_within(datum, low, high) {
        Some(number) => Some(Datum::Num(number)),
        None => None,
    }
}

/// A datum as the index of a choice.
fn index(datum: &Datum) -> Option<Datum>
    ensures { result ≡ as_sort Sort.index datum.now }
{
    match number_within(datum, 0, i64::from(u16::MAX)) {
        Some(number) => Some(Datum::Index(number as u16)),
        None => None,
    }
}

/// A datum as a text.
fn text(alloc: Global, datum: &Datum) -> Result<Option<Datum>, NoMemory>
    ensures { IfOk result (λ made. made ≡ text_in datum.now) }
{
    match datum {
        Datum::Num(number) => {
            let text = format!(in alloc; "{number}")?;
            Ok(Some(Datum::Text(SharedText::of(alloc, text.as_str())?)))
        }
        Datum::Index(index) => {
            let text = format!(in alloc; "{index}")?;
            Ok(Some(Datum::Text(SharedText::of(alloc, text.as_str())?)))
        }
        Datum::Text(text) => Ok(Some(Datum::Text(text.share()?))),
        Datum::Nums(_) | Datum::Texts(_) => Ok(None),
    }
}
