// What a port is driven with.
ghost use Rattle.std.specs.Prelude.{◌≡◌, ◌++◌, IfOk, OnOk, map, string_bytes};
ghost use Rattle.std.specs.Fmt.{signed_decimal};
ghost use Rattle.rec_kinds.specs.Texts.{text_of_datum, with_spaces, item_after};

use crate::datum::Datum;
use crate::state::RecState;
use pvd_type::{Name, NoMemory};
use std::alloc::Global;

/// The text that a record's port is driven with: a number or an index in decimal, a text as it is, and the elements of a
/// list with one space between any two.
pub fn plain_text(alloc: Global, state: &RecState) -> Result<Name, NoMemory>
    ensures { IfOk result (λ text. text ≡ text_of_datum state.now.datum) }
{
    match &state.datum {
        Datum::Num(number) => {
            let text = format!(in alloc; "{number}")?;
            Name::of(alloc, text.as_str())
        }
        Datum::Index(index) => {
            let text = format!(in alloc; "{index}")?;
            Name::of(alloc, text.as_str())
        }
        Datum::Text(text) => Name::of(alloc, text.as_str()),
        Datum::Nums(numbers) => numbers_in_a_row(alloc, numbers.as_slice()),
        Datum::Texts(texts) => texts_in_a_row(alloc, texts.as_slice()),
    }
}

fn numbers_in_a_row(alloc: Global, numbers: &[i128]) -> Result<Name, NoMemory>
    ensures { IfOk result (λ text. text ≡ with_spaces (map signed_decimal numbers.now)) }
{
    let mut text = String::new(alloc);
    for (place, number) in numbers.iter().enumerate() {
        let number = format!(in alloc; "{number}")?;
        append(&mut text, number.as_str(), place)?;
    }
    Name::of(alloc, text.as_str())
}

fn texts_in_a_row(alloc: Global, texts: &[Name]) -> Result<Name, NoMemory>
    ensures { IfOk result (λ text. text ≡ with_spaces texts.now) }
{
    let mut text = String::new(alloc);
    for (place, item) in texts.iter().enumerate() {
        append(&mut text, item.as_str(), place)?;
    }
    Name::of(alloc, text.as_str())
}

/// Appends a text, with a space before it where it isn't the first.
fn append(text: &mut String, item: &str, place: usize) -> Result<(), NoMemory>
    ensures { OnOk result (string_bytes text.new ≡ string_bytes text.old ++ item_after place item.now) }
{
    if place > 0 {
        text.push(' ')?;
    }
    text.push_str(item)?;
    Ok(())
}
