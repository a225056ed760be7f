// Which puts are refused.
ghost use Rattle.std.specs.Prelude.{◌≡◌, ◌==◌, nat_le, None, if◌then◌else◌};
ghost use Rattle.std.specs.List.{list_all};
ghost use Rattle.rec_kinds.specs.Validity.{IsOfSort, refusal, own_refusal, outcome_of, refused_unless, is_short};

use crate::config::RecConfig;
use crate::datum::Datum;
use crate::ranges::TEXT_BYTES;
use pvd_type::Name;

/// Why a put is refused.
#[derive(Clone, Copy, Debug, PartialEq, Eq)]
pub enum PutRefusal {
    /// The index is none of the record's choices.
    IndexOutside,
    /// A text has more than 39 bytes.
    TextTooLong,
    /// There are more elements than the record's field NELM allows.
    TooManyElements,
    /// The record's field DISP is 1.
    Disabled,
    /// Nothing that may be written is marked. `check_put` never gives it: it is for the crates above.
    NothingWritable,
}

/// Whether the record takes this put: a disabled one takes none, and else the datum decides. It takes no memory.
pub fn check_put(config: &RecConfig, datum: &Datum) -> Result<(), PutRefusal>
    requires { IsOfSort config.now datum.now }
    ensures { result ≡ outcome_of (refusal config.now datum.now) }
{
    if config.is_disabled() {
        return Err(PutRefusal::Disabled);
    }
    check_datum(config, datum)
}

/// Whether the record takes this datum where it isn't disabled.
fn check_datum(config: &RecConfig, datum: &Datum) -> Result<(), PutRefusal>
    ensures { result ≡ outcome_of (own_refusal config.now datum.now) }
{
    match datum {
        Datum::Num(_) => Ok(()),
        Datum::Index(index) => check(
            usize::from(*index) < index_limit(config.choices().len()),
            PutRefusal::IndexOutside,
        ),
        Datum::Text(text) => check(is_short_text(text.as_str()), PutRefusal::TextTooLong),
        Datum::Nums(numbers) => check_count(config, numbers.len()),
        Datum::Texts(texts) => check_texts(config, texts.as_slice()),
    }
}

fn check(good: bool, refusal: PutRefusal) -> Result<(), PutRefusal>
    ensures { result ≡ outcome_of (refused_unless good refusal None) }
{
    if good { Ok(()) } else { Err(refusal) }
}

/// Whether a list may have so many elements.
fn check_count(config: &RecConfig, count: usize) -> Result<(), PutRefusal>
    ensures { result ≡ outcome_of (refused_unless (nat_le count config.now.nelm) PutRefusal.TooManyElements None) }
{
    check(count <= config.nelm() as usize, PutRefusal::TooManyElements)
}

/// Whether these texts are short enough, and not too many.
fn check_texts(config: &RecConfig, texts: &[Name]) -> Result<(), PutRefusal>
    ensures { result ≡ outcome_of (own_refusal config.now (Datum.Texts texts.now)) }
{
    if !all_short(texts) {
        return Err(PutRefusal::TextTooLong);
    }
    check_count(config, texts.len())
}

/// Whether each text is short enough.
fn all_short(texts: &[Name]) -> bool
    ensures { result ≡ list_all is_short texts.now }
{
    for text in texts {
        if !is_short_text(text.as_str()) {
            return false;
        }
    }
    true
}

/// Whether a text has no more bytes than a record may hold.
fn is_short_text(text: &str) -> bool
    ensures { result ≡ is_short text.now }
{
    text.len() <= TEXT_BYTES as usize
}

/// How many indices there are for so many choices: sixteen where there are none.
pub(crate) fn index_limit(choices: usize) -> usize
    ensures { result ≡ (if choices == 0 then 16 else choices) }
{
    if choices == 0 { 16 } else { choices }
}
