// What the program is to serve or to check: SOURCE.
ghost use Rattle.std.specs.Prelude.{◌≡◌, ℤ, MatchOption};
ghost use Rattle.prog_source.specs.Words.{IsNumber, IsSource, is_plain, source_of};
ghost use Rattle.prog_source.specs.Words as specs;

use desk_api::is_record_name;

/// Where the records come from.
#[derive(Clone, Copy, Debug, PartialEq, Eq)]
pub enum Source<'a> {
    /// One longout of this name, which opens with this value.
    Record(&'a str, i32),
    /// The database text in the file of this name.
    File(&'a str),
}

/// The source that a text names: `NAME=VALUE` where it has a `=`, else a file. None where there is a `=`, and NAME is no
/// name of a record or VALUE no number. NAME ends at the first `=`.
pub fn read_source(text: &str) -> Option<Source<'_>>
    ensures { MatchOption result ((s : specs.Source) → ¬ (IsSource text.now s)) (λ s. IsSource text.now (source_of s)) }
{
    let Some((name, number)) = text.split_once('=') else {
        return Some(Source::File(text));
    };
    if !is_record_name(name) {
        return None;
    }
    let value = read_number(number)?;
    Some(Source::Record(name, value))
}

/// Reads a number: decimal digits without a zero in front (`0` itself is one), with a `-` before them where it is
/// negative. None also where it doesn't fit.
fn read_number(text: &str) -> Option<i32>
    ensures { MatchOption result ((z : ℤ) → ¬ (IsNumber text.now z)) (IsNumber text.now) }
{
    if !is_plain(text.as_bytes()) {
        return None;
    }
    text.parse::<i32>().ok()
}

/// Whether the bytes begin as a number does: neither with a plus, nor with a zero before another digit or behind a minus.
fn is_plain(bytes: &[u8]) -> bool
    ensures { result ≡ is_plain bytes.now }
{
    matches!(bytes, [b'0'] | [b'1'..=b'9', ..] | [b'-', b'1'..=b'9', ..])
}
