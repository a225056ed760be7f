// The numbers of the command line.
ghost use Rattle.std.specs.Prelude.{◌≡◌, ◌≢◌, ◌<◌, ◌^◌, ℕ, MatchOption};
ghost use Rattle.std.specs.Fmt.{decimal};
ghost use Rattle.prog_source.specs.Words.{IsCount, is_plain_count};

/// Whether bytes begin as a number does that has no sign: not with a zero before another digit.
fn is_plain_count(bytes: &[u8]) -> bool
    ensures { result ≡ is_plain_count bytes.now }
{
    matches!(bytes, [b'0'] | [b'1'..=b'9', ..])
}

/// Reads a number: decimal digits, without a sign and without a zero in front (`0` itself is one). None also where it doesn't
/// fit.
fn read_count(text: &str) -> Option<u64>
    ensures { MatchOption result ((n : ℕ) → n < 2 ^ 64 → text.now ≢ decimal n) (λ n. text.now ≡ decimal n) }
{
    if !is_plain_count(text.as_bytes()) {
        return None;
    }
    text.parse::<u64>().ok()
}

/// The number that a text says, from the least to the most that it may be.
pub fn count_within(text: &str, least: u64, most: u64) -> Option<u64>
    ensures { MatchOption result ((n : ℕ) → ¬ (IsCount text.now least most n)) (IsCount text.now least most) }
{
    let count = read_count(text)?;
    if count < least {
        return None;
    }
    if count > most {
        return None;
    }
    Some(count)
}
