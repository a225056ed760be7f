// The kinds of records and their names.
ghost use Rattle.std.specs.Prelude.{◌≡◌};
ghost use Rattle.rec_kinds.specs.Kinds.{kind_of};

use crate::named::named;

/// The kind of a record (EPICS record reference).
#[derive(Clone, Copy, Debug, PartialEq, Eq)]
pub enum Kind {
    /// A number of 32 bits that is read.
    Longin,
    /// A number of 32 bits that is put.
    Longout,
    /// A number of 64 bits that is read.
    Int64in,
    /// A number of 64 bits that is put.
    Int64out,
    /// One of two choices that is read.
    Bi,
    /// One of two choices that is put.
    Bo,
    /// One of up to sixteen choices that is read.
    Mbbi,
    /// One of up to sixteen choices that is put.
    Mbbo,
    /// A text that is read.
    Stringin,
    /// A text that is put.
    Stringout,
    /// A list of numbers or of texts.
    Waveform,
}

const KINDS: [(&str, Kind); 11] = [
    ("longin", Kind::Longin),
    ("longout", Kind::Longout),
    ("int64in", Kind::Int64in),
    ("int64out", Kind::Int64out),
    ("bi", Kind::Bi),
    ("bo", Kind::Bo),
    ("mbbi", Kind::Mbbi),
    ("mbbo", Kind::Mbbo),
    ("stringin", Kind::Stringin),
    ("stringout", Kind::Stringout),
    ("waveform", Kind::Waveform),
];

/// The kind of this name; none exactly where no kind has it.
pub fn kind_named(text: &str) -> Option<Kind>
    ensures { result ≡ kind_of text.now }
{
    named(&KINDS, text)
}
