// What a list's elements are.
ghost use Rattle.std.specs.Prelude.{◌≡◌};
ghost use Rattle.rec_kinds.specs.Choices.{element_of};

use crate::named::named;

/// The type of a waveform's elements (EPICS record reference, "waveform", FTVL).
#[derive(Clone, Copy, Debug, PartialEq, Eq)]
pub enum Element {
    /// `STRING`: texts of at most 39 bytes.
    Text,
    /// `CHAR`: numbers of 8 bits with a sign.
    I8,
    /// `UCHAR`: numbers of 8 bits without a sign.
    U8,
    /// `SHORT`: numbers of 16 bits with a sign.
    I16,
    /// `USHORT`: numbers of 16 bits without a sign.
    U16,
    /// `LONG`: numbers of 32 bits with a sign.
    I32,
    /// `ULONG`: numbers of 32 bits without a sign.
    U32,
    /// `INT64`: numbers of 64 bits with a sign.
    I64,
    /// `UINT64`: numbers of 64 bits without a sign.
    U64,
}

const ELEMENTS: [(&str, Element); 9] = [
    ("STRING", Element::Text),
    ("CHAR", Element::I8),
    ("UCHAR", Element::U8),
    ("SHORT", Element::I16),
    ("USHORT", Element::U16),
    ("LONG", Element::I32),
    ("ULONG", Element::U32),
    ("INT64", Element::I64),
    ("UINT64", Element::U64),
];

/// The type of this name; none exactly where no type has it.
pub(crate) fn element_named(text: &str) -> Option<Element>
    ensures { result ≡ element_of text.now }
{
    named(&ELEMENTS, text)
}
