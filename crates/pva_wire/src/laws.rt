ghost use Rattle.std.specs.Prelude.{◌≡◌, ◌<◌, ◌-◌, ◌^◌, ◌++◌, ℕ, List, length, Some, Ok};
ghost use Rattle.std.specs.Str.{IsUtf8};
ghost use Rattle.std.specs.FinSet.{FinSet};
ghost use Rattle.std.specs.Ordering.{nat_cmp};
ghost use Rattle.pva_wire.specs.declared.order.Order.{Order};
ghost use Rattle.pva_wire.specs.Spelling.{number_bytes, IsSize, IsText, SpellsNumber, SpellsSize, SpellsText, canonical_size, canonical_text};
ghost use Rattle.pva_wire.specs.Reading.{number_at, size_at, text_at};
ghost use Rattle.pva_wire.specs.Bits.{SpellsBits, AllLow, canonical_bits, bits_at};
ghost use Rattle.pva_wire.specs.Status.{SpellsStatus, canonical_status, status_at};
ghost use Rattle.pva_wire.specs.declared.status.Status as outcome;
ghost use Rattle.pva_wire.specs.Laws.{OneReading, SpelledIsRead, ReadIsSpelled};

/// Two items that one list of bytes begins with, in one order, are one, and so is what follows them.
pub fn one_reading()
    ensures number { (o : Order) (n : ℕ) → OneReading (SpellsNumber o n) }
    ensures size { (o : Order) → OneReading (SpellsSize o) }
    ensures text { (o : Order) → OneReading (SpellsText o) }
    ensures bits { (o : Order) → OneReading (SpellsBits o) }
    ensures status { (o : Order) → OneReading (SpellsStatus o) }
{}

/// What is spelled at the front of some bytes is read there, whatever follows: each reader answers Ok
/// where a front of its input is a spelling.
pub fn spelled_is_read()
    ensures number { (o : Order) (n : ℕ) → SpelledIsRead (SpellsNumber o n) (number_at o n) }
    ensures size { (o : Order) → SpelledIsRead (SpellsSize o) (size_at o) }
    ensures text { (o : Order) → SpelledIsRead (SpellsText o) (text_at o) }
    ensures bits { (o : Order) → SpelledIsRead (SpellsBits o) (bits_at o) }
    ensures status { (o : Order) → SpelledIsRead (SpellsStatus o) (status_at o) }
{}

/// What is read at the front of some bytes is spelled there: each reader answers Ok only where a
/// front of its input is a spelling.
pub fn read_is_spelled()
    ensures number { (o : Order) (n : ℕ) → ReadIsSpelled (SpellsNumber o n) (number_at o n) }
    ensures size { (o : Order) → ReadIsSpelled (SpellsSize o) (size_at o) }
    ensures text { (o : Order) → ReadIsSpelled (SpellsText o) (text_at o) }
    ensures bits { (o : Order) → ReadIsSpelled (SpellsBits o) (bits_at o) }
    ensures status { (o : Order) → ReadIsSpelled (SpellsStatus o) (status_at o) }
{}

/// The spelling of an item that is written is read as the item, whatever follows.
pub fn canonical_is_read()
    ensures number { (o : Order) (n x : ℕ) (rest : List ℕ) → x < 256 ^ n → number_at o n (number_bytes o n x ++ rest) ≡ Ok (x, rest) }
    ensures size { (o : Order) (n : ℕ) (rest : List ℕ) → IsSize n → size_at o (canonical_size o n ++ rest) ≡ Ok (Some n, rest) }
    ensures text { (o : Order) (text rest : List ℕ) → IsText text → text_at o (canonical_text o text ++ rest) ≡ Ok (text, rest) }
    ensures bits { (o : Order) (set : FinSet nat_cmp) (rest : List ℕ) → AllLow set → bits_at o (canonical_bits o set ++ rest) ≡ Ok (set, rest) }
    ensures status { (o : Order) (s : outcome.Status) (rest : List ℕ) → IsText s.message → IsText s.tree → status_at o (canonical_status o s ++ rest) ≡ Ok (s, rest) }
{}
