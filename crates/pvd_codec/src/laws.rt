ghost use Rattle.pvd_codec.specs.Found.{FullFits, PartFits, ReadIsFull, ReadIsPart};
ghost use Rattle.pvd_codec.specs.Laws.{FullIsRead, OneFull, WrittenFullIsRead, PartIsRead, OnePart, WrittenPartIsRead};
ghost use Rattle.pvd_codec.specs.Written.{WrittenIsFull, WrittenIsPart};

/// What is written spells the value that was given, whatever types are known before, and defines none:
/// the spelling of a value that fits its type is in the grammar of whole values, and that of its marked
/// leaves is in the grammar of parts, where the leaves that aren't marked are blank.
pub fn written_is_spelled()
    ensures full { WrittenIsFull }
    ensures part { WrittenIsPart }
{}

/// The laws between the grammar of whole values and their reader: what spells a value at the front of
/// some bytes is read as it, whatever follows; so two values that one list of bytes begins with, of one
/// type and after the same definitions, are one; and what is written is read back.
pub fn values()
    ensures only { FullIsRead }
    ensures unique { OneFull }
    ensures read_back { WrittenFullIsRead }
{}

/// The same laws for parts: what spells a part is read as it, mask and value, whatever follows; so two
/// parts that one list of bytes begins with are one; and what is written of the marked leaves of a value
/// is read back, with blank leaves elsewhere.
pub fn value_parts()
    ensures only { PartIsRead }
    ensures unique { OnePart }
    ensures read_back { WrittenPartIsRead }
{}

/// What is read at the front of some bytes is spelled there: the readers answer a value, or a part, only
/// where a front of their input is in the grammar.
pub fn read_is_spelled()
    ensures full { ReadIsFull }
    ensures part { ReadIsPart }
{}

/// What spells a value, or a part of one, spells one that fits its type.
pub fn spelled_fits()
    ensures full { FullFits }
    ensures part { PartFits }
{}
