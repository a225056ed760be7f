ghost use Rattle.pvd_desc.specs.Grammar.{Found, Only, ReadBack, Unique};

/// The laws between the grammar of descriptions and their reader: what is read is described at the
/// front of the bytes; what is described there is read, whatever follows; so two descriptions that one
/// list of bytes begins with, after the same definitions, are one; and what is written is read back.
pub fn descriptions()
    ensures found { Found }
    ensures only { Only }
    ensures unique { Unique }
    ensures read_back { ReadBack }
{}
