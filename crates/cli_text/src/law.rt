ghost use Rattle.std.specs.Prelude.{◌≡◌, true, Ok};
ghost use Rattle.pvd_value.specs.Data.{Single};
ghost use Rattle.pvd_value.specs.Fits.{scalar_of};
ghost use Rattle.cli_text.specs.Words.{read_scalar, is_givable, word_of};

/// What is printed can be given back: a number or a boolean within the range of its type is read as itself from its printed text,
/// and a string from its own text, without the quotes and escapes in which it is printed. A float is printed as a bit pattern, which
/// no word gives.
pub fn printed_scalars_are_read_back()
    ensures { (x : Single) → is_givable x ≡ true → read_scalar (scalar_of x) (word_of x) ≡ Ok x }
{}
