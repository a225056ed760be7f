// Laws of the definitions, each as the contract of a function that does nothing.
ghost use Rattle.db_text.specs.Grammar.{OneCut, TokensAreSlices};
ghost use Rattle.db_text.specs.Expansion.{LinesStay, OneExpansion};
ghost use Rattle.db_text.specs.Plain.{PlainStays};

/// A text without `$`, `#` and quotes is expanded to itself.
pub fn plain_text_stays()
    ensures { PlainStays }
{}

/// A text has one list of tokens up to its first fault, or to its end.
pub fn one_cut()
    ensures { OneCut }
{}

/// Tokens rise, and each is its slice of the text.
pub fn tokens_are_slices()
    ensures { TokensAreSlices }
{}

/// A text has one expansion or one first fault, and not both.
pub fn one_expansion()
    ensures { OneExpansion }
{}

/// Where no value ends a line, what was made has the line of the text as given behind each passage.
pub fn lines_stay()
    ensures { LinesStay }
{}
