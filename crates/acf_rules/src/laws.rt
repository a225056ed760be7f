// A law of the definitions, as the contract of a function that does nothing.
ghost use Rattle.acf_rules.specs.Reading.{OneReading};

/// A text has one set of rules or one first fault, and not both.
pub fn one_reading()
    ensures { OneReading }
{}
