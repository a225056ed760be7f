// A law of the definitions, as the contract of a function that does nothing.
ghost use Rattle.db_load.specs.Loading.{OneLoading};

/// A text has one list of records or one first fault, and not both.
pub fn one_loading()
    ensures { OneLoading }
{}
