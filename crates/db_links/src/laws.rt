// Laws of the definitions. Each is the contract of a function that does nothing.
ghost use Rattle.db_links.specs.Laws.{StepsAreReached, OthersOnce, OneChain};

/// Every step of a chain is on a record that one of its roots reaches.
pub fn steps_are_reached()
    ensures { StepsAreReached }
{}

/// A record without an action of its own stands in at most one step of a chain.
pub fn others_once()
    ensures { OthersOnce }
{}

/// The same actions after the same states have one chain.
pub fn one_chain()
    ensures { OneChain }
{}
