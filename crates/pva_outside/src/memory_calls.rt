// The calls of an object in memory, of which some are to fail.
ghost use Rattle.std.specs.Prelude.{◌≡◌, ◌↔◌, IsTrue};
ghost use Rattle.pva_outside.specs.MemoryCalls.{IsOneMore, IsToFail};

use crate::count::raise;

/// How many calls were made, and the numbers of those that are to fail, counted from 1.
#[derive(Drop)]
pub(crate) struct MemoryCalls {
    made: u64,
    failing: Vec<u64>,
}

impl MemoryCalls {
    /// No call was made so far.
    pub(crate) fn new(failing: Vec<u64>) -> MemoryCalls
        ensures made { result.made ≡ 0 }
        ensures failing { result.failing.items ≡ failing.items }
    {
        MemoryCalls { made: 0, failing }
    }

    /// Counts one call more, and tells whether it is to fail.
    pub(crate) fn next_fails(&mut self) -> bool
        ensures call { IsOneMore self.old self.new }
        ensures fails { IsTrue result ↔ IsToFail self.new }
    {
        raise(&mut self.made);
        self.failing.contains(&self.made)
    }
}
