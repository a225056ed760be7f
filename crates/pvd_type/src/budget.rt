ghost use Rattle.std.specs.Prelude.{◌≡◌, ◌+◌, ◌<◌, OnOk, OnErr};

use crate::memory::NoMemory;

/// How many bytes of memory a read, or a blank value, may still take, so that few bytes can't stand for any number of values.
#[derive(Drop)]
pub struct Budget {
    pub left: u64,
}

impl Budget {
    /// A budget of so many bytes.
    pub fn of(bytes: u64) -> Budget
        ensures { result.left ≡ bytes }
    {
        Budget { left: bytes }
    }

    /// Takes bytes off the budget. Where fewer are left that is `NoMemory`, and none is taken.
    pub fn spend(&mut self, bytes: u64) -> Result<(), NoMemory>
        ensures ok { OnOk result (self.new.left + bytes ≡ self.old.left) }
        ensures err { OnErr result ((self.old.left < bytes) × (self.new ≡ self.old)) }
    {
        let Some(left) = self.left.checked_sub(bytes) else {
            return Err(NoMemory);
        };
        self.left = left;
        Ok(())
    }
}
