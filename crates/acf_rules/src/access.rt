ghost use Rattle.std.specs.Prelude.{◌≡◌};
ghost use Rattle.acf_rules.specs.Access.{rank, greater};

/// What a user on a host may do with a channel.
#[derive(Clone, Copy, Debug, PartialEq, Eq)]
pub enum Access {
    /// Neither read nor write: no rule matches, or those that do say `NONE`.
    Nothing,
    /// Read, but not write.
    Read,
    /// Read and write.
    Write,
}

impl Access {
    /// `NONE` is below `READ`, and that below `WRITE`.
    fn rank(self) -> u8
        ensures { result ≡ rank self }
    {
        match self {
            Access::Nothing => 0,
            Access::Read => 1,
            Access::Write => 2,
        }
    }

    /// The greater one of two.
    pub(crate) fn greater(self, other: Access) -> Access
        ensures { result ≡ greater self other }
    {
        if self.rank() <= other.rank() {
            return other;
        }
        self
    }
}
