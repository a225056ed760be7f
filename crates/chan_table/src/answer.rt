use pvd_type::NoMemory;

/// Why a table doesn't take a channel or a request.
#[derive(Clone, Copy, Debug, PartialEq, Eq)]
pub enum TableAnswer {
    /// A request of this id is there already.
    InUse,
    /// There are as many channels, or requests, as there may be: so many, which is 4,096.
    Full(u32),
    /// The memory for one more couldn't be had. The table is as before.
    NoMemory,
}

impl From<NoMemory> for TableAnswer {
    ghost use Rattle.std.specs.Prelude.{◌≡◌};
    ghost use Rattle.chan_table.specs.declared.answer.TableAnswer.TheVariants.{NoMemory as short_of_memory};

    ghost from_gives = { λ _ answer. answer ≡ short_of_memory };

    fn from(_: NoMemory) -> TableAnswer {
        TableAnswer::NoMemory
    }
}
