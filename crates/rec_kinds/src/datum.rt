// What a record holds, and what is done to it.
ghost use Rattle.std.specs.Prelude.{◌≡◌, true, IfOk, IfErr};
ghost use Rattle.rec_kinds.specs.Processing.{is_shared};

use crate::shared::{SharedItems, SharedText};
use pvd_type::{Name, NoMemory};
use std::alloc::Global;

/// What a record holds. Copies share their text or list, and take no memory.
#[derive(Debug, Drop)]
pub enum Datum {
    /// A number.
    Num(i64),
    /// The index of a choice.
    Index(u16),
    /// A text.
    Text(SharedText),
    /// Numbers in a row.
    Nums(SharedItems<i128>),
    /// Texts in a row.
    Texts(SharedItems<Name>),
}

/// What is done to a record.
#[derive(Debug, Drop)]
pub enum Action {
    /// It is put this datum, and then processed.
    Put(Datum),
    /// It is processed with the datum that it holds.
    Process,
}

impl Datum {
    /// A copy of the datum, which shares its text or list. It takes no memory: `NoMemory` is answered only where 2^63 - 1
    /// data share one text or list.
    pub fn clone_in(&self, _alloc: Global) -> Result<Datum, NoMemory>
        ensures same { IfOk result (λ datum. datum ≡ self.now) }
        ensures memory { IfErr result (λ _. is_shared self.now ≡ true) }
    {
        match self {
            Datum::Num(number) => Ok(Datum::Num(*number)),
            Datum::Index(index) => Ok(Datum::Index(*index)),
            Datum::Text(text) => Ok(Datum::Text(text.share()?)),
            Datum::Nums(numbers) => Ok(Datum::Nums(numbers.share()?)),
            Datum::Texts(texts) => Ok(Datum::Texts(texts.share()?)),
        }
    }
}
