// What a put of a value does.
ghost use Rattle.std.specs.Prelude.{◌≡◌, true, IfOk};
ghost use Rattle.pvd_value.specs.Fits.{fits_of};
ghost use Rattle.pvd_value.specs.View.{view};
ghost use Rattle.rec_kinds.specs.Validity.{IsOfSort, MayBeDone, refusal};
ghost use Rattle.rec_fields.specs.Puts.{IsAction, value_leaf, outside, taken_unless};
ghost use Rattle.rec_fields.specs.Types.{record_tree};
ghost use Rattle.rec_fields.specs.declared.puts.FieldAnswer.TheVariants.{NoMemory as TheNoMemory};

use crate::datum::{datum_of, first_of};
use pvd_type::{BitSet, NoMemory};
use pvd_value::PvValue;
use rec_kinds::{Action, Datum, Kind, PutRefusal, RecConfig, check_put};
use std::alloc::Global;

/// Why a put of a value gives no action.
#[derive(Clone, Copy, Debug, PartialEq, Eq)]
pub enum FieldAnswer {
    /// The record doesn't take it.
    Refused(PutRefusal),
    /// The memory that the call needed couldn't be had.
    NoMemory,
}

impl From<NoMemory> for FieldAnswer {
    ghost from_gives = { λ _ e. e ≡ TheNoMemory };

    fn from(_: NoMemory) -> FieldAnswer {
        FieldAnswer::NoMemory
    }
}

/// The action that a put of a value with these marked leaves is. Nothing is writable where the value's leaf (`value`, and of
/// an enum `value.index`) isn't marked; else a disabled record refuses, and then the record's kind decides. A list is
/// copied once.
pub fn action_of(
    alloc: Global,
    config: &RecConfig,
    value: &PvValue,
    mask: &BitSet,
) -> Result<Action, FieldAnswer>
    requires { fits_of 16 (view value.now) (record_tree config.now) ≡ true }
    ensures answer { IsAction config.now (view value.now) mask.now result }
    ensures may { IfOk result (MayBeDone config.now) }
{
    if !mask.contains(leaf_of(config.kind())) {
        return Err(FieldAnswer::Refused(PutRefusal::NothingWritable));
    }
    let Some(datum) = datum_of(alloc, first_of(value))? else {
        return Err(FieldAnswer::Refused(index_refusal(config)));
    };
    checked(config, datum)
}

/// The put of a datum, if the record takes it.
pub(crate) fn checked(config: &RecConfig, datum: Datum) -> Result<Action, FieldAnswer>
    requires { IsOfSort config.now datum }
    ensures answer { result ≡ taken_unless (refusal config.now datum) datum }
    ensures may { IfOk result (MayBeDone config.now) }
{
    match check_put(config, &datum) {
        Ok(()) => Ok(Action::Put(datum)),
        Err(refusal) => Err(FieldAnswer::Refused(refusal)),
    }
}

/// Why an index outside 16 bits is refused.
pub(crate) fn index_refusal(config: &RecConfig) -> PutRefusal
    ensures { FieldAnswer.Refused result ≡ outside config.now }
{
    if config.is_disabled() {
        PutRefusal::Disabled
    } else {
        PutRefusal::IndexOutside
    }
}

/// The number of the leaf that is put.
fn leaf_of(kind: Kind) -> u32
    ensures { result ≡ value_leaf kind }
{
    match kind {
        Kind::Bi | Kind::Bo | Kind::Mbbi | Kind::Mbbo => 2,
        Kind::Longin | Kind::Longout | Kind::Int64in | Kind::Int64out => 1,
        Kind::Stringin | Kind::Stringout | Kind::Waveform => 1,
    }
}
