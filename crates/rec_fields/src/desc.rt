// The description of a record as a channel.
ghost use Rattle.std.specs.Prelude.{◌≡◌, IfOk, true};
ghost use Rattle.nt_types.specs.Types.{scalar_tree};
ghost use Rattle.pvd_value.specs.Fits.{fits_of};
ghost use Rattle.pvd_value.specs.View.{view};
ghost use Rattle.rec_fields.specs.Shown.{desc_shown};

use crate::parts::{alarm_of, three_of, time_of};
use crate::types::made;
use nt_types::nt_scalar;
use pvd_type::{Name, NoMemory, PvType, Scalar};
use pvd_value::PvValue;
use rec_kinds::RecConfig;
use std::alloc::Global;

/// The type of a record's description: an NTScalar of string (EPICS Normative Types 1.0).
pub fn desc_type(alloc: Global) -> Result<PvType, NoMemory>
    ensures { IfOk result (λ ty. ty ≡ scalar_tree Scalar.Text) }
{
    made(nt_scalar(alloc, Scalar::Text))
}

/// What a record's description shows: the field DESC, without an alarm, at time 0. It fits [`desc_type`].
pub fn desc_view(alloc: Global, config: &RecConfig) -> Result<PvValue, NoMemory>
    ensures shown { IfOk result (λ v. view v ≡ desc_shown config.now) }
    ensures fits { IfOk result (λ v. fits_of 16 (view v) (scalar_tree Scalar.Text) ≡ true) }
{
    let text = PvValue::Text(Name::of(alloc, config.desc())?);
    let alarm = alarm_of(alloc, 0, 0, "")?;
    let time = time_of(alloc, 0, 0, 0)?;
    let value = three_of(alloc, text, alarm, time)?;
    Ok(value)
}
