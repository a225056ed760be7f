ghost use Rattle.std.specs.Prelude.{◌≡◌, ℕ, true, IfOk, if◌then◌else◌};
ghost use Rattle.std.specs.FinSet.{contains};
ghost use Rattle.pvd_value.specs.View.{view};
ghost use Rattle.pvd_value.specs.Leaves.{leaf_at};
ghost use Rattle.pvd_value.specs.Fits.{fits_of};

use crate::joining::discard;
use pvd_type::{BitSet, NoMemory, PvType};
use pvd_value::{PvValue, merge};
use std::alloc::Global;
use std::marker::Model;
use std::sync::Arc;

/// A value that all who are told of it share: it is made once, and let go with the last of them.
///
/// A contract sees the value.
#[derive(Drop)]
pub struct SharedValue {
    whole: Arc<PvValue>,
}

impl Model for SharedValue {
    ghost use Rattle.std.specs.Arc.{arc_value};
    ghost use Rattle.pvd_value.specs.declared.value.PvValue.{PvValue};
    ghost use Rattle.pvd_value.specs.contracts.value.PvValue as value;

    ghost Value = { PvValue };

    ghost coded = { value.the_row.coded };

    ghost view = { λ a. arc_value a.whole };
}

impl SharedValue {
    /// A value that nobody else has yet.
    pub fn new(alloc: Global, value: PvValue) -> Result<SharedValue, NoMemory>
        ensures { IfOk result (λ shared. shared ≡ value) }
    {
        Ok(SharedValue {
            whole: Arc::new(alloc, value)?,
        })
    }

    /// The same value for one more. `NoMemory` is answered only where 2^63 - 1 share it.
    pub fn share(&self) -> Result<SharedValue, NoMemory>
        ensures { IfOk result (λ shared. shared ≡ self.now) }
    {
        Ok(SharedValue {
            whole: Arc::try_clone(&self.whole)?,
        })
    }

    /// The value.
    pub fn value(&self) -> &PvValue
        ensures { result.now ≡ self.now }
    {
        &self.whole
    }

    /// A value of its own, with these leaves of another.
    pub fn with(
        &self,
        alloc: Global,
        ty: &PvType,
        mask: &BitSet,
        other: &PvValue,
    ) -> Result<SharedValue, NoMemory>
        requires own { fits_of 16 (view self.now) ty.now ≡ true }
        requires other { fits_of 16 (view other.now) ty.now ≡ true }
        ensures fits { IfOk result (λ v. fits_of 16 (view v) ty.now ≡ true) }
        ensures leaves { IfOk result (λ v. (k : ℕ) → leaf_at k ty.now (view v) ≡ (if contains mask.now k then leaf_at k ty.now (view other.now) else leaf_at k ty.now (view self.now))) }
    {
        let mut value = self.whole.clone_in(alloc)?;
        match merge(alloc, ty, &mut value, mask, other) {
            Ok(()) => SharedValue::new(alloc, value),
            Err(no_memory) => {
                discard(value);
                Err(no_memory)
            }
        }
    }
}
