// Why a site can't be built.
use db_load::LoadFault;
use group_defs::GroupFault;
use pvd_type::{Name, NoMemory};
use rec_kinds::BuildFault;
use std::alloc::{AllocError, AllocFailed};

/// Why a database text gives no site.
#[derive(Debug, Drop)]
pub enum SiteFault {
    /// The text can't be loaded.
    Load(LoadFault),
    /// The record of this name can't be built from its fields.
    Build(Name, BuildFault),
    /// A group can't be defined or built.
    Group(GroupFault),
    /// Memory ran out.
    NoMemory,
}

impl From<NoMemory> for SiteFault {
    ghost use Rattle.std.specs.Prelude.{◌≡◌};
    ghost use Rattle.desk_api.specs.declared.fault.SiteFault.TheVariants as faults;

    ghost from_gives = { λ _ e. e ≡ faults.NoMemory };

    fn from(_: NoMemory) -> SiteFault {
        SiteFault::NoMemory
    }
}

impl From<AllocError> for SiteFault {
    ghost use Rattle.std.specs.Prelude.{◌≡◌};
    ghost use Rattle.desk_api.specs.declared.fault.SiteFault.TheVariants as faults;

    ghost from_gives = { λ _ e. e ≡ faults.NoMemory };

    fn from(_: AllocError) -> SiteFault {
        SiteFault::NoMemory
    }
}

impl<T: Drop> From<AllocFailed<T>> for SiteFault {
    ghost use Rattle.std.specs.Prelude.{◌≡◌};
    ghost use Rattle.desk_api.specs.declared.fault.SiteFault.TheVariants as faults;

    ghost from_gives = { λ _ e. e ≡ faults.NoMemory };

    fn from(_: AllocFailed<T>) -> SiteFault {
        SiteFault::NoMemory
    }
}
