ghost use Rattle.std.specs.Prelude.{◌≡◌};
ghost use Rattle.pvd_desc.specs.Reading.{desc_at};
ghost use Rattle.pvd_desc.specs.Faults.{GivesAt};

use crate::fault::DescFault;
use crate::reading::desc_at;
use crate::registry::{Definitions, Registry};
use pva_wire::Cursor;
use pvd_type::PvType;
use std::alloc::Global;

/// Reads the description of a type; None is the null description (pvAccess Protocol Specification,
/// "Introspection Data"). The types that it defines go into the registry, where a later definition of
/// an id takes the place of an older one. After a refusal the cursor and the registry are as before.
///
/// NoMemory is answered too where its nodes and definitions would take more than 16 MiB.
pub fn read_desc(
    alloc: Global,
    from: &mut Cursor,
    registry: &mut Registry,
) -> Result<Option<PvType>, DescFault>
    ensures exact { GivesAt from.old from.new registry.old registry.new (λ x. x) result (desc_at from.old.order registry.old from.old.rest) }
{
    let mut defined = Definitions::new(alloc);
    let bytes = from.rest();
    match desc_at(alloc, from.order(), registry, &mut defined, bytes) {
        Ok((ty, rest)) => {
            registry.commit(defined)?;
            from.go_to(rest);
            Ok(ty)
        }
        Err(stop) => Err(stop.placed(from.length())),
    }
}
