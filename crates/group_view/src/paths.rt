ghost use Rattle.std.specs.Prelude.{◌≡◌, IfOk};
ghost use Rattle.pvd_type.specs.Numbers.{path_of};
ghost use Rattle.group_view.specs.Seen.{path_seen};

use std::alloc::{AllocError, Global};

/// The names of a path, which dots divide.
pub(crate) fn path_of(alloc: Global, name: &str) -> Result<Vec<&str>, AllocError>
    ensures { IfOk result (λ path. path_seen path ≡ path_of name.now) }
{
    name.split('.').collect(alloc)
}
