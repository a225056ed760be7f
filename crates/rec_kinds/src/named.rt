// Tables whose rows have names.
ghost use Rattle.std.specs.Prelude.{◌≡◌, map};
ghost use Rattle.rec_kinds.specs.Named.{first_named, named_row};

/// What the first row of this name has; none where no row has it.
pub(crate) fn named<T: Copy>(rows: &[(&str, T)], name: &str) -> Option<T>
    ensures { result ≡ first_named name.now (map named_row rows.now) }
{
    for row in rows {
        if row.0 == name {
            return Some(row.1);
        }
    }
    None
}
