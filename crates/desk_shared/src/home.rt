// Where a desk on a pass stands, as its type says it.
use std::marker::Brand;

/// The hall of a desk, what its history begins with, and the logs that its pass took in, each with the number of its seat. No call of the
/// desk changes them. Each use picks them: contracts alone see them, and they take no bytes.
pub trait Home {
    ghost use Rattle.std.specs.Prelude.{ℕ, List};
    ghost use Rattle.atomic_table.specs.Seated.{TableId};
    ghost use Rattle.desk_api.specs.declared.history.Base.{Base};
    ghost use Rattle.desk_api.specs.declared.mark.Mark.{Mark};

    ghost table: { TableId };

    ghost base: { Base };

    ghost others: { List (ℕ × List Mark) };
}

impl Home for Brand {
    ghost use Rattle.std.specs.Prelude.{[]};
    ghost use Rattle.desk_shared.specs.Homes.{no_base, nowhere};

    ghost table = { nowhere };

    ghost base = { no_base };

    ghost others = { [] };
}
