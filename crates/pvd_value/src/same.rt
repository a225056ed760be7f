ghost use Rattle.std.specs.Prelude.{◌≡◌, ◌&&◌};
ghost use Rattle.pvd_type.specs.Same.{same_tree};
ghost use Rattle.pvd_value.specs.View.{view, row_view, optional_view, carried_view, items_view};
ghost use Rattle.pvd_value.specs.Same.{same_data, same_row, same_many};

use crate::value::{Items, PvValue};
use pvd_type::PvType;

/// Whether two values are the same in every part.
#[cycle(same)]
#[tactic(auto, using(crate::proofs::Rows::view_structs, crate::proofs::Rows::view_unions, crate::proofs::Rows::view_variants))]
pub fn same_value(a: &PvValue, b: &PvValue) -> bool
    ensures { result ≡ same_data (view a.now) (view b.now) }
{
    match (a, b) {
        (PvValue::Bool(x), PvValue::Bool(y)) => x == y,
        (PvValue::I8(x), PvValue::I8(y)) => x == y,
        (PvValue::I16(x), PvValue::I16(y)) => x == y,
        (PvValue::I32(x), PvValue::I32(y)) => x == y,
        (PvValue::I64(x), PvValue::I64(y)) => x == y,
        (PvValue::U8(x), PvValue::U8(y)) => x == y,
        (PvValue::U16(x), PvValue::U16(y)) => x == y,
        (PvValue::U32(x), PvValue::U32(y)) => x == y,
        (PvValue::U64(x), PvValue::U64(y)) => x == y,
        (PvValue::F32(x), PvValue::F32(y)) => x == y,
        (PvValue::F64(x), PvValue::F64(y)) => x == y,
        (PvValue::Text(x), PvValue::Text(y)) => x == y,
        (PvValue::List(x), PvValue::List(y)) => same_items(x, y),
        (PvValue::Struct(xs), PvValue::Struct(ys)) => same_rows(xs, ys),
        (PvValue::Union(None), PvValue::Union(None)) => true,
        (PvValue::Union(Some((m, x))), PvValue::Union(Some((n, y)))) => m == n && same_value(x, y),
        (PvValue::Variant(None), PvValue::Variant(None)) => true,
        (PvValue::Variant(Some((t, x))), PvValue::Variant(Some((u, y)))) => {
            same_carried(x, y, t, u)
        }
        (PvValue::StructList(xs), PvValue::StructList(ys)) => same_optional(xs, ys),
        (PvValue::UnionList(xs), PvValue::UnionList(ys)) => same_optional(xs, ys),
        (PvValue::VariantList(xs), PvValue::VariantList(ys)) => same_variants(xs, ys),
        _ => false,
    }
}

#[cycle(same)]
fn same_rows(a: &[PvValue], b: &[PvValue]) -> bool
    ensures { result ≡ same_row (row_view a.now) (row_view b.now) }
{
    if a.len() != b.len() {
        return false;
    }
    for i in 0..a.len() {
        if !same_value(&a[i], &b[i]) {
            return false;
        }
    }
    true
}

#[cycle(same)]
fn same_optional(a: &[Option<Box<PvValue>>], b: &[Option<Box<PvValue>>]) -> bool
    ensures { result ≡ same_row (optional_view a.now) (optional_view b.now) }
{
    if a.len() != b.len() {
        return false;
    }
    for i in 0..a.len() {
        match (&a[i], &b[i]) {
            (None, None) => {}
            (Some(x), Some(y)) => {
                if !same_value(x, y) {
                    return false;
                }
            }
            _ => return false,
        }
    }
    true
}

#[cycle(same)]
fn same_variants(a: &[Option<Box<(PvType, PvValue)>>], b: &[Option<Box<(PvType, PvValue)>>]) -> bool
    ensures { result ≡ same_row (carried_view a.now) (carried_view b.now) }
{
    if a.len() != b.len() {
        return false;
    }
    for i in 0..a.len() {
        match (&a[i], &b[i]) {
            (None, None) => {}
            (Some(p), Some(q)) => {
                let (t, x) = &**p;
                let (u, y) = &**q;
                if !same_carried(x, y, t, u) {
                    return false;
                }
            }
            _ => return false,
        }
    }
    true
}

#[cycle(same)]
fn same_carried(x: &PvValue, y: &PvValue, t: &PvType, u: &PvType) -> bool
    ensures { result ≡ (same_tree t.now u.now && same_data (view x.now) (view y.now)) }
{
    t == u && same_value(x, y)
}

/// Whether two lists of scalars are the same.
fn same_items(a: &Items, b: &Items) -> bool
    ensures { result ≡ same_many (items_view a.now) (items_view b.now) }
{
    match (a, b) {
        (Items::Bool(x), Items::Bool(y)) => x == y,
        (Items::I8(x), Items::I8(y)) => x == y,
        (Items::I16(x), Items::I16(y)) => x == y,
        (Items::I32(x), Items::I32(y)) => x == y,
        (Items::I64(x), Items::I64(y)) => x == y,
        (Items::U8(x), Items::U8(y)) => x == y,
        (Items::U16(x), Items::U16(y)) => x == y,
        (Items::U32(x), Items::U32(y)) => x == y,
        (Items::U64(x), Items::U64(y)) => x == y,
        (Items::F32(x), Items::F32(y)) => x == y,
        (Items::F64(x), Items::F64(y)) => x == y,
        (Items::Text(x), Items::Text(y)) => x == y,
        _ => false,
    }
}
