// A record's value by itself.
ghost use Rattle.std.specs.Prelude.{◌≡◌, true, IfOk, IfSome};
ghost use Rattle.pvd_type.specs.View.{shape_view};
ghost use Rattle.pvd_value.specs.Fits.{fits_of};
ghost use Rattle.pvd_value.specs.View.{view};
ghost use Rattle.rec_kinds.specs.Sorts.{suits};
ghost use Rattle.rec_kinds.specs.Validity.{MayBeDone};
ghost use Rattle.rec_fields.specs.Plain.{plain_tree, plain_shown, leaf_datum, IsLeafAction};

use crate::datum::{datum_of, index_of_leaf};
use crate::puts::{FieldAnswer, checked, index_refusal};
use crate::shown::value_of;
use crate::types::scalar_for;
use pvd_type::{Extent, NoMemory, Scalar, Shape};
use pvd_value::PvValue;
use rec_kinds::{Action, Datum, Kind, RecConfig};
use std::alloc::Global;

/// The type of a record's value by itself: that of its structure, but an index is an int without choices (QSRV manual,
/// "Field mapping types", `plain`).
pub fn plain_shape(config: &RecConfig) -> Shape
    ensures { shape_view result ≡ plain_tree config.now }
{
    match config.kind() {
        Kind::Longin | Kind::Longout => Shape::Plain(Scalar::I32),
        Kind::Int64in | Kind::Int64out => Shape::Plain(Scalar::I64),
        Kind::Bi | Kind::Bo | Kind::Mbbi | Kind::Mbbo => Shape::Plain(Scalar::I32),
        Kind::Stringin | Kind::Stringout => Shape::Plain(Scalar::Text),
        Kind::Waveform => Shape::List(scalar_for(config.ftvl()), Extent::Variable),
    }
}

/// A record's value by itself, of a datum that it may hold. It fits [`plain_shape`]. A list is copied once.
pub fn plain_view(alloc: Global, config: &RecConfig, datum: &Datum) -> Result<PvValue, NoMemory>
    requires { suits config.now datum.now ≡ true }
    ensures { IfOk result (λ v. view v ≡ plain_shown config.now datum.now) }
{
    match datum {
        Datum::Index(index) => Ok(PvValue::I32(i32::from(*index))),
        Datum::Num(_) | Datum::Text(_) | Datum::Nums(_) | Datum::Texts(_) => {
            value_of(alloc, config, datum)
        }
    }
}

/// The action that a put of a record's value by itself is, or of the leaf of its structure that is put (`value`, and of an
/// enum `value.index`). A disabled record refuses, and then the record's kind decides. A list is copied once.
pub fn leaf_action(alloc: Global, config: &RecConfig, leaf: &PvValue) -> Result<Action, FieldAnswer>
    requires { fits_of 16 (view leaf.now) (plain_tree config.now) ≡ true }
    ensures answer { IsLeafAction config.now (view leaf.now) result }
    ensures may { IfOk result (MayBeDone config.now) }
{
    match leaf_datum(alloc, config, leaf)? {
        Some(datum) => checked(config, datum),
        None => Err(FieldAnswer::Refused(index_refusal(config))),
    }
}

/// The datum that a record's value by itself brings; none of an index outside 16 bits.
fn leaf_datum(alloc: Global, config: &RecConfig, leaf: &PvValue) -> Result<Option<Datum>, NoMemory>
    requires { fits_of 16 (view leaf.now) (plain_tree config.now) ≡ true }
    ensures same { IfOk result (λ datum. datum ≡ leaf_datum config.now.kind (view leaf.now)) }
    ensures sort { IfOk result (λ datum. IfSome datum (λ d. suits config.now d ≡ true)) }
{
    match config.kind() {
        Kind::Bi | Kind::Bo | Kind::Mbbi | Kind::Mbbo => Ok(index_of_leaf(leaf)),
        Kind::Longin | Kind::Longout | Kind::Int64in | Kind::Int64out => datum_of(alloc, leaf),
        Kind::Stringin | Kind::Stringout | Kind::Waveform => datum_of(alloc, leaf),
    }
}
