// What members show of their records.
ghost use Rattle.std.specs.Prelude.{◌≡◌, true, IfOk};
ghost use Rattle.pvd_type.specs.View.{shape_view};
ghost use Rattle.pvd_value.specs.Fits.{fits_of};
ghost use Rattle.pvd_value.specs.View.{view};
ghost use Rattle.rec_kinds.specs.Sorts.{suits};
ghost use Rattle.rec_kinds.specs.Validity.{IsValid};
ghost use Rattle.rec_fields.specs.Plain.{plain_tree};
ghost use Rattle.rec_fields.specs.Shown.{shown};
ghost use Rattle.rec_fields.specs.Types.{record_tree};
ghost use Rattle.group_view.specs.Pieces.{piece_tree, piece_shown, meta_tree, meta_shown, list_number, value_without_list};
ghost use Rattle.group_view.specs.Views.{IsPart};

use nt_types::{alarm, time};
use pvd_type::{BitSet, Member, Name, NoMemory, Node, PvType, Shape};
use pvd_value::{Items, PvValue, blank_shape};
use rec_fields::{alarm_view, plain_shape, plain_view, time_view, type_of, view};
use rec_kinds::{Datum, Kind, RecConfig, RecState};
use std::alloc::Global;

/// What a member shows of its record at one place.
#[derive(Clone, Copy, Debug, PartialEq, Eq)]
pub(crate) enum Piece {
    /// The record's whole structure.
    Whole,
    /// The record's value by itself.
    Plain,
    /// A variant that holds the value by itself.
    Any,
    /// A structure of alarm and time stamp.
    Meta,
    /// The alarm.
    Alarm,
    /// The time stamp.
    Time,
}

impl Piece {
    /// The type of what is shown of a record.
    pub fn ty(self, alloc: Global, config: &RecConfig) -> Result<PvType, NoMemory>
        ensures { IfOk result (λ ty. ty ≡ piece_tree self config.now) }
    {
        match self {
            Piece::Whole => type_of(alloc, config),
            Piece::Plain => plain_type(alloc, config),
            Piece::Any => PvType::of_checked(alloc, Shape::Variant),
            Piece::Meta => PvType::of_checked(alloc, meta_shape(alloc)?),
            Piece::Alarm => PvType::of_checked(alloc, alarm(alloc)?),
            Piece::Time => PvType::of_checked(alloc, time(alloc)?),
        }
    }

    /// What is shown of a state that the record may be in.
    pub fn view(
        self,
        alloc: Global,
        config: &RecConfig,
        state: &RecState,
    ) -> Result<PvValue, NoMemory>
        requires { IsValid config.now state.now }
        ensures { IfOk result (λ v. view v ≡ piece_shown self config.now state.now) }
    {
        match self {
            Piece::Whole => view(alloc, config, state),
            Piece::Plain => plain_view(alloc, config, &state.datum),
            Piece::Any => any_view(alloc, config, state),
            Piece::Meta => meta_view(alloc, state),
            Piece::Alarm => alarm_view(alloc, state),
            Piece::Time => time_view(alloc, state),
        }
    }

    /// The same, where the leaves are those of the mask; what it has elsewhere isn't said. A list that isn't marked is not
    /// copied.
    pub fn part(
        self,
        alloc: Global,
        config: &RecConfig,
        state: &RecState,
        mask: &BitSet,
    ) -> Result<PvValue, NoMemory>
        requires { IsValid config.now state.now }
        ensures part { IfOk result (λ v. IsPart mask.now 0 (piece_tree self config.now) (view v) (piece_shown self config.now state.now)) }
        ensures fits { IfOk result (λ v. fits_of 16 (view v) (piece_tree self config.now) ≡ true) }
    {
        match self {
            Piece::Whole => whole_part(alloc, config, state, mask),
            Piece::Plain | Piece::Any | Piece::Meta | Piece::Alarm | Piece::Time => {
                self.view(alloc, config, state)
            }
        }
    }
}

/// A record's structure, without its list where that isn't marked.
fn whole_part(
    alloc: Global,
    config: &RecConfig,
    state: &RecState,
    mask: &BitSet,
) -> Result<PvValue, NoMemory>
    requires { IsValid config.now state.now }
    ensures part { IfOk result (λ v. IsPart mask.now 0 (record_tree config.now) (view v) (shown config.now state.now)) }
    ensures fits { IfOk result (λ v. fits_of 16 (view v) (record_tree config.now) ≡ true) }
{
    if mask.contains(list_number(config.kind())) {
        return view(alloc, config, state);
    }
    let value = value_without_list(alloc, config, &state.datum)?;
    let alarm = alarm_view(alloc, state)?;
    let time = time_view(alloc, state)?;
    Ok(PvValue::Struct(vec![in alloc; value, alarm, time]?))
}

/// The number of the list in a record's structure: the elements of a waveform, or the choices of an index. Where there is no
/// list it is the number of the value.
fn list_number(kind: Kind) -> u32
    ensures { result ≡ list_number kind }
{
    match kind {
        Kind::Bi | Kind::Bo | Kind::Mbbi | Kind::Mbbo => 3,
        Kind::Longin
        | Kind::Longout
        | Kind::Int64in
        | Kind::Int64out
        | Kind::Stringin
        | Kind::Stringout
        | Kind::Waveform => 1,
    }
}

/// What a record's structure has as its value, with an empty list in place of its own.
fn value_without_list(alloc: Global, config: &RecConfig, datum: &Datum) -> Result<PvValue, NoMemory>
    requires { suits config.now datum.now ≡ true }
    ensures { IfOk result (λ v. view v ≡ value_without_list config.now datum.now) }
{
    match datum {
        Datum::Index(index) => {
            let choices = PvValue::List(Items::Text(Vec::new(alloc)));
            let index = PvValue::I32(i32::from(*index));
            Ok(PvValue::Struct(vec![in alloc; index, choices]?))
        }
        Datum::Nums(_) | Datum::Texts(_) => blank_shape(alloc, &plain_shape(config)),
        Datum::Num(_) | Datum::Text(_) => plain_view(alloc, config, datum),
    }
}

/// The type of a record's value by itself.
fn plain_type(alloc: Global, config: &RecConfig) -> Result<PvType, NoMemory>
    ensures { IfOk result (λ ty. ty ≡ plain_tree config.now) }
{
    PvType::of_checked(alloc, plain_shape(config))
}

/// A structure of an alarm and a time stamp, without an id.
fn meta_shape(alloc: Global) -> Result<Shape, NoMemory>
    ensures { IfOk result (λ shape. shape_view shape ≡ meta_tree) }
{
    let alarm = Member {
        name: Name::of(alloc, "alarm")?,
        shape: alarm(alloc)?,
    };
    let time = Member {
        name: Name::of(alloc, "timeStamp")?,
        shape: time(alloc)?,
    };
    let id = Name::of(alloc, "")?;
    Ok(Shape::Struct(Node::of(alloc, id, vec![in alloc; alarm, time]?)?))
}

/// The alarm and the time stamp of a state.
fn meta_view(alloc: Global, state: &RecState) -> Result<PvValue, NoMemory>
    ensures { IfOk result (λ v. view v ≡ meta_shown state.now) }
{
    let alarm = alarm_view(alloc, state)?;
    let time = time_view(alloc, state)?;
    Ok(PvValue::Struct(vec![in alloc; alarm, time]?))
}

/// A record's value by itself, with its type.
fn any_view(alloc: Global, config: &RecConfig, state: &RecState) -> Result<PvValue, NoMemory>
    requires { IsValid config.now state.now }
    ensures { IfOk result (λ v. view v ≡ piece_shown Piece.Any config.now state.now) }
{
    let value = plain_view(alloc, config, &state.datum)?;
    let ty = plain_type(alloc, config)?;
    Ok(PvValue::Variant(Some((ty, Box::new(alloc, value)?))))
}
