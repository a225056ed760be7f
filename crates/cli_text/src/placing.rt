ghost use Rattle.std.specs.Prelude.{◌≡◌, if◌then◌else◌};
ghost use Rattle.pvd_type.specs.View.{shape_view, members_view};
ghost use Rattle.pvd_type.specs.Numbers.{numbered, numbered_fields, IsMeasured};
ghost use Rattle.pvd_value.specs.View.{view, row_view, items_view};
ghost use Rattle.pvd_value.specs.Data as datum;
ghost use Rattle.pvd_value.specs.Leaves.{row_in};
ghost use Rattle.cli_text.specs.Faults.{Gives, Makes};
ghost use Rattle.cli_text.specs.Words.{made};
ghost use Rattle.cli_text.specs.Put.{emptied, has_room, if_first, extended, give_list, give_plain, give, given, put_at, put_among};

use crate::fault::Cause;
use crate::reading::{push_word, read_as, read_bounded_text, read_choice_word};
use crate::words::Way;
use pvd_type::{Extent, Member, Name, Scalar, Shape, split_size};
use pvd_value::{Items, PvValue};
use std::alloc::Global;

/// A word that is given to a leaf: where the words go, the texts of an enum's choices, whether it is the first word for this leaf,
/// and its text.
#[derive(Clone, Copy)]
pub struct Given<'a> {
    pub way: Way,
    pub choices: &'a [Name],
    pub first: bool,
    pub text: &'a str,
}

/// Takes all elements out of a list.
fn empty(items: &mut Items)
    ensures { items_view items.new ≡ emptied (items_view items.old) }
{
    match items {
        Items::Bool(values) => values.clear(),
        Items::I8(values) => values.clear(),
        Items::I16(values) => values.clear(),
        Items::I32(values) => values.clear(),
        Items::I64(values) => values.clear(),
        Items::U8(values) => values.clear(),
        Items::U16(values) => values.clear(),
        Items::U32(values) => values.clear(),
        Items::U64(values) => values.clear(),
        Items::F32(values) => values.clear(),
        Items::F64(values) => values.clear(),
        Items::Text(values) => values.clear(),
    }
}

/// Whether a list of this extent with so many elements has room for one more.
fn has_room_for(extent: Extent, count: usize) -> bool
    ensures { result ≡ has_room extent count }
{
    match extent {
        Extent::Variable => true,
        Extent::Bounded(bound) => count < bound as usize,
        Extent::Fixed(size) => count < size as usize,
    }
}

/// Adds a word to a list of this extent, where there is room.
fn extend(alloc: Global, items: &mut Items, extent: Extent, text: &str) -> Result<(), Cause>
    ensures { Makes result (items_view items.new) (extended extent text.now (items_view items.old)) }
{
    let room = has_room_for(extent, items.len());
    push_word(alloc, items, text)?;
    if room {
        return Ok(());
    }
    Err(Cause::OutOfRange)
}

/// Gives a list of this extent a word. The first word for a list empties it.
fn give_items(
    alloc: Global,
    items: &mut Items,
    extent: Extent,
    first: bool,
    text: &str,
) -> Result<(), Cause>
    ensures { Makes result (items_view items.new) (extended extent text.now (if first then emptied (items_view items.old) else items_view items.old)) }
{
    if first {
        empty(items);
        return extend(alloc, items, extent, text);
    }
    extend(alloc, items, extent, text)
}

/// Gives a leaf that is a list of this extent a word.
fn give_to_list(
    alloc: Global,
    leaf: &mut PvValue,
    extent: Extent,
    first: bool,
    text: &str,
) -> Result<(), Cause>
    ensures { Makes result (view leaf.new) (give_list extent first text.now (view leaf.old)) }
{
    match leaf {
        PvValue::List(items) => give_items(alloc, items, extent, first, text),
        _ => Err(Cause::NoField),
    }
}

/// An index by its choice, and each other scalar by itself.
fn read_plain(
    alloc: Global,
    way: Way,
    choices: &[Name],
    scalar: Scalar,
    text: &str,
) -> Result<PvValue, Cause>
    ensures { Gives view result (give_plain way choices.now scalar text.now) }
{
    match way {
        Way::Choice(_) => Ok(PvValue::I32(read_choice_word(choices, text)?)),
        Way::Paths | Way::Leaf(_) => read_as(alloc, scalar, text),
    }
}

/// Makes a scalar that was read the leaf, where its word is the first.
fn give_scalar(leaf: &mut PvValue, scalar: PvValue, first: bool) -> Result<(), Cause>
    ensures { Makes result (view leaf.new) (if_first first (view scalar)) }
{
    if !first {
        return Err(Cause::NoField);
    }
    *leaf = scalar;
    Ok(())
}

/// Gives a leaf a word.
fn give_leaf(alloc: Global, leaf: &mut PvValue, shape: &Shape, word: Given<'_>) -> Result<(), Cause>
    ensures { Makes result (view leaf.new) (given (give word.entry.way word.entry.choices.now word.entry.first word.entry.text.now) (shape_view shape.now) (view leaf.old)) }
{
    match shape {
        Shape::Plain(scalar) => {
            let read = read_plain(alloc, word.way, word.choices, *scalar, word.text)?;
            give_scalar(leaf, read, word.first)
        }
        Shape::BoundText(bound) => {
            let read = read_bounded_text(alloc, *bound, word.text)?;
            give_scalar(leaf, read, word.first)
        }
        Shape::List(_, extent) => give_to_list(alloc, leaf, *extent, word.first, word.text),
        _ => Err(Cause::NoField),
    }
}

/// Gives a word to the leaf of this number, counted from this node. The sizes are those from this node on.
#[cycle(put)]
pub fn put_below(
    value: &mut PvValue,
    shape: &Shape,
    sizes: &[u32],
    number: u32,
    word: Given<'_>,
    alloc: Global,
) -> Result<(), Cause>
    requires { IsMeasured sizes.now (numbered (shape_view shape.now)) }
    ensures { Makes result (view value.new) (put_at (give word.entry.way word.entry.choices.now word.entry.first word.entry.text.now) number (shape_view shape.now) (view value.old)) }
{
    match shape {
        Shape::Struct(node) => {
            let inside = &sizes[1..];
            put_members(
                value,
                &node.members,
                inside,
                number.saturating_sub(1),
                word,
                alloc,
            )
        }
        _ => give_leaf(alloc, value, shape, word),
    }
}

/// Gives a word to the leaf of this number among the members of a structure's value, of which the first has the number 0.
#[cycle(put)]
fn put_members(
    value: &mut PvValue,
    members: &[Member],
    sizes: &[u32],
    number: u32,
    word: Given<'_>,
    alloc: Global,
) -> Result<(), Cause>
    requires { IsMeasured sizes.now (numbered_fields (members_view members.now)) }
    ensures { Makes result (view value.new) (made datum.members (put_among (give word.entry.way word.entry.choices.now word.entry.first word.entry.text.now) number (members_view members.now) (row_in (view value.old)))) }
{
    match value {
        PvValue::Struct(values) => put_row(values, members, sizes, number, word, alloc),
        _ => Err(Cause::NoField),
    }
}

/// Gives a word to the leaf of this number among these members, of which the first has the number 0.
#[cycle(put)]
fn put_row(
    values: &mut Vec<PvValue>,
    members: &[Member],
    sizes: &[u32],
    number: u32,
    word: Given<'_>,
    alloc: Global,
) -> Result<(), Cause>
    requires { IsMeasured sizes.now (numbered_fields (members_view members.now)) }
    ensures { Makes result (row_view values.new.items) (put_among (give word.entry.way word.entry.choices.now word.entry.first word.entry.text.now) number (members_view members.now) (row_view values.old.items)) }
{
    let mut sizes = sizes;
    let mut left = number;
    let count = values.len().min(members.len());
    for i in 0..count {
        let member = &members[i];
        let (size, after) = split_size(sizes);
        if left < size {
            return put_below(&mut values[i], &member.shape, sizes, left, word, alloc);
        }
        left -= size;
        sizes = after;
    }
    Err(Cause::NoField)
}
