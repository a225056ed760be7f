ghost use Rattle.std.specs.Prelude.{◌≡◌, ◌+◌, ◌^◌, ◌<◌, ◌≤◌, ◌↔◌, ◌++◌, ℕ, length, IfOk, IfErr, IfSome, IsNone, OnOk, option_map, Some, None, slice_get, get_or, drop, fold, ◌∷◌};
ghost use Rattle.std.specs.Option.{option_copied};
ghost use Rattle.std.specs.FinSet as set;
ghost use Rattle.pvd_type.specs.View.{shape_view, members_view};
ghost use Rattle.pvd_type.specs.Check.{type_fault, IsType, IsFault};
ghost use Rattle.pvd_type.specs.Numbers.{nodes, numbered, numbered_fields, number_at, number_of, number_among, path_of, path_after, leaves, leaves_from, sizes_of, IsMeasured};

use crate::checking::{TypeFault, check_below};
use crate::memory::NoMemory;
use crate::same::same_shape;
use crate::set::BitSet;
use crate::shape::{Member, Shape};
use std::alloc::Global;
use std::marker::Model;
use std::sync::Arc;

/// A shape that was checked: at most 32 levels and 4,096 nodes, and no member without a name of its own.
///
/// A contract sees a type as its tree. Its nodes are numbered depth first from 0, and only structures are entered (pvAccess Protocol Specification, "Field numbering").
/// A type takes eight bytes where it stands: what it is stands in memory that its copies share.
#[derive(Drop)]
pub struct PvType {
    whole: Arc<Whole>,
}

/// What a type and its copies share.
#[derive(Drop)]
struct Whole {
    shape: Shape,
    // how many numbers each numbered node takes, itself included, in the order of the numbers: a walk passes over a node without entering it
    sizes: Vec<u32>,
}

impl Model for PvType {
    ghost use Rattle.std.specs.Prelude.{◌≡◌};
    ghost use Rattle.pvd_type.specs.Tree.{Tree, coded_tree};
    ghost use Rattle.pvd_type.specs.View.{shape_view};
    ghost use Rattle.pvd_type.specs.Check.{IsType};
    ghost use Rattle.pvd_type.specs.Numbers.{numbered, sizes_of};

    ghost Value = { Tree };

    ghost coded = { coded_tree };

    ghost view = { λ a. shape_view a.whole.value.shape };

    ghost invariant = { λ a. IsType (shape_view a.whole.value.shape) × (a.whole.value.sizes.items ≡ sizes_of (numbered (shape_view a.whole.value.shape))) };
}

impl PartialEq for PvType {
    ghost use Rattle.std.specs.Cmp.{partial_equiv_from_equiv};
    ghost use Rattle.pvd_type.specs.Same.{same_tree};
    ghost use Rattle.pvd_type.specs.SameLaws.{same_tree-equiv};

    ghost eq = { same_tree };

    ghost laws = { partial_equiv_from_equiv same_tree-equiv };

    fn eq(&self, other: &PvType) -> bool {
        same_shape(self.shape(), other.shape())
    }
}

impl Eq for PvType {
    ghost use Rattle.pvd_type.specs.SameLaws.{same_tree-equiv};

    ghost laws = { same_tree-equiv };
}

impl PvType {
    /// Checks a shape. The first fault in depth-first order is answered, and at one node the first in the order of [`TypeFault`].
    /// Want of memory is answered only where there is no fault.
    pub fn check(alloc: Global, shape: Shape) -> Result<PvType, TypeFault>
        ensures ok { IfOk result (λ ty. (ty ≡ shape_view shape) × IsType (shape_view shape)) }
        ensures fault { IfErr result (IsFault (shape_view shape)) }
    {
        check_below(&shape, 1, 1)?;
        match PvType::of_checked(alloc, shape) {
            Ok(ty) => Ok(ty),
            Err(NoMemory) => Err(TypeFault::NoMemory),
        }
    }

    /// The type of a shape that is known to have no fault.
    pub fn of_checked(alloc: Global, shape: Shape) -> Result<PvType, NoMemory>
        requires { IsType (shape_view shape) }
        ensures { IfOk result (λ ty. ty ≡ shape_view shape) }
    {
        let mut sizes = Vec::new(alloc);
        measure(&shape, &mut sizes)?;
        Ok(PvType {
            whole: Arc::new(alloc, Whole { shape, sizes })?,
        })
    }

    /// The type as a shape.
    pub fn shape(&self) -> &Shape
        ensures tree { shape_view result.now ≡ self.now }
        ensures checked { IsType self.now }
        ensures few { length (numbered self.now) ≤ 4096 }
        ensures few_nodes { nodes self.now ≤ 4096 }
    {
        &self.whole.shape
    }

    /// How many numbers each numbered node takes, itself included, in the order of the numbers.
    pub fn sizes(&self) -> &[u32]
        ensures sizes { result.now ≡ sizes_of (numbered self.now) }
        ensures few { length result.now ≤ 4096 }
    {
        &self.whole.sizes
    }

    /// How many nodes have numbers: at least 1 and at most 4,096.
    pub fn node_count(&self) -> u32
        ensures count { result ≡ length (numbered self.now) }
        ensures few { result ≤ 4096 }
    {
        self.sizes().len() as u32
    }

    /// The number of the node with this path, the names that lead to it joined by dots. The empty path is the root, whose number is 0.
    /// A member whose own name holds a dot has no path, nor has what stands below it.
    pub fn number_of(&self, path: &str) -> Option<u32>
        ensures number { result ≡ number_at path.now self.now }
        ensures within { IfSome result (λ n. n < length (numbered self.now)) }
    {
        if path.is_empty() {
            return Some(0);
        }
        find(self.shape(), self.sizes(), path)
    }

    /// The part of the type that has this number; none at or above [`PvType::node_count`].
    pub fn shape_at(&self, number: u32) -> Option<&Shape>
        ensures shape { option_map (λ s. shape_view s.now) result ≡ slice_get (numbered self.now) number }
        ensures none { IsNone result ↔ (length (numbered self.now) ≤ number) }
    {
        at(self.shape(), self.sizes(), number)
    }

    /// The numbers of the leaves, the nodes that are no structures.
    pub fn leaves(&self, alloc: Global) -> Result<BitSet, NoMemory>
        ensures { IfOk result (λ s. s ≡ leaves self.now) }
    {
        let mut found = BitSet::new(alloc);
        collect(self.shape(), 0, &mut found)?;
        Ok(found)
    }

    /// A copy of the type, which shares all that it is. `NoMemory` is answered only where 2^63 - 1 types share it.
    pub fn clone_in(&self, _alloc: Global) -> Result<PvType, NoMemory>
        ensures { IfOk result (λ ty. ty ≡ self.now) }
    {
        Ok(PvType {
            whole: Arc::try_clone(&self.whole)?,
        })
    }
}

/// Appends the sizes of a node and of those below it that have numbers.
#[cycle(measure)]
fn measure(shape: &Shape, sizes: &mut Vec<u32>) -> Result<(), NoMemory>
    requires { length sizes.old.items + length (numbered (shape_view shape.now)) < 2 ^ 32 }
    ensures { OnOk result (sizes.new.items ≡ sizes.old.items ++ sizes_of (numbered (shape_view shape.now))) }
{
    let place = sizes.len();
    sizes.push(1)?;
    if let Shape::Struct(node) = shape {
        measure_members(&node.members, sizes)?;
        sizes[place] = (sizes.len() - place) as u32;
    }
    Ok(())
}

#[cycle(measure)]
fn measure_members(members: &[Member], sizes: &mut Vec<u32>) -> Result<(), NoMemory>
    requires { length sizes.old.items + length (numbered_fields (members_view members.now)) < 2 ^ 32 }
    ensures { OnOk result (sizes.new.items ≡ sizes.old.items ++ sizes_of (numbered_fields (members_view members.now))) }
{
    for member in members {
        measure(&member.shape, sizes)?;
    }
    Ok(())
}

/// The size of the first node, and the sizes from the node that follows its numbers.
pub fn split_size(sizes: &[u32]) -> (u32, &[u32])
    requires some { 0 < length sizes.now }
    requires within { get_or sizes.now 0 0 ≤ length sizes.now }
    ensures size { result.0 ≡ get_or sizes.now 0 0 }
    ensures after { result.1.now ≡ drop (get_or sizes.now 0 0) sizes.now }
{
    let size = sizes[0];
    let (_, after) = sizes.split_at(size as usize);
    (size, after)
}

/// The node under a number, counted from this one. The sizes are those from this node on.
#[cycle(at)]
fn at<'a>(shape: &'a Shape, sizes: &[u32], number: u32) -> Option<&'a Shape>
    requires { IsMeasured sizes.now (numbered (shape_view shape.now)) }
    ensures { option_map (λ s. shape_view s.now) result ≡ slice_get (numbered (shape_view shape.now)) number }
{
    if number == 0 {
        return Some(shape);
    }
    match shape {
        Shape::Struct(node) => at_among(&node.members, &sizes[1..], number - 1),
        _ => None,
    }
}

#[cycle(at)]
fn at_among<'a>(members: &'a [Member], sizes: &[u32], number: u32) -> Option<&'a Shape>
    requires { IsMeasured sizes.now (numbered_fields (members_view members.now)) }
    ensures { option_map (λ s. shape_view s.now) result ≡ slice_get (numbered_fields (members_view members.now)) number }
{
    let mut sizes = sizes;
    let mut left = number;
    for member in members {
        let (size, after) = split_size(sizes);
        if left < size {
            return at(&member.shape, sizes, left);
        }
        left -= size;
        sizes = after;
    }
    None
}

/// The first name of a path, and the path that follows its dot.
fn split_path(path: &str) -> (&str, Option<&str>)
    ensures { path_of path.now ≡ result.0.now ∷ path_after (option_copied result.1) }
{
    match path.split_once('.') {
        Some((name, rest)) => (name, Some(rest)),
        None => (path, None),
    }
}

/// The number of the node that a path of at least one name leads to, counted from this node.
#[cycle(find)]
fn find(shape: &Shape, sizes: &[u32], path: &str) -> Option<u32>
    requires sizes { IsMeasured sizes.now (numbered (shape_view shape.now)) }
    requires few { length sizes.now ≤ 4096 }
    ensures number { result ≡ number_of (path_of path.now) (shape_view shape.now) }
    ensures within { IfSome result (λ k. k < length (numbered (shape_view shape.now))) }
{
    let (name, rest) = split_path(path);
    match shape {
        Shape::Struct(node) => find_among(&node.members, &sizes[1..], name, rest),
        _ => None,
    }
}

/// The number of what `rest` leads to below the member of this name, where the members are numbered from 1.
#[cycle(find)]
fn find_among(members: &[Member], sizes: &[u32], name: &str, rest: Option<&str>) -> Option<u32>
    requires sizes { IsMeasured sizes.now (numbered_fields (members_view members.now)) }
    requires few { length sizes.now < 4096 }
    ensures number { result ≡ number_among 1 name.now (path_after (option_copied rest.entry)) (members_view members.now) }
    ensures within { IfSome result (λ k. k < 1 + length (numbered_fields (members_view members.now))) }
{
    let mut sizes = sizes;
    let mut number = 1;
    for member in members {
        let (size, after) = split_size(sizes);
        if name == member.name.as_str() {
            return match rest {
                Some(path) => Some(number + find(&member.shape, sizes, path)?),
                None => Some(number),
            };
        }
        number += size;
        sizes = after;
    }
    None
}

/// Adds the numbers of the leaves of a node with this number, and says which number follows it.
#[cycle(collect)]
fn collect(shape: &Shape, number: u32, found: &mut BitSet) -> Result<u32, NoMemory>
    requires { number + length (numbered (shape_view shape.now)) ≤ 65536 }
    ensures leaves { OnOk result (found.new ≡ fold set.insert found.old (leaves_from number (numbered (shape_view shape.now)))) }
    ensures next { IfOk result (λ n. n ≡ number + length (numbered (shape_view shape.now))) }
{
    match shape {
        Shape::Struct(node) => collect_among(&node.members, number + 1, found),
        _ => {
            found.insert(number)?;
            Ok(number + 1)
        }
    }
}

#[cycle(collect)]
fn collect_among(members: &[Member], number: u32, found: &mut BitSet) -> Result<u32, NoMemory>
    requires { number + length (numbered_fields (members_view members.now)) ≤ 65536 }
    ensures leaves { OnOk result (found.new ≡ fold set.insert found.old (leaves_from number (numbered_fields (members_view members.now)))) }
    ensures next { IfOk result (λ n. n ≡ number + length (numbered_fields (members_view members.now))) }
{
    let mut next = number;
    for member in members {
        next = collect(&member.shape, next, found)?;
    }
    Ok(next)
}
