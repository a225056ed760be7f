use crate::spelled::{described, discard, spelled};
use pvd_type::{BitSet, PvType};
use pvd_value::{PvValue, differs, differs_in, fits, leaf, merge, same_value, take_leaves};
use std::alloc::Global;
use std::test::Fail;

/// A structure of two structures `a` and `b`, each of the ubytes `x` and `y`: a is 1, its ubytes 2 and 3, b is 4, its ubytes 5 and 6.
const PAIRS: &[u8] =
    b"\x80\x00\x02\x01a\x80\x00\x02\x01x\x24\x01y\x24\x01b\x80\x00\x02\x01x\x24\x01y\x24";

/// The numbers of its leaves, as bits.
const LEAVES: u8 = 0b0110_1100;

/// Numbers below 8, as bits, and what values of ones and of sevens have once the leaves of these numbers changed places.
type Row = (u8, [u8; 4], [u8; 4]);

/// Whether the ubyte under this number is this one.
fn is_leaf(ty: &PvType, value: &PvValue, number: u32, expected: u8) -> bool {
    fits(ty, value)
        && matches!(leaf(value, ty, number), Some(PvValue::U8(found)) if *found == expected)
}

/// Whether a value has these leaves and nothing under the other numbers.
fn has(ty: &PvType, value: &PvValue, expected: [u8; 4]) -> bool {
    let leaves = [2, 3, 5, 6];
    let others = [0, 1, 4, 7];
    leaves
        .iter()
        .zip(expected.iter())
        .all(|pair| is_leaf(ty, value, *pair.0, *pair.1))
        && others.iter().all(|number| fits(ty, value) && leaf(value, ty, *number).is_none())
}

/// Whether the marked leaves of sevens are merged into ones. Both fit the type.
fn merges(
    alloc: Global,
    ty: &PvType,
    mask: &BitSet,
    into: &mut PvValue,
    from: &PvValue,
    row: &Row,
) -> bool {
    fits(ty, into)
        && fits(ty, from)
        && merge(alloc, ty, into, mask, from).is_ok()
        && has(ty, into, row.1)
        && has(ty, from, [7; 4])
}

/// Whether the numbers under which two values differ are these, and of those asked for these among 2 and 3. Both fit the type.
fn differ(
    alloc: Global,
    ty: &PvType,
    asked: &BitSet,
    a: &PvValue,
    b: &PvValue,
    numbers: u8,
) -> bool {
    if !fits(ty, a) || !fits(ty, b) {
        return false;
    }
    let (Ok(all), Ok(some)) = (differs(alloc, ty, a, b), differs_in(alloc, ty, asked, a, b)) else {
        return false;
    };
    all.byte(0) == numbers
        && some.byte(0) == numbers & 0b0000_1100
        && same_value(a, b) == (numbers == 0)
}

/// Whether the marked leaves of ones and sevens change places. Both fit the type.
fn exchanges(
    ty: &PvType,
    mask: &BitSet,
    into: &mut PvValue,
    from: &mut PvValue,
    row: &Row,
) -> bool {
    if !fits(ty, into) || !fits(ty, from) {
        return false;
    }
    take_leaves(ty, into, mask, from);
    has(ty, into, row.1) && has(ty, from, row.2)
}

/// Whether ones and sevens are merged, compared and moved as a row says. Both fit the type.
fn moves(
    alloc: Global,
    ty: &PvType,
    masks: (&BitSet, &BitSet),
    ones: &mut PvValue,
    sevens: &mut PvValue,
    row: &Row,
) -> bool {
    let Ok(mut merged) = ones.clone_in(alloc) else {
        return false;
    };
    let (mask, asked) = masks;
    let right = same_value(&merged, ones)
        && merges(alloc, ty, mask, &mut merged, sevens, row)
        && differ(alloc, ty, asked, ones, &merged, row.0 & LEAVES)
        && exchanges(ty, mask, ones, sevens, row)
        && same_value(&merged, ones);
    discard(merged);
    right
}

/// The same of ones and sevens that are made here.
fn ones_and_sevens_move(alloc: Global, ty: &PvType, masks: (&BitSet, &BitSet), row: &Row) -> bool {
    let Some(mut ones) = spelled(alloc, ty, &[1; 4]) else {
        return false;
    };
    let Some(mut sevens) = spelled(alloc, ty, &[7; 4]) else {
        discard(ones);
        return false;
    };
    let right = moves(alloc, ty, masks, &mut ones, &mut sevens, row);
    discard(ones);
    discard(sevens);
    right
}

/// The set of the numbers that are bits of a byte.
fn set_of(alloc: Global, marks: u8) -> Result<BitSet, Fail> {
    let mut set = BitSet::new(alloc);
    set.insert_byte(0, marks)?;
    Ok(set)
}

#[test]
fn marked_leaves_are_merged_moved_and_compared(rt: HostRuntime) -> Result<(), Fail> {
    let alloc = rt.alloc();
    let ty = described(alloc, PAIRS).ok_or("a type")?;
    let asked = set_of(alloc, 0b0000_1100)?;
    let table: [Row; 4] = [
        (0, [1, 1, 1, 1], [7, 7, 7, 7]),
        (0b0100_0100, [7, 1, 1, 7], [1, 7, 7, 1]),
        (0b0111_1111, [7, 7, 7, 7], [1, 1, 1, 1]),
        // the numbers of structures stand for no leaf here
        (0b0001_0011, [1, 1, 1, 1], [7, 7, 7, 7]),
    ];
    for row in table {
        let mask = set_of(alloc, row.0)?;
        assert!(rt; ones_and_sevens_move(alloc, &ty, (&mask, &asked), &row));
    }
    Ok(())
}
