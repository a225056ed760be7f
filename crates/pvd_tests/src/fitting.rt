use crate::spelled::{described, discard, spelled};
use pvd_type::{NoMemory, PvType, Shape};
use pvd_value::{PvValue, blank, fits};
use std::alloc::Global;

/// Whether a value is of the type that these bytes describe.
fn is_of(alloc: Global, ty: &[u8], value: &PvValue) -> Option<bool> {
    let ty = described(alloc, ty)?;
    Some(fits(&ty, value))
}

/// Whether the value of one type that these bytes spell is of another type.
fn is_also(alloc: Global, own: &[u8], bytes: &[u8], other: &[u8]) -> Option<bool> {
    let own = described(alloc, own)?;
    let value = spelled(alloc, &own, bytes)?;
    let right = is_of(alloc, other, &value);
    discard(value);
    right
}

/// Unions of three ints and of two.
const THREE: &[u8] = b"\x81\0\x03\x01x\x22\x01y\x22\x01z\x22";

const TWO: &[u8] = b"\x81\0\x02\x01x\x22\x01y\x22";

/// Lists of them.
const THREES: &[u8] = b"\x89\x81\0\x03\x01x\x22\x01y\x22\x01z\x22";

const TWOS: &[u8] = b"\x89\x81\0\x02\x01x\x22\x01y\x22";

#[test]
fn lists_texts_and_unions_keep_to_their_bounds(rt: HostRuntime) {
    // a type, a value of it, another type, and whether the value is of this too
    let table: [(&[u8], &[u8], &[u8], bool); 25] = [
        // ubytes of any number, at most two and two, and bytes in place of ubytes
        (&[0x2C], &[0], &[0x2C], true),
        (&[0x2C], &[0], &[0x28], false),
        (&[0x2C], &[5, 0, 0, 0, 0, 0], &[0x2C], true),
        (&[0x2C], &[5, 0, 0, 0, 0, 0], &[0x28], false),
        (&[0x2C], &[2, 0, 0], &[0x34, 2], true),
        (&[0x2C], &[2, 0, 0], &[0x30, 2], false),
        (&[0x2C], &[3, 0, 0, 0], &[0x34, 2], false),
        (&[0x2C], &[3, 0, 0, 0], &[0x30, 2], false),
        (&[0x2C], &[2, 0, 0], &[0x3C, 2], true),
        (&[0x2C], &[2, 0, 0], &[0x38, 2], false),
        (&[0x2C], &[1, 0], &[0x3C, 2], false),
        (&[0x2C], &[1, 0], &[0x38, 2], false),
        (&[0x2C], &[3, 0, 0, 0], &[0x3C, 2], false),
        (&[0x2C], &[3, 0, 0, 0], &[0x38, 2], false),
        // texts of at most three bytes
        (&[0x60], &[0], &[0x83, 3], true),
        (&[0x60], b"\x03abc", &[0x83, 3], true),
        (&[0x60], b"\x04abcd", &[0x83, 3], false),
        (&[0x60], b"\x03a\xC3\x9F", &[0x83, 3], true),
        (&[0x60], b"\x04a\xC3\x9Fb", &[0x83, 3], false),
        // a union, and behind a null element of a list
        (THREE, &[0, 0, 0, 0, 3], TWO, true),
        (THREE, &[1, 0, 0, 0, 3], TWO, true),
        (THREE, &[2, 0, 0, 0, 3], TWO, false),
        (THREES, &[2, 0, 1, 0, 0, 0, 0, 3], TWOS, true),
        (THREES, &[2, 0, 1, 1, 0, 0, 0, 3], TWOS, true),
        (THREES, &[2, 0, 1, 2, 0, 0, 0, 3], TWOS, false),
    ];
    for (own, bytes, other, expected) in table {
        let also = is_also(rt.alloc(), own, bytes, other);
        assert_eq!(rt; also, Some(expected), "{bytes:?} as {other:?}");
    }
}

/// A variant that holds a value whose type is a variant.
fn holding(alloc: Global, value: PvValue) -> Result<PvValue, NoMemory> {
    let inner = Box::new(alloc, value)?;
    match PvType::check(alloc, Shape::Variant) {
        Ok(ty) => Ok(PvValue::Variant(Some((ty, inner)))),
        Err(_) => {
            discard(inner);
            Err(NoMemory)
        }
    }
}

/// Whether the variant that these bytes spell is a variant once it stands inside another one.
fn is_variant_inside(alloc: Global, bytes: &[u8]) -> Option<bool> {
    let ty = described(alloc, &[0x82])?;
    let inner = spelled(alloc, &ty, bytes)?;
    let Ok(value) = holding(alloc, inner) else {
        return None;
    };
    let right = fits(&ty, &value);
    discard(value);
    Some(right)
}

#[test]
fn sixteen_variants_may_stand_inside_one_another(rt: HostRuntime) {
    // one, fifteen and sixteen variants, the last of which is null
    let variants = b"\x82\x82\x82\x82\x82\x82\x82\x82\x82\x82\x82\x82\x82\x82\x82\xFF";
    for (bytes, expected) in [
        (&variants[15..], true),
        (&variants[1..], true),
        (&variants[..], false),
    ] {
        let inside = is_variant_inside(rt.alloc(), bytes);
        assert_eq!(rt; inside, Some(expected), "{bytes:?}");
    }
}

/// How many elements a list has.
fn list_length(value: &PvValue) -> Option<usize> {
    match value {
        PvValue::List(items) => Some(items.len()),
        _ => None,
    }
}

/// How many elements the blank value has of the type that these bytes describe; none where it takes too much memory.
fn blank_length(alloc: Global, ty: &[u8]) -> Option<Option<usize>> {
    let ty = described(alloc, ty)?;
    let Ok(value) = blank(alloc, &ty) else {
        return Some(None);
    };
    let count = list_length(&value);
    discard(value);
    Some(count)
}

#[test]
fn blank_lists_of_a_fixed_length_are_full(rt: HostRuntime) {
    // three texts; a thousand doubles; one double more than a payload can hold
    for (ty, count) in [
        (&[0x78, 3][..], Some(3)),
        (&[0x5B, 0xFE, 0, 0, 3, 0xE8][..], Some(1000)),
        (&[0x5B, 0xFE, 0, 0x80, 0, 1][..], None),
    ] {
        assert_eq!(rt; blank_length(rt.alloc(), ty), Some(count), "{ty:?}");
    }
}
