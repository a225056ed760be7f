use pvd_type::BitSet;
use std::alloc::Global;
use std::test::Fail;

/// The set of these numbers.
pub fn bits(alloc: Global, numbers: &[u16]) -> Result<BitSet, Fail> {
    let mut set = BitSet::new(alloc);
    for number in numbers {
        set.insert(u32::from(*number))?;
    }
    Ok(set)
}

#[test]
fn sets_meet_where_they_have_a_number_in_common(rt: HostRuntime) -> Result<(), Fail> {
    let alloc = rt.alloc();
    let one = bits(alloc, &[3, 70])?;
    assert!(rt; !one.meets(&BitSet::new(alloc)));
    assert!(rt; !one.meets(&bits(alloc, &[4, 1000])?));
    assert!(rt; one.meets(&bits(alloc, &[4, 70, 1000])?));
    Ok(())
}

#[test]
fn bit_sets_are_sets_of_numbers(rt: HostRuntime) -> Result<(), Fail> {
    let alloc = rt.alloc();
    let mut joined = bits(alloc, &[0, 8])?;
    assert_eq!(rt; (joined.byte(0), joined.byte(1), joined.byte(2)), (1, 1, 0));
    let more = bits(alloc, &[8, 65535])?;
    assert_eq!(rt; more.bound(), 8192);
    let mut met = joined.clone_in(alloc)?;
    met.meet(&more);
    joined.union(&more)?;
    for (bit, in_joined, in_met) in [
        (0, true, false),
        (1, false, false),
        (8, true, true),
        (64, false, false),
        (65535, true, false),
        (65536, false, false),
    ] {
        assert_eq!(rt;
            (joined.contains(bit), met.contains(bit)),
            (in_joined, in_met),
            "at {bit}"
        );
    }
    assert_eq!(rt;
        (
            joined.first_from(0),
            joined.first_from(9),
            met.first_from(9)
        ),
        (Some(0), Some(65535), None)
    );
    assert!(rt; !met.is_empty());
    Ok(())
}

#[test]
fn bytes_and_words_are_sets_of_numbers(rt: HostRuntime) -> Result<(), Fail> {
    let alloc = rt.alloc();
    let mut bits = BitSet::new(alloc);
    bits.insert_byte(3, 0)?;
    assert!(rt; bits.is_empty());
    assert_eq!(rt; bits.words(), [0].as_slice());
    bits.insert_byte(1, 0x81)?;
    bits.insert_byte(8191, 0x80)?;
    assert_eq!(rt;
        (bits.first_from(0), bits.first_from(9), bits.first_from(16)),
        (Some(8), Some(15), Some(65535))
    );
    assert_eq!(rt;
        (bits.words().first(), bits.words().len()),
        (Some(&0x8100), 1024)
    );
    let again = BitSet::from_words(Vec::from_slice(alloc, bits.words())?);
    assert_eq!(rt;
        (again.first_from(0), again.first_from(65536)),
        (Some(8), None)
    );
    Ok(())
}
