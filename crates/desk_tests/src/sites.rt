use desk_api::is_record_name;
use desk_core::drive;
use pva_outside::MemoryPort;
use std::test::Fail;

/// 60 bytes, the most that a record's name may have.
const LONGEST: &str = "aaaaaaaaaaaaaaaaaaaaaaaaaaaaaaaaaaaaaaaaaaaaaaaaaaaaaaaaaaaa";

#[test]
fn names_of_records_have_1_to_60_bytes_and_no_special_one(rt: HostRuntime) -> Result<(), Fail> {
    let too_long = format!(in rt.alloc(); "{LONGEST}a")?;
    for (name, may) in [
        ("X", true),
        ("BL:M1:Pos-2_[3]<4>+;", true),
        (LONGEST, true),
        (too_long.as_str(), false),
        ("", false),
        ("a b", false),
        ("a\tb", false),
        ("\"X\"", false),
        ("X'", false),
        ("X.VAL", false),
        ("$(P)X", false),
    ] {
        assert_eq!(rt; is_record_name(name), may, "{name}");
    }
    Ok(())
}

#[test]
fn a_record_without_a_port_counts_as_driven(rt: HostRuntime) -> Result<(), Fail> {
    let mut none: Option<MemoryPort> = None;
    assert!(rt; drive(&mut none, b"7"));
    Ok(())
}
