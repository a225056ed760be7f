use crate::spelled::described;
use nt_types::{NtKind, kind_of};
use std::alloc::Global;
use std::test::Fail;

/// Which Normative Type the type is that these bytes describe.
fn kind_described(alloc: Global, bytes: &[u8]) -> Result<Option<NtKind>, Fail> {
    let ty = described(alloc, bytes).ok_or("a type")?;
    Ok(kind_of(&ty))
}

#[test]
fn ids_and_members_make_a_normative_type(rt: HostRuntime) -> Result<(), Fail> {
    let kinds = [
        NtKind::NtScalar,
        NtKind::NtScalar,
        NtKind::NtScalarArray,
        NtKind::NtEnum,
        NtKind::NtEnum,
        NtKind::NtTable,
        NtKind::NtTable,
        NtKind::NtUri,
    ];
    let types: [&[u8]; 25] = [
        // of these kinds: a double, and a text of at most forty bytes; at most four doubles; an index and choices, also at most sixteen; columns
        // of any length and of four; a scheme of at most eight bytes and a path
        b"\x80\x15epics:nt/NTScalar:1.0\x01\x05value\x43",
        b"\x80\x15epics:nt/NTScalar:1.0\x01\x05value\x83\x28",
        b"\x80\x1Aepics:nt/NTScalarArray:1.0\x01\x05value\x53\x04",
        b"\x80\x13epics:nt/NTEnum:1.0\x01\x05value\x80\x06enum_t\x02\x05index\x22\x07choices\x68",
        b"\x80\x13epics:nt/NTEnum:1.0\x01\x05value\x80\x06enum_t\x02\x05index\x22\x07choices\x70\x10",
        b"\x80\x14epics:nt/NTTable:1.0\x02\x06labels\x68\x05value\x80\0\x01\x04name\x4B",
        b"\x80\x14epics:nt/NTTable:1.0\x02\x06labels\x70\x04\x05value\x80\0\x01\x04name\x5B\x04",
        b"\x80\x12epics:nt/NTURI:1.0\x02\x06scheme\x83\x08\x04path\x60",
        // of none: a list of doubles, another name, other ids, and no list
        b"\x80\x15epics:nt/NTScalar:1.0\x01\x05value\x4B",
        b"\x80\x15epics:nt/NTScalar:1.0\x01\x06number\x43",
        b"\x80\x15epics:nt/NTScalar:1.1\x01\x05value\x43",
        b"\x80\0\x01\x05value\x43",
        b"\x80\x1Aepics:nt/NTScalarArray:1.0\x01\x05value\x43",
        // an int in place of an index and choices, labels without columns, a scheme without a path, no structure
        b"\x80\x13epics:nt/NTEnum:1.0\x01\x05value\x22",
        b"\x80\x14epics:nt/NTTable:1.0\x01\x06labels\x68",
        b"\x80\x12epics:nt/NTURI:1.0\x01\x06scheme\x60",
        b"\x22",
        // columns with an id, a column that is a double, labels that are a text, and ints
        b"\x80\x14epics:nt/NTTable:1.0\x02\x06labels\x68\x05value\x80\x09columns_t\x01\x04name\x4B",
        b"\x80\x14epics:nt/NTTable:1.0\x02\x06labels\x68\x05value\x80\0\x01\x04name\x43",
        b"\x80\x14epics:nt/NTTable:1.0\x02\x06labels\x60\x05value\x80\0\x01\x04name\x4B",
        b"\x80\x14epics:nt/NTTable:1.0\x02\x06labels\x2A\x05value\x80\0\x01\x04name\x4B",
        // one choice, an index that is a long, no id; a path that is an int
        b"\x80\x13epics:nt/NTEnum:1.0\x01\x05value\x80\x06enum_t\x02\x05index\x22\x07choices\x60",
        b"\x80\x13epics:nt/NTEnum:1.0\x01\x05value\x80\x06enum_t\x02\x05index\x23\x07choices\x68",
        b"\x80\x13epics:nt/NTEnum:1.0\x01\x05value\x80\0\x02\x05index\x22\x07choices\x68",
        b"\x80\x12epics:nt/NTURI:1.0\x02\x06scheme\x60\x04path\x22",
    ];
    for (place, bytes) in types.iter().enumerate() {
        let kind = kind_described(rt.alloc(), bytes)?;
        assert_eq!(rt; kind, kinds.get(place).copied(), "{bytes:?}");
    }
    Ok(())
}
