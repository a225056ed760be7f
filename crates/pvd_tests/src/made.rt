ghost use Rattle.std.specs.Prelude.{◌≡◌, length, IfOk};

use crate::spelled::discard;
use nt_types::{
    NtKind, alarm, kind_of, nt_enum, nt_scalar, nt_scalar_array, nt_table, nt_uri, time,
};
use pvd_type::{Name, NoMemory, PvType, Scalar, TypeFault};
use pvd_value::{Items, PvValue};
use rpc_services::table;
use std::alloc::Global;
use std::test::Fail;

/// Two columns of these names.
fn columns(alloc: Global, first: &str, second: &str) -> Result<Vec<(Name, Scalar)>, NoMemory> {
    let mut columns = Vec::new(alloc);
    columns.push((Name::of(alloc, first)?, Scalar::Text))?;
    columns.push((Name::of(alloc, second)?, Scalar::I64))?;
    Ok(columns)
}

/// The number of a field of a type that is let go, and which Normative Type it is.
fn told(ty: PvType, path: &str) -> (Option<u32>, Option<NtKind>) {
    let told = (ty.number_of(path), kind_of(&ty));
    discard(ty);
    told
}

#[test]
fn the_five_types_are_made_and_recognised(rt: HostRuntime) -> Result<(), Fail> {
    let alloc = rt.alloc();
    let scalar = told(nt_scalar(alloc, Scalar::I32)?, "timeStamp.userTag");
    assert_eq!(rt; scalar, (Some(9), Some(NtKind::NtScalar)));
    let array = told(nt_scalar_array(alloc, Scalar::Text)?, "timeStamp.userTag");
    assert_eq!(rt; array, (Some(9), Some(NtKind::NtScalarArray)));
    let choice = told(nt_enum(alloc)?, "value.index");
    assert_eq!(rt; choice, (Some(2), Some(NtKind::NtEnum)));
    let columns = columns(alloc, "name", "seconds")?;
    let table = told(nt_table(alloc, columns.as_slice())?, "value.seconds");
    assert_eq!(rt; table, (Some(4), Some(NtKind::NtTable)));
    let uri = told(nt_uri(alloc, columns.as_slice())?, "query.name");
    assert_eq!(rt; uri, (Some(4), Some(NtKind::NtUri)));
    Ok(())
}

#[test]
fn a_column_has_a_name_of_its_own(rt: HostRuntime) -> Result<(), Fail> {
    let columns = columns(rt.alloc(), "name", "name")?;
    let fault = nt_table(rt.alloc(), columns.as_slice()).err();
    assert_eq!(rt; fault, Some(TypeFault::SameName));
    Ok(())
}

/// Whether a type, which is let go, is another one.
fn equals(ty: PvType, other: &PvType) -> bool {
    let equal = ty == *other;
    discard(ty);
    equal
}

/// Whether a name is its copy, and isn't a name of other letters.
fn is_itself_alone(alloc: Global, name: &Name, other: &str) -> Result<bool, NoMemory> {
    Ok(*name == name.clone_in(alloc)? && *name != Name::of(alloc, other)?)
}

#[test]
fn copies_are_equal_and_other_types_are_not(rt: HostRuntime) -> Result<(), Fail> {
    let alloc = rt.alloc();
    let stamp = PvType::check(alloc, time(alloc)?)?;
    assert!(rt; equals(stamp.clone_in(alloc)?, &stamp));
    assert!(rt; equals(PvType::check(alloc, time(alloc)?)?, &stamp));
    assert!(rt; !equals(PvType::check(alloc, alarm(alloc)?)?, &stamp));
    assert!(rt; is_itself_alone(alloc, &Name::of(alloc, "Größe")?, "Große")?);
    Ok(())
}

fn names_of(alloc: Global, texts: &[&str]) -> Result<Vec<Name>, NoMemory>
    ensures { IfOk result (λ names. length names.items ≡ length texts.now) }
{
    let mut names = Vec::with_capacity(alloc, texts.len())?;
    for text in texts {
        names.push(Name::of(alloc, text)?)?;
    }
    Ok(names)
}

/// Whether a column is a list of these texts.
fn is_texts(column: &PvValue, expected: &[&str]) -> bool {
    match column {
        PvValue::List(Items::Text(texts)) => {
            texts.len() == expected.len()
                && texts
                    .iter()
                    .zip(expected.iter())
                    .all(|pair| pair.0.as_str() == *pair.1)
        }
        _ => false,
    }
}

/// The numbers of a list of ints.
fn ints(column: &PvValue) -> &[i32] {
    match column {
        PvValue::List(Items::I32(numbers)) => numbers,
        _ => &[],
    }
}

/// The numbers of a list of longs.
fn longs(column: &PvValue) -> &[i64] {
    match column {
        PvValue::List(Items::I64(numbers)) => numbers,
        _ => &[],
    }
}

/// A table of two rows.
fn two_rows(alloc: Global) -> Result<(PvType, PvValue), NoMemory> {
    let names = names_of(alloc, &["X", "Y"])?;
    let texts = names_of(alloc, &["42", "on"])?;
    let seconds = [-1, 1_700_000_000];
    table(alloc, &names, &texts, &[0, 3], &seconds, &[5, 999_999_999])
}

/// Whether a value has the labels and the columns of these two rows.
fn has_two_rows(value: &PvValue) -> bool {
    let expected = [
        "name",
        "value",
        "severity",
        "secondsPastEpoch",
        "nanoseconds",
    ];
    let [labels, columns] = value.members() else {
        return false;
    };
    let [name, text, severity, seconds, nanoseconds] = columns.members() else {
        return false;
    };
    is_texts(labels, &expected)
        && is_texts(name, &["X", "Y"])
        && is_texts(text, &["42", "on"])
        && ints(severity) == [0, 3].as_slice()
        && longs(seconds) == [-1, 1_700_000_000].as_slice()
        && ints(nanoseconds) == [5, 999_999_999].as_slice()
}

#[test]
fn records_are_rows_of_a_table(rt: HostRuntime) -> Result<(), Fail> {
    let (ty, value) = two_rows(rt.alloc())?;
    assert_eq!(rt; kind_of(&ty), Some(NtKind::NtTable));
    assert!(rt; has_two_rows(&value));
    Ok(())
}

/// Whether a value has five columns of this length.
fn has_columns(value: &PvValue, length: usize) -> bool {
    let [_labels, columns] = value.members() else {
        return false;
    };
    columns.members().len() == 5
        && columns.members().iter().all(
            |column| matches!(column, PvValue::List(items) if items.len() == length),
        )
}

/// Whether a table of rows with these texts as names and values, and with these numbers, has as many rows.
fn has_rows(alloc: Global, texts: &[&str], ints: &[i32], longs: &[i64]) -> bool {
    if ints.len() != texts.len() || longs.len() != texts.len() {
        return false;
    }
    let Ok(names) = names_of(alloc, texts) else {
        return false;
    };
    let Ok((ty, value)) = table(alloc, &names, &names, ints, longs, ints) else {
        return false;
    };
    let right = has_columns(&value, texts.len());
    discard(ty);
    discard(value);
    right
}

#[test]
fn a_table_may_have_4000_rows(rt: HostRuntime) -> Result<(), Fail> {
    let alloc = rt.alloc();
    for count in [0, 4_000] {
        let texts = vec![in alloc; "X"; count]?;
        let ints = vec![in alloc; 7i32; count]?;
        let longs = vec![in alloc; 7i64; count]?;
        assert!(rt; has_rows(alloc, &texts, &ints, &longs));
    }
    Ok(())
}
