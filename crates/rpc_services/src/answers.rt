// What the service answers.
ghost use Rattle.std.specs.Prelude.{◌≡◌, IfOk, true, length, map, ◌++◌, ◌∷◌, []};
ghost use Rattle.nt_types.specs.Types.{table_tree};
ghost use Rattle.pvd_value.specs.Data.{single, int, texts, many, members};
ghost use Rattle.pvd_value.specs.Fits.{fits_of};
ghost use Rattle.pvd_value.specs.View.{view, row_of};
ghost use Rattle.rpc_services.specs.Answers.{channels_tree, channels_data, info_tree, info_data, count_shown, columns, rows_data, snapshot_tree, snapshot_data};

use crate::parts::{ints_of, longs_of, member, structure, texts_of};
use nt_types::nt_table;
use pvd_type::{Extent, Name, NoMemory, PvType, Scalar, Shape};
use pvd_value::{Items, PvValue};
use std::alloc::Global;

/// The names of channels in this order: an NTScalarArray of strings that has the field `value` alone (EPICS Normative
/// Types 1.0, "NTScalarArray"). Each name is copied once.
pub fn channels(alloc: Global, names: &[Name]) -> Result<(PvType, PvValue), NoMemory>
    ensures tree { IfOk result (λ r. r.0 ≡ channels_tree) }
    ensures value { IfOk result (λ r. view r.1 ≡ channels_data names.now) }
    ensures fits { IfOk result (λ r. fits_of 16 (view r.1) r.0 ≡ true) }
{
    let ty = channels_type(alloc)?;
    let value = channels_value(alloc, names)?;
    Ok((ty, value))
}

fn channels_type(alloc: Global) -> Result<PvType, NoMemory>
    ensures { IfOk result (λ ty. ty ≡ channels_tree) }
{
    let names = Shape::List(Scalar::Text, Extent::Variable);
    let value = member(alloc, "value", names)?;
    let shape = structure(alloc, "epics:nt/NTScalarArray:1.0", vec![in alloc; value]?)?;
    PvType::of_checked(alloc, shape)
}

fn channels_value(alloc: Global, names: &[Name]) -> Result<PvValue, NoMemory>
    ensures { IfOk result (λ v. view v ≡ channels_data names.now) }
{
    let names = texts_of(alloc, names)?;
    Ok(PvValue::Struct(vec![in alloc; names]?))
}

/// The version of the service, which is the text `1`, and how many records and groups the server has: a structure without
/// an id. A count above 2^31 - 1 is shown as 2^31 - 1.
pub fn info(alloc: Global, records: u32, groups: u32) -> Result<(PvType, PvValue), NoMemory>
    ensures tree { IfOk result (λ r. r.0 ≡ info_tree) }
    ensures value { IfOk result (λ r. view r.1 ≡ info_data records groups) }
    ensures fits { IfOk result (λ r. fits_of 16 (view r.1) r.0 ≡ true) }
{
    let ty = info_type(alloc)?;
    let value = info_value(alloc, records, groups)?;
    Ok((ty, value))
}

fn info_type(alloc: Global) -> Result<PvType, NoMemory>
    ensures { IfOk result (λ ty. ty ≡ info_tree) }
{
    let version = member(alloc, "version", Shape::Plain(Scalar::Text))?;
    let records = member(alloc, "records", Shape::Plain(Scalar::I32))?;
    let groups = member(alloc, "groups", Shape::Plain(Scalar::I32))?;
    let shape = structure(alloc, "", vec![in alloc; version, records, groups]?)?;
    PvType::of_checked(alloc, shape)
}

fn info_value(alloc: Global, records: u32, groups: u32) -> Result<PvValue, NoMemory>
    ensures { IfOk result (λ v. view v ≡ info_data records groups) }
{
    let version = PvValue::Text(Name::of(alloc, "1")?);
    let (records, groups) = (count_of(records), count_of(groups));
    Ok(PvValue::Struct(vec![in alloc; version, records, groups]?))
}

/// A count as an int.
fn count_of(count: u32) -> PvValue
    ensures { view result ≡ single (int (count_shown count)) }
{
    PvValue::I32(count.min(i32::MAX as u32) as i32)
}

/// A row for each record: an NTTable whose labels are the names of its columns, `name` and `value` (strings), `severity`
/// (int, 0 for none to 3), `secondsPastEpoch` (long, since 1970) and `nanoseconds` (int) (EPICS Normative Types 1.0,
/// "NTTable"). The lists are as long as each other: a record has the same place in all. Each text is copied once.
pub fn table(
    alloc: Global,
    names: &[Name],
    texts: &[Name],
    severities: &[i32],
    seconds: &[i64],
    nanoseconds: &[i32],
) -> Result<(PvType, PvValue), NoMemory>
    requires texts { length texts.now ≡ length names.now }
    requires severities { length severities.now ≡ length names.now }
    requires seconds { length seconds.now ≡ length names.now }
    requires nanoseconds { length nanoseconds.now ≡ length names.now }
    ensures tree { IfOk result (λ r. r.0 ≡ snapshot_tree) }
    ensures value { IfOk result (λ r. view r.1 ≡ snapshot_data names.now texts.now severities.now seconds.now nanoseconds.now) }
    ensures fits { IfOk result (λ r. fits_of 16 (view r.1) r.0 ≡ true) }
{
    let columns = columns(alloc)?;
    let ty = table_type(alloc, columns.as_slice())?;
    let labels = labels_of(alloc, columns.as_slice())?;
    let rows = rows_of(alloc, names, texts, severities, seconds, nanoseconds)?;
    let value = table_value(alloc, labels, rows)?;
    Ok((ty, value))
}

/// The columns of a table of records, each with its name.
fn columns(alloc: Global) -> Result<Vec<(Name, Scalar)>, NoMemory>
    ensures { IfOk result (λ cs. cs.items ≡ columns) }
{
    let columns = Vec::with_capacity(alloc, 5)?;
    let columns = with_column(alloc, columns, "name", Scalar::Text)?;
    let columns = with_column(alloc, columns, "value", Scalar::Text)?;
    let columns = with_column(alloc, columns, "severity", Scalar::I32)?;
    let columns = with_column(alloc, columns, "secondsPastEpoch", Scalar::I64)?;
    with_column(alloc, columns, "nanoseconds", Scalar::I32)
}

/// One more column behind these.
fn with_column(
    alloc: Global,
    columns: Vec<(Name, Scalar)>,
    name: &str,
    scalar: Scalar,
) -> Result<Vec<(Name, Scalar)>, NoMemory>
    ensures { IfOk result (λ more. more.items ≡ columns.items ++ (name.now, scalar) ∷ []) }
{
    let mut more = columns;
    more.push((Name::of(alloc, name)?, scalar))?;
    Ok(more)
}

fn table_type(alloc: Global, columns: &[(Name, Scalar)]) -> Result<PvType, NoMemory>
    ensures { IfOk result (λ ty. ty ≡ table_tree columns.now) }
{
    match nt_table(alloc, columns) {
        Ok(ty) => Ok(ty),
        Err(_) => Err(NoMemory),
    }
}

/// The names of columns, in order.
fn labels_of(alloc: Global, columns: &[(Name, Scalar)]) -> Result<PvValue, NoMemory>
    ensures { IfOk result (λ v. view v ≡ many (texts (map (λ c. c.0) columns.now))) }
{
    let mut labels = Vec::with_capacity(alloc, columns.len())?;
    for column in columns {
        labels.push(column.0.clone_in(alloc)?)?;
    }
    Ok(PvValue::List(Items::Text(labels)))
}

/// The columns of records, side by side.
fn rows_of(
    alloc: Global,
    names: &[Name],
    texts: &[Name],
    severities: &[i32],
    seconds: &[i64],
    nanoseconds: &[i32],
) -> Result<PvValue, NoMemory>
    ensures { IfOk result (λ v. view v ≡ rows_data names.now texts.now severities.now seconds.now nanoseconds.now) }
{
    let mut columns = Vec::with_capacity(alloc, 5)?;
    columns.push(texts_of(alloc, names)?)?;
    columns.push(texts_of(alloc, texts)?)?;
    columns.push(ints_of(alloc, severities)?)?;
    columns.push(longs_of(alloc, seconds)?)?;
    columns.push(ints_of(alloc, nanoseconds)?)?;
    Ok(PvValue::Struct(columns))
}

/// Labels, and the columns that they name.
fn table_value(alloc: Global, labels: PvValue, rows: PvValue) -> Result<PvValue, NoMemory>
    ensures { IfOk result (λ v. view v ≡ members (row_of (view labels ∷ view rows ∷ []))) }
{
    Ok(PvValue::Struct(vec![in alloc; labels, rows]?))
}
