// What is given of a record, and values that are let go.
use pvd_type::{Name, NoMemory};
use rec_kinds::FieldText;
use std::alloc::Global;

/// Lets a value go.
pub fn discard<T: Drop>(_value: T) {}

/// The fields that a text gives: names and texts, divided by `=`, with `;` between any two. They stand on the lines from 1 on.
pub fn fields(alloc: Global, given: &str) -> Result<Vec<FieldText>, NoMemory> {
    let mut fields = Vec::new(alloc);
    let mut line = 0u32;
    for field in given.split(';') {
        line = line.saturating_add(1);
        if let Some((name, text)) = field.split_once('=') {
            fields.push(FieldText {
                name: Name::of(alloc, name)?,
                text: Name::of(alloc, text)?,
                line,
            })?;
        }
    }
    Ok(fields)
}
