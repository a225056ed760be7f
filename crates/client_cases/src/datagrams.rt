// The datagrams of a case.
use crate::peers::peer_of;
use crate::surroundings::failing;
use case_files::{Case, CaseFault, Entry};
use pva_outside::{Datagram, MemoryDatagrams};
use std::alloc::Global;
use std::collections::VecDeque;

/// The datagram of `datagram ADDRESS BYTES`.
fn datagram_of(alloc: Global, case: &Case<'_>, entry: Entry<'_>) -> Result<Datagram, CaseFault> {
    let entry = entry.inner();
    let from = peer_of(alloc, entry)?;
    let bytes = case.bytes(alloc, entry)?;
    Ok(Datagram { bytes, from })
}

/// Appends what an entry lets come: a datagram, or nothing at so many receives.
fn push_coming(
    alloc: Global,
    case: &Case<'_>,
    entry: Entry<'_>,
    coming: &mut VecDeque<Option<Datagram>>,
) -> Result<(), CaseFault> {
    match entry.key {
        "datagram" => coming.push_back(Some(datagram_of(alloc, case, entry)?))?,
        "silence" => {
            for _ in 0..entry.number()? {
                coming.push_back(None)?;
            }
        }
        _ => {}
    }
    Ok(())
}

/// The datagrams of a case, of which those come that it says.
pub fn datagrams_of(alloc: Global, case: &Case<'_>) -> Result<MemoryDatagrams, CaseFault> {
    let mut coming = VecDeque::new(alloc);
    for entry in &case.entries {
        push_coming(alloc, case, *entry, &mut coming)?;
    }
    let failing = failing(alloc, case, "datagram")?;
    Ok(MemoryDatagrams::new(alloc, coming, failing))
}
