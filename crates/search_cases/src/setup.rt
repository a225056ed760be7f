// What a server or a client of a case tells of itself.
use case_files::{Case, CaseFault};
use pva_search::{Order, Setup};
use std::alloc::Global;

/// The twelve bytes that tell a server from others.
fn guid_in(bytes: &[u8], line: u32) -> Result<[u8; 12], CaseFault> {
    if bytes.len() != 12 {
        return Err(CaseFault::At(line, "a guid has twelve bytes"));
    }
    let mut guid = [0; 12];
    guid.copy_from_slice(bytes);
    Ok(guid)
}

/// The guid of a case, which is zero unless it is given.
fn guid_of(alloc: Global, case: &Case<'_>) -> Result<[u8; 12], CaseFault> {
    let Some(entry) = case.find("guid") else {
        return Ok([0; 12]);
    };
    let bytes = case.bytes(alloc, entry)?;
    guid_in(&bytes, entry.line)
}

/// The port of a case, which is 5075 unless it is given.
pub fn port_of(case: &Case<'_>) -> Result<u16, CaseFault> {
    let Some(entry) = case.find("port") else {
        return Ok(5_075);
    };
    match u16::try_from(entry.number()?) {
        Ok(port) => Ok(port),
        Err(_) => Err(CaseFault::At(entry.line, "a port is at most 65535")),
    }
}

/// The byte order of a case, which is little unless it is given.
fn order_of(case: &Case<'_>) -> Result<Order, CaseFault> {
    let Some(entry) = case.find("order") else {
        return Ok(Order::Little);
    };
    match entry.rest {
        "little" => Ok(Order::Little),
        "big" => Ok(Order::Big),
        _ => Err(CaseFault::At(entry.line, "an order is little or big")),
    }
}

/// What the server of a case tells of itself.
pub fn setup_of(alloc: Global, case: &Case<'_>) -> Result<Setup, CaseFault> {
    Ok(Setup {
        guid: guid_of(alloc, case)?,
        port: port_of(case)?,
        order: order_of(case)?,
    })
}
