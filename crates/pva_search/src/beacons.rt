ghost use Rattle.std.specs.Prelude.{◌≡◌, ◌++◌, IfOk, OnOk};
ghost use Rattle.pva_search.specs.Messages.{beacon_bytes, beacon_fields};
ghost use Rattle.pva_search.specs.Fields.{canonical};

use crate::datagram::datagram_of;
use crate::setup::Setup;
use crate::writing::{put_byte, put_server};
use pva_wire::{NoMemory, write_u16};
use std::alloc::Global;

/// The command of a beacon.
const BEACON: u8 = 0;

fn write_beacon(
    out: &mut Vec<u8>,
    setup: &Setup,
    sequence: u8,
    changes: u16,
) -> Result<(), NoMemory>
    ensures { OnOk result (out.new.items
        ≡ out.old.items ++ canonical setup.now.order (beacon_fields setup.now sequence changes)) }
{
    out.extend_from_slice(&setup.guid)?;
    put_byte(out, 0)?;
    put_byte(out, sequence)?;
    write_u16(out, setup.order, changes)?;
    put_server(out, setup.order, setup.port)?;
    put_byte(out, 255)
}

/// The datagram by which a server tells that it is there, in the order of the setup (pvAccess Protocol
/// Specification, "beacon"). `sequence` counts its beacons modulo 256, and `changes` its changes modulo
/// 65,536. NoMemory where memory runs out.
pub fn beacon(alloc: Global, setup: &Setup, sequence: u8, changes: u16) -> Result<Vec<u8>, NoMemory>
    ensures { IfOk result (λ v. v.items ≡ beacon_bytes setup.now sequence changes) }
{
    let mut payload = Vec::new(alloc);
    write_beacon(&mut payload, setup, sequence, changes)?;
    datagram_of(alloc, setup.order, true, BEACON, payload.as_slice())
}
