// The ports of a site.
ghost use Rattle.std.specs.Prelude.{◌≡◌, IfOk, is_some, option_map};
ghost use Rattle.desk_core.specs.Ports.{ports_there, ports_wanted};
ghost use Rattle.prog_source.specs.Opening.{PathIs, PortsAre};

use desk_api::Site;
use pva_outside::{PortMaker, PortStep};
use std::alloc::{AllocError, AllocFailed, Global};

/// Why a site's ports can't be had.
#[derive(Clone, Copy, Debug, PartialEq, Eq)]
pub enum PortsStop {
    /// One of them can't be made.
    Unmade,
    /// Memory ran out.
    NoMemory,
}

/// The port of a record, which has one where it has a path.
fn make_port<M: PortMaker>(
    alloc: Global,
    maker: &mut M,
    path: Option<&str>,
) -> Result<Option<M::Port>, PortsStop>
    ensures asked { PathIs (option_map (λ p. p.now) path.entry) (M.maker maker.old) (M.maker maker.new) result }
    ensures there { IfOk result (λ port. is_some port ≡ is_some path.entry) }
{
    let Some(path) = path else {
        return Ok(None);
    };
    match maker.make(alloc, path) {
        PortStep::Made(port) => Ok(Some(port)),
        PortStep::Failed => Err(PortsStop::Unmade),
        PortStep::NoMemory => Err(PortsStop::NoMemory),
    }
}

/// The ports of the records, each at its record's place. They are asked for in the order of the records, up to the first that
/// isn't made.
pub fn make_ports<M: PortMaker>(
    alloc: Global,
    site: &Site,
    maker: &mut M,
) -> Result<Vec<Option<M::Port>>, PortsStop>
    ensures asked { PortsAre site.now.configs (M.maker maker.old) (M.maker maker.new) result }
    ensures there { IfOk result (λ ports. ports_there ports.items ≡ ports_wanted site.now.configs) }
{
    let count = site.records();
    let Ok(mut ports) = Vec::with_capacity(alloc, count) else {
        return Err(PortsStop::NoMemory);
    };
    for rec in 0..count {
        let port = match make_port(alloc, maker, site.port(rec)) {
            Ok(port) => port,
            Err(stop) => return Err(stop),
        };
        let Ok(()) = ports.push(port) else {
            return Err(PortsStop::NoMemory);
        };
    }
    Ok(ports)
}
