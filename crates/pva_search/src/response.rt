ghost use Rattle.std.specs.Prelude.{◌≡◌, IfOk};
ghost use Rattle.pva_wire.specs.Reading.{TakesNone};
ghost use Rattle.pva_search.specs.Reading.{response_at, response_in};
ghost use Rattle.pva_search.specs.Parts.{HoldsResponse, Reads, Finds};

use crate::answering::RESPONSE;
use crate::datagram::message_in;
use crate::reading::{address_at, bytes_at, flag_at};
use pva_wire::{Cause, Order, Stop, str_at, u16_at, u32_at};

/// A response, whose channels still stand in the datagram. All of them can be read.
#[derive(Clone, Copy)]
pub(crate) struct ReadResponse<'a> {
    pub(crate) order: Order,
    pub(crate) address: [u8; 16],
    pub(crate) port: u16,
    pub(crate) found: bool,
    /// How many channels it lists.
    pub(crate) count: u16,
    pub(crate) instances: &'a [u8],
}

/// The response in a payload.
#[tactic(auto, unfolding(crate::specs::Reading::response_at))]
fn response_at(order: Order, payload: &[u8]) -> Result<ReadResponse<'_>, Stop>
    ensures value { Reads HoldsResponse result (response_at order payload.now) }
    ensures order { IfOk result (λ x. x.order ≡ order) }
    ensures memory { TakesNone result }
{
    let (_, rest) = bytes_at(12, payload)?;
    let (_, rest) = u32_at(order, rest)?;
    let (address, rest) = address_at(rest)?;
    let (port, rest) = u16_at(order, rest)?;
    let (_, rest) = str_at(order, rest)?;
    let (found, rest) = flag_at(order, rest)?;
    let (count, instances) = u16_at(order, rest)?;
    if instances.len() < 4 * count as usize {
        // the bytes of the first number that isn't whole
        return Err(Stop::Fault(Cause::Short, instances.len() % 4));
    }
    Ok(ReadResponse {
        order,
        address,
        port,
        found,
        count,
        instances,
    })
}

/// The response that a datagram is. It takes no memory.
pub(crate) fn response_in(datagram: &[u8]) -> Option<ReadResponse<'_>>
    ensures { Finds (λ x. x.order) HoldsResponse result (response_in datagram.now) }
{
    let (order, payload) = message_in(RESPONSE, datagram)?;
    response_at(order, payload).ok()
}
