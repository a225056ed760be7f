ghost use Rattle.std.specs.Prelude.{◌≡◌, if◌then◌else◌, IfOk, option_map};
ghost use Rattle.pva_frames.specs.Spelling.{frame_bytes};
ghost use Rattle.pva_search.specs.Reading.{has_header, header_in, is_whole, message_in};

use pva_frames::{Header, Segment, read_header, write_message};
use pva_wire::{NoMemory, Order};
use std::alloc::Global;

/// The size of a header in bytes.
const SIZE: usize = 8;

/// The header in front of a datagram.
fn header_in(datagram: &[u8]) -> Option<Header>
    ensures { result ≡ (if has_header datagram.now then Some (header_in datagram.now) else None) }
{
    if datagram.len() < SIZE {
        return None;
    }
    let mut head = [0; SIZE];
    head.copy_from_slice(&datagram[..SIZE]);
    read_header(&head).ok()
}

/// Whether a header is that of one whole application message of this command, which takes so many bytes.
fn is_whole(header: &Header, command: u8, size: usize) -> bool
    ensures { result ≡ is_whole command size header.now }
{
    !header.is_control()
        && matches!(header.segment(), Segment::Single)
        && header.command == command
        && SIZE + header.number as usize == size
}

/// The order and the payload of a datagram that is one whole message of this command; None for every
/// other. Bytes after the message make it another.
pub(crate) fn message_in(command: u8, datagram: &[u8]) -> Option<(Order, &[u8])>
    ensures { option_map (λ x. (x.0, x.1.now)) result ≡ message_in command datagram.now }
{
    let header = header_in(datagram)?;
    if !is_whole(&header, command, datagram.len()) {
        return None;
    }
    Some((header.order, &datagram[SIZE..]))
}

/// One whole message: its header, and the payload. A payload of more than 2^32-1 bytes has none: it is
/// NoMemory.
pub(crate) fn datagram_of(
    alloc: Global,
    order: Order,
    server: bool,
    command: u8,
    payload: &[u8],
) -> Result<Vec<u8>, NoMemory>
    ensures { IfOk result (λ v. v.items ≡ frame_bytes order server 0 command payload.now) }
{
    if payload.len() > u32::MAX as usize {
        return Err(NoMemory);
    }
    let mut datagram = Vec::new(alloc);
    write_message(&mut datagram, order, server, command, payload, u32::MAX)?;
    Ok(datagram)
}
