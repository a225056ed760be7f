ghost use Rattle.std.specs.Prelude.{◌≡◌, ◌<◌, ◌≤◌, ◌+◌, ◌^◌, ◌++◌, length, take, drop, OnOk, OnErr};
ghost use Rattle.pva_frames.specs.Spelling.{order_flag, server_flag, header_room, header_bytes, control_bytes, frame_bytes, later_segments, message_bytes, Keeps};

use crate::header::{MAGIC, SIZE};
use pva_wire::{NoMemory, Order};

/// The version that is written.
const VERSION: u8 = 2;

// Bits 0, 4 and 5 of the flags.
const WHOLE: u8 = 0;

const CONTROL: u8 = 1;

const FIRST: u8 = 0x10;

const MIDDLE: u8 = 0x30;

const LAST: u8 = 0x20;

/// The sender's side of a header: the order of its numbers, whether it is a server, and the
/// command.
#[derive(Clone, Copy)]
struct Sender {
    order: Order,
    server: bool,
    command: u8,
}

fn flags(sender: Sender, kind: u8) -> u8
    requires { kind ≤ 63 }
    ensures { result ≡ order_flag sender.order + server_flag sender.server + kind }
{
    let order = match sender.order {
        Order::Little => 0,
        Order::Big => 0x80,
    };
    let server = if sender.server { 0x40 } else { 0 };
    order + server + kind
}

/// The eight bytes of a header.
fn header(sender: Sender, kind: u8, number: u32) -> [u8; SIZE]
    requires { kind ≤ 63 }
    ensures { result ≡ header_bytes sender.order sender.server kind sender.command number }
{
    let number = match sender.order {
        Order::Little => number.to_le_bytes(),
        Order::Big => number.to_be_bytes(),
    };
    let mut header = [
        MAGIC,
        VERSION,
        flags(sender, kind),
        sender.command,
        0,
        0,
        0,
        0,
    ];
    header[4..].copy_from_slice(&number);
    header
}

/// Puts a header into the room in front of a payload.
fn put_header(frame: &mut [u8], sender: Sender, kind: u8, number: u32)
    requires kind { kind ≤ 63 }
    requires room { 8 ≤ length frame.old }
    ensures { frame.new ≡ header_bytes sender.order sender.server kind sender.command number ++ drop 8 frame.old }
{
    frame[..SIZE].copy_from_slice(&header(sender, kind, number));
}

fn write_header(out: &mut Vec<u8>, sender: Sender, kind: u8, number: u32) -> Result<(), NoMemory>
    requires { kind ≤ 63 }
    ensures ok { OnOk result (out.new.items
        ≡ out.old.items ++ header_bytes sender.order sender.server kind sender.command number) }
    ensures err { OnErr result (out.new.items ≡ out.old.items) }
{
    out.extend_from_slice(&header(sender, kind, number))?;
    Ok(())
}

fn write_frame(out: &mut Vec<u8>, sender: Sender, kind: u8, payload: &[u8]) -> Result<(), NoMemory>
    requires kind { kind ≤ 63 }
    requires size { length payload.now < 2 ^ 32 }
    ensures ok { OnOk result (out.new.items
        ≡ out.old.items ++ frame_bytes sender.order sender.server kind sender.command payload.now) }
    ensures err { OnErr result (Keeps out.old.items out.new.items) }
{
    write_header(out, sender, kind, payload.len() as u32)?;
    out.extend_from_slice(payload)?;
    Ok(())
}

// Writes the segments behind the first.
fn write_later(
    out: &mut Vec<u8>,
    sender: Sender,
    payload: &[u8],
    segment: usize,
) -> Result<(), NoMemory>
    requires some { 0 < segment }
    requires size { segment < 2 ^ 32 }
    ensures ok { OnOk result (out.new.items
        ≡ out.old.items ++ later_segments sender.order sender.server sender.command segment payload.now) }
    ensures err { OnErr result (Keeps out.old.items out.new.items) }
{
    let mut at = 0;
    while payload.len() - at > segment {
        write_frame(out, sender, MIDDLE, &payload[at..at + segment])?;
        at += segment;
    }
    write_frame(out, sender, LAST, &payload[at..])?;
    Ok(())
}

fn write_all(
    out: &mut Vec<u8>,
    sender: Sender,
    payload: &[u8],
    segment: usize,
) -> Result<(), NoMemory>
    requires some { 0 < segment }
    requires size { segment < 2 ^ 32 }
    ensures ok { OnOk result (out.new.items
        ≡ out.old.items ++ message_bytes sender.order sender.server sender.command payload.now segment) }
    ensures err { OnErr result (Keeps out.old.items out.new.items) }
{
    if payload.len() <= segment {
        return write_frame(out, sender, WHOLE, payload);
    }
    write_frame(out, sender, FIRST, &payload[..segment])?;
    write_later(out, sender, &payload[segment..], segment)
}

/// Appends one whole message, or, where the payload is longer than `segment` bytes, segments of
/// that size and a last one that is shorter or of that size. Without memory `out` is as before.
pub fn write_message(
    out: &mut Vec<u8>,
    order: Order,
    server: bool,
    command: u8,
    payload: &[u8],
    segment: u32,
) -> Result<(), NoMemory>
    requires { 0 < segment }
    ensures ok { OnOk result (out.new.items
        ≡ out.old.items ++ message_bytes order server command payload.now segment) }
    ensures err { OnErr result (out.new.items ≡ out.old.items) }
{
    let length = out.len();
    let sender = Sender {
        order,
        server,
        command,
    };
    if let Err(error) = write_all(out, sender, payload, segment as usize) {
        out.truncate(length);
        return Err(error);
    }
    Ok(())
}

/// Appends room for the header of a message, whose payload is to follow, and which `end_message` makes. Without
/// memory `out` is as before.
pub fn begin_message(out: &mut Vec<u8>) -> Result<(), NoMemory>
    ensures ok { OnOk result (out.new.items ≡ out.old.items ++ header_room) }
    ensures err { OnErr result (out.new.items ≡ out.old.items) }
{
    out.extend_from_slice(&[0; SIZE])?;
    Ok(())
}

/// Makes one whole message of a payload that stands at the end of `out`, behind eight bytes of room that begin at
/// `start`; or segments, as `write_message` does. A payload that is no longer than a segment stays where it is, and no
/// memory is taken. Without memory `out` ends at `start`.
pub fn end_message(
    out: &mut Vec<u8>,
    start: usize,
    order: Order,
    server: bool,
    command: u8,
    segment: u32,
) -> Result<(), NoMemory>
    requires some { 0 < segment }
    requires room { start + 8 ≤ length out.old.items }
    ensures ok { OnOk result (out.new.items ≡ take start out.old.items
        ++ message_bytes order server command (drop (start + 8) out.old.items) segment) }
    ensures err { OnErr result (out.new.items ≡ take start out.old.items) }
{
    let length = out.len() - start - SIZE;
    if length <= segment as usize {
        let sender = Sender {
            order,
            server,
            command,
        };
        put_header(&mut out[start..], sender, WHOLE, length as u32);
        return Ok(());
    }
    let copied = Vec::from_slice(*out.allocator(), &out[start + SIZE..]);
    out.truncate(start);
    let payload = copied?;
    write_message(out, order, server, command, &payload, segment)
}

/// Appends a control message. Without memory `out` is as before.
pub fn write_control(
    out: &mut Vec<u8>,
    order: Order,
    server: bool,
    command: u8,
    number: u32,
) -> Result<(), NoMemory>
    ensures ok { OnOk result (out.new.items
        ≡ out.old.items ++ control_bytes order server command number) }
    ensures err { OnErr result (out.new.items ≡ out.old.items) }
{
    let sender = Sender {
        order,
        server,
        command,
    };
    write_header(out, sender, CONTROL, number)
}
