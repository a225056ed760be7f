ghost use Rattle.std.specs.Prelude.{◌≡◌, ◌≤◌, ◌==◌, Ok, Err, IfSome, length, slice_index, if◌then◌else◌};
ghost use Rattle.pva_frames.specs.Numbers.{number_of};
ghost use Rattle.pva_frames.specs.Headers.{magic, order_of, header_of, is_control, segment_of, IsSingle};

use crate::fault::FrameFault;
use byteorder::{BigEndian, ByteOrder, LittleEndian};
use pva_wire::Order;

/// The first byte of each header.
pub(crate) const MAGIC: u8 = 0xCA;

/// The size of a header in bytes.
pub(crate) const SIZE: usize = 8;

/// What the eight bytes in front of each frame say (pvAccess Protocol Specification, "Message
/// Header"). The version isn't looked at.
#[derive(Clone, Copy, Debug, PartialEq, Eq)]
pub struct Header {
    /// The order that the flags name.
    pub order: Order,
    /// The flags, of which bits 0, 4, 5 and 7 are looked at.
    pub flags: u8,
    /// The command.
    pub command: u8,
    /// The datum of a control message, else the length of the payload that follows.
    pub number: u32,
}

/// Whether an application message comes whole, or which of its segments this is.
#[derive(Clone, Copy, Debug, PartialEq, Eq)]
pub enum Segment {
    /// The whole message (bits 4 and 5 are clear).
    Single,
    /// The first segment (bit 4 alone).
    First,
    /// One that is neither the first nor the last (both bits).
    Middle,
    /// The last segment (bit 5 alone).
    Last,
}

impl Header {
    /// Whether this is a control message, which has no payload.
    pub fn is_control(&self) -> bool
        ensures { result ≡ is_control self.now }
    {
        self.flags & 1 == 1
    }

    /// The part of an application message that this is.
    pub fn segment(&self) -> Segment
        ensures { result ≡ segment_of self.now }
    {
        match self.flags & 0x30 {
            0 => Segment::Single,
            0x10 => Segment::First,
            0x30 => Segment::Middle,
            _ => Segment::Last,
        }
    }
}

/// The order that flags name.
fn order_of(flags: u8) -> Order
    ensures { result ≡ order_of flags }
{
    if flags & 0x80 == 0 {
        Order::Little
    } else {
        Order::Big
    }
}

/// The number in the first four bytes.
fn number_of(order: Order, bytes: &[u8]) -> u32
    requires { 4 ≤ length bytes.now }
    ensures { result ≡ number_of order bytes.now }
{
    match order {
        Order::Little => LittleEndian::read_u32(bytes),
        Order::Big => BigEndian::read_u32(bytes),
    }
}

/// The header in eight bytes, whatever the first of them is.
#[tactic(auto, unfolding(crate::specs::Headers::header_of))]
pub(crate) fn header_in(bytes: &[u8; 8]) -> Header
    ensures { result ≡ header_of bytes.now }
{
    let order = order_of(bytes[2]);
    Header {
        order,
        flags: bytes[2],
        command: bytes[3],
        number: number_of(order, &bytes[4..]),
    }
}

/// Reads a header. The refusal is BadMagic alone, at place 0, where the first byte isn't CA.
pub fn read_header(bytes: &[u8; 8]) -> Result<Header, FrameFault>
    ensures { result ≡ (if slice_index bytes.now 0 == magic then Ok (header_of bytes.now)
        else Err (FrameFault.BadMagic (slice_index bytes.now 0) 0)) }
{
    if bytes[0] != MAGIC {
        return Err(FrameFault::BadMagic {
            byte: bytes[0],
            place: 0,
        });
    }
    Ok(header_in(bytes))
}

/// The header of the whole application message with which these bytes begin: none where fewer than
/// eight bytes stand there, the first isn't CA, or it is a control message or a segment.
pub(crate) fn single_header(bytes: &[u8]) -> Option<Header>
    ensures { IfSome result (IsSingle bytes.now) }
{
    if bytes.len() < SIZE || bytes[0] != MAGIC {
        return None;
    }
    let mut head = [0; SIZE];
    head.copy_from_slice(&bytes[..SIZE]);
    let header = header_in(&head);
    if header.is_control() {
        return None;
    }
    match header.segment() {
        Segment::Single => Some(header),
        Segment::First | Segment::Middle | Segment::Last => None,
    }
}
