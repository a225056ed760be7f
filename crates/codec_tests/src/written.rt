ghost use Rattle.std.specs.Prelude.{◌≡◌, true};
ghost use Rattle.pvd_codec.specs.Written.{CanEach};
ghost use Rattle.pva_messages.specs.Requests.{CanSend, request_fields};
ghost use Rattle.pva_messages.specs.Replies.{CanReply, reply_fields};
ghost use Rattle.pva_messages.specs.Subcommands.{carries};
ghost use Rattle.pva_messages.specs.Written.{FitsField};
ghost use Rattle.pva_messages.specs.Views.{request_view, reply_view};

use crate::frames::discard;
use pva_frames::{Payload, Whole};
use pva_messages::{
    PutPart, ToClient, ToServer, read_put_part, read_reply, read_request, read_to_server,
    write_get_value, write_to_client, write_to_server,
};
use pva_wire::{Order, Status, StatusKind};
use pvd_desc::Registry;
use pvd_type::{NoMemory, PvType, Scalar, Shape};
use pvd_value::{PvValue, fits};
use std::alloc::Global;
use std::test::Fail;

/// Whether the row of a message is all that it needs to be written; false of a message that isn't in the table below.
fn can_be_sent(message: &ToServer) -> bool
    ensures { result ≡ true → CanSend (request_view message.now) }
{
    match message {
        ToServer::Validation { .. } => true,
        ToServer::Echo { .. } => true,
        ToServer::DestroyChannel { .. } => true,
        ToServer::Cancel { .. } => true,
        ToServer::GetField { .. } => true,
        ToServer::Message { .. } => true,
        ToServer::Rpc { .. } => true,
        _ => false,
    }
}

/// Whether a message of a client is written as this frame.
fn is_sent(alloc: Global, message: &ToServer, order: Order, frame: &[u8]) -> bool
    requires { CanEach FitsField (request_fields (request_view message.now)) }
{
    if !can_be_sent(message) {
        return false;
    }
    let mut out = Vec::new(alloc);
    write_to_server(&mut out, order, 65_528, message).is_ok() && out.as_slice() == frame
}

/// The order, the command and the payload of a frame.
fn parts(frame: &[u8]) -> Option<(Order, u8, &[u8])> {
    let order = if *frame.get(2)? & 0x80 == 0 {
        Order::Little
    } else {
        Order::Big
    };
    Some((order, *frame.get(3)?, frame.get(8..)?))
}

/// Whether a server reads a frame as a message that a client writes as another frame.
fn is_request(alloc: Global, read: &[u8], written: &[u8]) -> bool {
    let (Some((order, command, payload)), Some(wanted)) = (parts(read), parts(written)) else {
        return false;
    };
    let mut registry = Registry::new(alloc);
    match read_request(alloc, order, command, payload, &mut registry) {
        Ok(message) => {
            let right = is_sent(alloc, &message, wanted.0, written);
            discard(message);
            right
        }
        Err(_) => false,
    }
}

#[test]
fn a_client_writes_messages_in_both_orders(rt: HostRuntime) {
    // each frame in little and in big endian
    let frames: [&[u8]; 18] = [
        // the validation of the user u of the host h
        b"\xCA\x02\0\x01\x1E\0\0\0\0\0\x01\0\xFF\x7F\x03\0\x02ca\x80\0\x02\x04user\x60\x04host\x60\x01u\x01h",
        b"\xCA\x02\x80\x01\0\0\0\x1E\0\x01\0\0\x7F\xFF\0\x03\x02ca\x80\0\x02\x04user\x60\x04host\x60\x01u\x01h",
        // an echo of three bytes
        b"\xCA\x02\0\x02\x03\0\0\0\x01\x02\x03",
        b"\xCA\x02\x80\x02\0\0\0\x03\x01\x02\x03",
        // the end of a channel
        b"\xCA\x02\0\x08\x08\0\0\0\x01\0\0\0\x07\0\0\0",
        b"\xCA\x02\x80\x08\0\0\0\x08\0\0\0\x01\0\0\0\x07",
        // questions for the types of the fields value and a.b
        b"\xCA\x02\0\x11\x0E\0\0\0\0\0\0\0\x04\0\0\0\x05value",
        b"\xCA\x02\x80\x11\0\0\0\x0E\0\0\0\0\0\0\0\x04\x05value",
        b"\xCA\x02\0\x11\x0C\0\0\0\x03\0\0\0\x04\0\0\0\x03a.b",
        b"\xCA\x02\x80\x11\0\0\0\x0C\0\0\0\x03\0\0\0\x04\x03a.b",
        // a text about a request
        b"\xCA\x02\0\x12\x08\0\0\0\x04\0\0\0\x02\x02hi",
        b"\xCA\x02\x80\x12\0\0\0\x08\0\0\0\x04\x02\x02hi",
        // calls with an int and with a text
        b"\xCA\x02\0\x14\x0E\0\0\0\x03\0\0\0\x01\0\0\0\0\x22\x07\0\0\0",
        b"\xCA\x02\x80\x14\0\0\0\x0E\0\0\0\x03\0\0\0\x01\0\x22\0\0\0\x07",
        b"\xCA\x02\0\x14\x0D\0\0\0\x03\0\0\0\x05\0\0\0\0\x60\x02hi",
        b"\xCA\x02\x80\x14\0\0\0\x0D\0\0\0\x03\0\0\0\x05\0\x60\x02hi",
        // a request is cancelled
        b"\xCA\x02\0\x15\x08\0\0\0\x03\0\0\0\x01\0\0\0",
        b"\xCA\x02\x80\x15\0\0\0\x08\0\0\0\x03\0\0\0\x01",
    ];
    for pair in frames.chunks(2) {
        for written in pair {
            for read in pair {
                assert!(rt; is_request(rt.alloc(), read, written), "{written:?}");
            }
        }
    }
}

/// Whether a reply with this status brings a type or a value.
fn carries(status: &Status) -> bool
    ensures { result ≡ carries status.now }
{
    matches!(status.kind, StatusKind::Good | StatusKind::Warning)
}

/// Whether the row of a message is all that it needs to be written; false of a message that isn't in the table below.
fn can_be_replied(message: &ToClient) -> bool
    ensures { result ≡ true → CanReply (reply_view message.now) }
{
    match message {
        ToClient::Echo { .. } => true,
        ToClient::ChannelDestroyed { .. } => true,
        ToClient::Validated { .. } => true,
        ToClient::Message { .. } => true,
        ToClient::MonitorEnd { sub: 0x10, .. } => true,
        ToClient::PutGet {
            sub: 8,
            status,
            part: None,
            ..
        } => carries(status),
        ToClient::Rpc { sub: 0, status, .. } => carries(status),
        _ => false,
    }
}

/// Whether a message of a server is written as this frame.
fn is_replied(alloc: Global, message: &ToClient, order: Order, frame: &[u8]) -> bool
    requires { CanEach FitsField (reply_fields (reply_view message.now)) }
{
    if !can_be_replied(message) {
        return false;
    }
    let mut out = Vec::new(alloc);
    write_to_client(&mut out, order, 65_528, message).is_ok() && out.as_slice() == frame
}

/// Whether a client reads a frame as a message that a server writes as another frame.
fn is_reply(alloc: Global, read: &[u8], written: &[u8]) -> bool {
    let (Some((order, command, payload)), Some(wanted)) = (parts(read), parts(written)) else {
        return false;
    };
    let mut registry = Registry::new(alloc);
    match read_reply(alloc, order, command, payload, &mut registry, None) {
        Ok(message) => {
            let right = is_replied(alloc, &message, wanted.0, written);
            discard(message);
            right
        }
        Err(_) => false,
    }
}

#[test]
fn a_server_writes_messages_in_both_orders(rt: HostRuntime) {
    // each frame in little and in big endian
    let frames: [&[u8]; 20] = [
        // the bytes of an echo
        b"\xCA\x02\x40\x02\x03\0\0\0\x01\x02\x03",
        b"\xCA\x02\xC0\x02\0\0\0\x03\x01\x02\x03",
        // the end of a channel
        b"\xCA\x02\x40\x08\x08\0\0\0\x01\0\0\0\x07\0\0\0",
        b"\xCA\x02\xC0\x08\0\0\0\x08\0\0\0\x01\0\0\0\x07",
        // a validation with a warning, without texts and with a message
        b"\xCA\x02\x40\x09\x03\0\0\0\x01\0\0",
        b"\xCA\x02\xC0\x09\0\0\0\x03\x01\0\0",
        b"\xCA\x02\x40\x09\x04\0\0\0\x01\x01w\0",
        b"\xCA\x02\xC0\x09\0\0\0\x04\x01\x01w\0",
        // a put-get begins: an int and no type, with a warning; a structure of two ints and a text
        b"\xCA\x02\x40\x0C\x0A\0\0\0\x03\0\0\0\x08\x01\0\0\x22\xFF",
        b"\xCA\x02\xC0\x0C\0\0\0\x0A\0\0\0\x03\x08\x01\0\0\x22\xFF",
        b"\xCA\x02\x40\x0C\x10\0\0\0\x03\0\0\0\x08\xFF\x80\0\x02\x01a\x22\x01b\x22\x60",
        b"\xCA\x02\xC0\x0C\0\0\0\x10\0\0\0\x03\x08\xFF\x80\0\x02\x01a\x22\x01b\x22\x60",
        // a monitor ends
        b"\xCA\x02\x40\x0D\x06\0\0\0\x04\0\0\0\x10\xFF",
        b"\xCA\x02\xC0\x0D\0\0\0\x06\0\0\0\x04\x10\xFF",
        // a text about a request
        b"\xCA\x02\x40\x12\x08\0\0\0\x04\0\0\0\x02\x02hi",
        b"\xCA\x02\xC0\x12\0\0\0\x08\0\0\0\x04\x02\x02hi",
        // the result of a call: an int, and a text
        b"\xCA\x02\x40\x14\x0B\0\0\0\x05\0\0\0\0\xFF\x22\x07\0\0\0",
        b"\xCA\x02\xC0\x14\0\0\0\x0B\0\0\0\x05\0\xFF\x22\0\0\0\x07",
        b"\xCA\x02\x40\x14\x0A\0\0\0\x05\0\0\0\0\xFF\x60\x02hi",
        b"\xCA\x02\xC0\x14\0\0\0\x0A\0\0\0\x05\0\xFF\x60\x02hi",
    ];
    for pair in frames.chunks(2) {
        for written in pair {
            for read in pair {
                assert!(rt; is_reply(rt.alloc(), read, written), "{written:?}");
            }
        }
    }
}

/// Whether a client reads nothing of a message of this command.
fn is_skipped(alloc: Global, command: u8, payload: &[u8]) -> bool {
    let mut registry = Registry::new(alloc);
    match read_reply(alloc, Order::Little, command, payload, &mut registry, None) {
        Ok(message) => {
            let right = matches!(&message, ToClient::Skipped(found) if *found == command);
            discard(message);
            right
        }
        Err(_) => false,
    }
}

#[test]
fn a_client_reads_nothing_of_other_commands(rt: HostRuntime) {
    let table: [(u8, &[u8]); 3] = [(6, &[1, 2, 3]), (0x0F, &[]), (0x15, &[])];
    for (command, payload) in table {
        assert!(rt; is_skipped(rt.alloc(), command, payload), "{command}");
    }
}

/// A message of this order.
fn whole(alloc: Global, order: Order, command: u8, payload: &[u8]) -> Result<Whole, NoMemory> {
    Ok(Whole {
        order,
        command,
        payload: Payload::of(Vec::from_slice(alloc, payload)?),
        place: 0,
    })
}

/// Whether a message is a put or a put-get whose part was left unread at this place.
fn is_unread(message: &ToServer, place: usize) -> bool {
    match message {
        ToServer::Put { part, .. } | ToServer::PutGet { part, .. } => {
            matches!(part, PutPart::Unread(found) if *found == place)
        }
        _ => false,
    }
}

/// Whether the server leaves a part unread at this place of the message.
fn leaves_unread(alloc: Global, message: &Whole, place: usize) -> bool {
    let mut registry = Registry::new(alloc);
    match read_to_server(alloc, message, &mut registry) {
        Ok(read) => {
            let unread = is_unread(&read, place);
            discard(read);
            unread
        }
        Err(_) => false,
    }
}

/// Whether the whole value is written as this reply to the get 1.
fn is_got(alloc: Global, order: Order, ty: &PvType, value: &PvValue, frame: &[u8]) -> bool {
    let Ok(mask) = ty.leaves(alloc) else {
        return false;
    };
    let mut out = Vec::new(alloc);
    fits(ty, value)
        && write_get_value(&mut out, order, 65_528, 1, 0, ty, &mask, value).is_ok()
        && out.as_slice() == frame
}

/// Whether the part of a put to an int, at the place 9, has its one leaf and the value that is written as this reply to a get.
fn puts(alloc: Global, put: &Whole, int: &PvType, frame: &[u8]) -> bool {
    if put.payload.as_slice().len() < 9 {
        return false;
    }
    let mut registry = Registry::new(alloc);
    match read_put_part(alloc, put, 9, &mut registry, int) {
        Ok(part) => {
            let right = part.0.contains(0) && is_got(alloc, put.order, int, &part.1, frame);
            discard(part);
            right
        }
        Err(_) => false,
    }
}

#[test]
fn the_part_of_a_put_is_read_under_the_type_of_its_request(rt: HostRuntime) -> Result<(), Fail> {
    let int = PvType::check(rt.alloc(), Shape::Plain(Scalar::I32))?;
    let table: [(Order, u8, &[u8], &[u8]); 2] = [
        (
            Order::Little,
            0x0B,
            b"\x03\0\0\0\x02\0\0\0\0\x01\x01\x07\0\0\0",
            b"\xCA\x02\x40\x0A\x0C\0\0\0\x01\0\0\0\0\xFF\x01\x01\x07\0\0\0",
        ),
        (
            Order::Big,
            0x0C,
            b"\0\0\0\x03\0\0\0\x02\0\x01\x01\0\0\0\x07",
            b"\xCA\x02\xC0\x0A\0\0\0\x0C\0\0\0\x01\0\xFF\x01\x01\0\0\0\x07",
        ),
    ];
    for (order, command, payload, got) in table {
        let put = whole(rt.alloc(), order, command, payload)?;
        assert!(rt; leaves_unread(rt.alloc(), &put, 9));
        assert!(rt; puts(rt.alloc(), &put, &int, got));
    }
    Ok(())
}
