use crate::part::Part;
use pva_wire::Status;
use pvd_type::{BitSet, Name, PvType};
use pvd_value::PvValue;

/// What a server says (pvAccess Protocol Specification, "Application Messages"). Channels are named by
/// the id that the server gave them (sid) or by the client's own (cid), requests by the client's id
/// (req); each id may be any number of 32 bits. `sub` is the subcommand that the reply is to, a set of
/// bits, as in `ToServer`.
///
/// A type, a part or a value is None where the message has none, which sub and status tell: it has one
/// only where the status is OK or WARNING. A type is None also where its description is null, and a part
/// where its type isn't known, so that it was left unread.
#[derive(Drop)]
pub enum ToClient {
    /// 01 ("Connection validation"): the size in bytes of the server's buffer, the number of types that its
    /// registry holds, and its methods of authentication.
    Validation {
        buffer: u32,
        registry: u16,
        methods: Vec<Name>,
    },
    /// 02 ("Echo"): the bytes that the client sent.
    Echo {
        bytes: Vec<u8>,
    },
    /// 07 ("Create channel"): a channel was found, or wasn't, which the status tells.
    Created {
        cid: u32,
        sid: u32,
        status: Status,
    },
    /// 08 ("Destroy channel"): a channel was ended.
    ChannelDestroyed {
        sid: u32,
        cid: u32,
    },
    /// 09 ("Connection validated"): the client's validation was taken, or wasn't, which the status tells.
    Validated {
        status: Status,
    },
    /// 0A ("Channel get"): a get was begun, with the channel's type, or its value came.
    Get {
        req: u32,
        sub: u8,
        status: Status,
        ty: Option<PvType>,
        part: Option<Part>,
    },
    /// 0B ("Channel put"): a put was begun, with the channel's type, or was done; with bit 40 and without
    /// 08 the present value came.
    Put {
        req: u32,
        sub: u8,
        status: Status,
        ty: Option<PvType>,
        part: Option<Part>,
    },
    /// 0C ("Channel put-get"): a put-get was begun, with the types that are put and got, or its value came.
    PutGet {
        req: u32,
        sub: u8,
        status: Status,
        put_ty: Option<PvType>,
        get_ty: Option<PvType>,
        part: Option<Part>,
    },
    /// 0D with bit 08 ("Channel monitor"): a monitor was begun, with the channel's type.
    MonitorBegun {
        req: u32,
        sub: u8,
        status: Status,
        ty: Option<PvType>,
    },
    /// 0D without bits 08 and 10: what changed, and the leaves that did so more than once.
    MonitorUpdate {
        req: u32,
        sub: u8,
        update: Option<(Part, BitSet)>,
    },
    /// 0D with bit 10 and without bit 08: a monitor has ended.
    MonitorEnd {
        req: u32,
        sub: u8,
        status: Status,
    },
    /// 11 ("Get field"): the type of a field.
    GetField {
        req: u32,
        status: Status,
        ty: Option<PvType>,
    },
    /// 12 ("Message"): a text for people about a request, and its kind, as in `ToServer`.
    Message {
        req: u32,
        kind: u8,
        text: Name,
    },
    /// 14 ("Channel RPC"): a call was begun, or its result came.
    Rpc {
        req: u32,
        sub: u8,
        status: Status,
        result: Option<(PvType, PvValue)>,
    },
    /// A message of this other command, of which nothing is read. It can't be written.
    Skipped(u8),
}
