use crate::part::PutPart;
use pvd_type::{Name, PvType};
use pvd_value::PvValue;

/// What a client says (pvAccess Protocol Specification, "Application Messages"). Channels are named by
/// the id that the server gave them (sid) or by the client's own (cid), requests by the client's id
/// (req); each id may be any number of 32 bits. `sub` is the subcommand of a request, a set of bits: 08
/// begins the request, 10 ends it, 40 asks for the present value of a put, 80 brings a count of updates.
///
/// A request structure, or an argument, is a type and a value of it. It is None where the message has
/// none and where its description is null.
#[derive(Drop)]
pub enum ToServer {
    /// 01 ("Connection validation"): the size in bytes of the client's buffer, the number of types that
    /// its registry holds, the bits of its quality of service, the method of authentication and its
    /// argument.
    Validation {
        buffer: u32,
        registry: u16,
        qos: u16,
        method: Name,
        argument: Option<(PvType, PvValue)>,
    },
    /// 02 ("Echo"): bytes that are sent back.
    Echo {
        bytes: Vec<u8>,
    },
    /// 07 ("Create channel"): the cid and the name of each channel. A message can be written with at most
    /// 65,535 of them.
    Create {
        channels: Vec<(u32, Name)>,
    },
    /// 08 ("Destroy channel"): a channel is ended.
    DestroyChannel {
        sid: u32,
        cid: u32,
    },
    /// 0A ("Channel get"): a get, or its beginning, which has the request structure.
    Get {
        sid: u32,
        req: u32,
        sub: u8,
        request: Option<(PvType, PvValue)>,
    },
    /// 0B ("Channel put"): its beginning, which has the request structure; with bit 40 and without 08 a
    /// get of the present value; else a put, which has a part.
    Put {
        sid: u32,
        req: u32,
        sub: u8,
        request: Option<(PvType, PvValue)>,
        part: PutPart,
    },
    /// 0C ("Channel put-get"): as a put.
    PutGet {
        sid: u32,
        req: u32,
        sub: u8,
        request: Option<(PvType, PvValue)>,
        part: PutPart,
    },
    /// 0D ("Channel monitor"): a monitor is begun, started, stopped or ended. With bit 80 there is a count
    /// of updates, any number of 32 bits: that of the free ones at a beginning, else of the acknowledged
    /// ones.
    Monitor {
        sid: u32,
        req: u32,
        sub: u8,
        request: Option<(PvType, PvValue)>,
        count: Option<u32>,
    },
    /// 0F ("Destroy request"): a request is ended.
    DestroyRequest {
        sid: u32,
        req: u32,
    },
    /// 15 ("Cancel request"): a request is given up.
    Cancel {
        sid: u32,
        req: u32,
    },
    /// 11 ("Get field"): the type of the field of this path is asked for; the empty path is the whole type.
    GetField {
        sid: u32,
        req: u32,
        path: Name,
    },
    /// 12 ("Message"): a text for people about a request, and its kind: 0 a note, 1 a warning, 2 an error,
    /// 3 a fatal error. Other kinds are read and written too.
    Message {
        req: u32,
        kind: u8,
        text: Name,
    },
    /// 14 ("Channel RPC"): a call of a service, or its beginning; both have an argument.
    Rpc {
        sid: u32,
        req: u32,
        sub: u8,
        argument: Option<(PvType, PvValue)>,
    },
    /// A message of this other command, of which nothing is read. It can't be written.
    Skipped(u8),
}
