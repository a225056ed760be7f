use mon_window::Window;
use pvd_type::BitSet;

/// The command that a request belongs to.
#[derive(Clone, Copy, Debug, PartialEq, Eq)]
pub enum AskKind {
    /// Channel Get.
    Get,
    /// Channel Put.
    Put,
    /// Channel Put-Get.
    PutGet,
    /// Channel RPC.
    Rpc,
    /// Channel Monitor.
    Monitor,
}

/// A request that has begun on a channel (pvAccess Protocol Specification, "Channel Get" and the commands like it).
/// `S` is what a desk gives for a subscription.
#[derive(Drop)]
pub struct Ask<S> {
    /// The server's id of its channel.
    pub sid: u32,
    /// Its command.
    pub kind: AskKind,
    /// The leaves that it asked for.
    pub mask: BitSet,
    /// Whether it is to be done as one, where its beginning said so.
    pub atomic: Option<bool>,
    /// Its subscription, where it is a monitor.
    pub sub: Option<S>,
    /// The window of a pipelined monitor.
    pub window: Option<Window>,
    /// Whether a monitor is started.
    pub started: bool,
}
