// What requests of a kind ask of a channel.
ghost use Rattle.std.specs.Prelude.{◌≡◌, IsTrue, option_map};
ghost use Rattle.desk_api.specs.Sites.{is_channel, has_values};
ghost use Rattle.desk_api.specs.Types.{type_of};
ghost use Rattle.srv_session.specs.Replies.{is_call};
ghost use Rattle.srv_session.specs.Tasks.{root_for, unfit};

use chan_table::AskKind;
use desk_api::{Channel, ChannelKind, Desk};
use pvd_request::Root;
use pvd_type::PvType;

/// Whether the channel has values: all but the service have.
pub(crate) fn has_values(channel: Channel) -> bool
    ensures { result ≡ has_values channel }
{
    match channel.kind {
        ChannelKind::Rec => true,
        ChannelKind::Desc => true,
        ChannelKind::Group => true,
        ChannelKind::Service => false,
    }
}

/// The type of a channel of the desk that has values.
pub(crate) fn type_on<D: Desk>(desk: &D, channel: Channel) -> &PvType
    requires channel { IsTrue (is_channel (D.seat desk.now).seen.base.site channel) }
    requires valued { IsTrue (has_values channel) }
    ensures { result.now ≡ type_of (D.seat desk.now).seen.base.site channel }
{
    desk.type_of(channel).unwrap()
}

/// Whether requests of this kind are calls of the service.
pub(crate) fn is_call(kind: AskKind) -> bool
    ensures { result ≡ is_call kind }
{
    match kind {
        AskKind::Get => false,
        AskKind::Put => false,
        AskKind::PutGet => false,
        AskKind::Rpc => true,
        AskKind::Monitor => false,
    }
}

/// The member under which the fields of a request of this kind stand.
pub(crate) fn root_for(kind: AskKind) -> Root
    ensures { result ≡ root_for kind }
{
    match kind {
        AskKind::Get => Root::Field,
        AskKind::Put => Root::Field,
        AskKind::PutGet => Root::GetField,
        AskKind::Rpc => Root::Field,
        AskKind::Monitor => Root::Field,
    }
}

/// Why no request of this kind may begin on the channel, if so: the service alone is called, and it has no value.
pub(crate) fn unfit(kind: AskKind, channel: Channel) -> Option<&'static str>
    ensures { option_map (λ t. t.now) result ≡ unfit kind channel }
{
    if is_call(kind) {
        if has_values(channel) {
            return Some("no service here");
        }
        return None;
    }
    if has_values(channel) {
        return None;
    }
    Some("channel has no value")
}
