// Channels that are opened and ended (pvAccess Protocol Specification, "Channel Life-cycle").
ghost use Rattle.std.specs.Prelude.{◌≡◌};

use crate::session::Session;
use chan_table::TableAnswer;
use desk_api::{Channel, Desk};
use pvd_type::{Name, NoMemory};

/// The server's id in the reply to a name that opens no channel.
const NO_CHANNEL: u32 = u32::MAX;

impl Session {
    ghost use Rattle.std.specs.Prelude.{◌++◌, OnOk};
    ghost use Rattle.srv_session.specs.State.{channel_at};
    ghost use Rattle.pvd_codec.specs.Written.{CanEach};
    ghost use Rattle.srv_session.specs.Replies.{IsSayable, spelled_all, said};
    ghost use Rattle.srv_session.specs.Rows.{created, opened, all_created, all_opened};
    ghost use Rattle.srv_session.specs.Tasks as task;
    ghost use Rattle.srv_session.specs.Views.{state_of, output_of, AnswersBeside, HasSaid, Keeps};
    ghost use Rattle.desk_api.specs.Sites.{channel_named};

    /// The channel that is open under this id of the server.
    pub(crate) fn channel_at(&self, sid: u32) -> Option<Channel>
        ensures { result ≡ channel_at (state_of self.now).channels sid }
    {
        self.table.channel(sid).copied()
    }

    /// Opens a channel of this name, under the least id that is free, and replies.
    fn open<D: Desk>(&mut self, cid: u32, name: &Name, desk: &D) -> Result<(), NoMemory>
        ensures state { OnOk result (state_of self.new ≡ record (state_of self.old) { channels = opened (state_of self.old).channels cid (channel_named (D.seat desk.now).seen.base.site name.now) }) }
        ensures ok { OnOk result (HasSaid self.old self.new (said (created (state_of self.old).channels cid (channel_named (D.seat desk.now).seen.base.site name.now)))) }
        ensures requests { (state_of self.new).requests ≡ (state_of self.old).requests }
        ensures keeps { Keeps self.old self.new }
    {
        let Some(channel) = desk.find(name.as_str()) else {
            return self.say_created(cid, NO_CHANNEL, Some("channel not found"));
        };
        match self.table.add_channel(cid, channel) {
            Ok(sid) => self.say_created(cid, sid, None),
            Err(TableAnswer::NoMemory) => Err(NoMemory),
            Err(TableAnswer::InUse | TableAnswer::Full(_)) => {
                self.say_created(cid, NO_CHANNEL, Some("too many channels"))
            }
        }
    }

    /// Opens channels name by name, and replies to each.
    fn open_all<D: Desk>(&mut self, names: &[(u32, Name)], desk: &D) -> Result<(), NoMemory>
        ensures state { OnOk result (state_of self.new ≡ record (state_of self.old) { channels = all_opened (D.seat desk.now).seen.base.site (state_of self.old).channels names.now }) }
        ensures ok { OnOk result (output_of self.new ≡ output_of self.old ++ spelled_all self.old.order self.old.segment (all_created (D.seat desk.now).seen.base.site (state_of self.old).channels names.now)) }
        ensures sayable { OnOk result (CanEach IsSayable (all_created (D.seat desk.now).seen.base.site (state_of self.old).channels names.now)) }
        ensures requests { (state_of self.new).requests ≡ (state_of self.old).requests }
        ensures keeps { Keeps self.old self.new }
    {
        for name in names {
            self.open(name.0, &name.1, desk)?;
        }
        Ok(())
    }

    /// Answers name by name. Where memory runs out nothing of the replies is left.
    pub(crate) fn create<D: Desk>(
        &mut self,
        names: &[(u32, Name)],
        desk: &D,
    ) -> Result<(), NoMemory>
        ensures { AnswersBeside (D.seat desk.now) self.old self.new (task.create names.now) result }
    {
        let written = self.output.len();
        let Ok(()) = self.open_all(names, desk) else {
            self.output.truncate(written);
            return Err(NoMemory);
        };
        Ok(())
    }
}
