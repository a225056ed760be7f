// Updates of monitors (pvAccess Protocol Specification, "Channel Monitor").
ghost use Rattle.std.specs.Prelude.{◌≡◌, ◌-◌, IfSome, Some, is_some, option_map};
ghost use Rattle.std.specs.FinMap.{get as at};
ghost use Rattle.srv_session.specs.State.{is_due, is_window_open};
ghost use Rattle.srv_session.specs.Steps.{with_sent};

use crate::asking::type_on;
use crate::session::{Session, discard};
use chan_table::{Ask, Table};
use desk_api::{Channel, Desk, Sub};
use mon_queue::Update;
use mon_window::Window;
use pva_messages::write_monitor_update;
use pvd_type::{NoMemory, PvType};

/// Whether one more update may be sent.
fn is_open(window: Option<Window>) -> bool
    ensures { result ≡ is_window_open window }
{
    match window {
        Some(mut copy) => copy.take(),
        None => true,
    }
}

/// The subscription of a request that is a monitor which is started and may be sent an update.
fn due_sub(ask: &Ask<Sub>) -> Option<&Sub>
    ensures due { is_some result ≡ is_due (Some ask.now) }
    ensures sub { IfSome result (λ sub. ask.now.sub ≡ Some sub.now) }
{
    let Some(sub) = &ask.sub else {
        return None;
    };
    if !ask.started {
        return None;
    }
    if is_open(ask.window) { Some(sub) } else { None }
}

/// The window once an update was sent.
fn spent(window: Option<Window>) -> Option<Window>
    ensures { result ≡ option_map (λ free. free - 1) window }
{
    match window {
        Some(mut copy) => {
            copy.take();
            Some(copy)
        }
        None => None,
    }
}

/// Takes one update out of the window of a monitor.
fn spend_in(table: &mut Table<Channel, Sub>, req: u32)
    ensures asks { table.new.asks ≡ with_sent req (at table.old.asks req) table.old.asks }
    ensures channels { table.new.channels ≡ table.old.channels }
{
    if let Some(ask) = table.ask_mut(req) {
        ask.window = spent(ask.window);
    }
}

impl Session {
    ghost use Rattle.std.specs.Prelude.{◌≡◌, ◌++◌, OnOk, OnErr};
    ghost use Rattle.std.specs.FinMap.{get as at};
    ghost use Rattle.mon_queue.specs.Told.{IsUpdateOf};
    ghost use Rattle.srv_session.specs.State.{slots_of};
    ghost use Rattle.srv_session.specs.Calls.{AreLiving, Holds, IsOf, Pumps};
    ghost use Rattle.srv_session.specs.Replies.{said, updated};
    ghost use Rattle.srv_session.specs.Steps.{with_sent};
    ghost use Rattle.srv_session.specs.Views.{state_of, output_of, show, HasSaid};
    ghost use Rattle.srv_session.specs.Watching.{PopsDue, SendsUpdate};

    /// Adds an update of a monitor: what changed, and of that what changed more than once since the update before it (the
    /// overrun bit set).
    fn say_update(&mut self, req: u32, ty: &PvType, update: &Update) -> Result<(), NoMemory>
        requires { IsUpdateOf ty.now update.now }
        ensures state { state_of self.new ≡ state_of self.old }
        ensures table { self.new.table ≡ self.old.table }
        ensures monitors { self.new.monitors ≡ self.old.monitors }
        ensures ok { OnOk result (HasSaid self.old self.new (said (updated req ty.now update.now))) }
        ensures err { OnErr result (output_of self.new ≡ output_of self.old) }
    {
        write_monitor_update(
            &mut self.output,
            self.order,
            self.segment,
            req,
            ty,
            &update.changed,
            update.value.value(),
            &update.overrun,
        )
    }

    /// Takes one update out of the window of a monitor.
    fn spend(&mut self, req: u32)
        ensures state { state_of self.new ≡ record (state_of self.old) {
          requests = with_sent req (at (state_of self.old).requests req) (state_of self.old).requests;
        } }
        ensures monitors { self.new.monitors ≡ self.old.monitors }
        ensures output { output_of self.new ≡ output_of self.old }
    {
        spend_in(&mut self.table, req);
    }

    /// Sends an update of the monitor of this id.
    fn send(&mut self, req: u32, ty: &PvType, update: Update) -> Result<(), NoMemory>
        requires { IsUpdateOf ty.now update }
        ensures sends { SendsUpdate self.old self.new req ty.now update result }
        ensures monitors { self.new.monitors ≡ self.old.monitors }
    {
        let written = self.say_update(req, ty, &update);
        discard(update);
        written?;
        self.spend(req);
        Ok(())
    }

    /// Pops the monitor of this id, if it is due, and sends the update that was unread, if there was one. It says whether one was
    /// sent, here or before. `near` helps to find its request ([`Table::ask_near`]); the channel is looked up for an update alone.
    fn pop_due<D: Desk>(
        &mut self,
        near: &mut usize,
        req: u32,
        sent: bool,
        desk: &mut D,
    ) -> Result<bool, NoMemory>
        requires site { IsOf (D.seat desk.old).seen.base.site (state_of self.old) }
        requires holds { Holds (D.seat desk.old).log (state_of self.old) }
        ensures { PopsDue (D.seat desk.old) (D.seat desk.new) self.old self.new req sent result }
    {
        let Some(ask) = self.table.ask_near(near, req) else {
            return Ok(sent);
        };
        let Some(sub) = due_sub(ask) else {
            return Ok(sent);
        };
        let Some(update) = desk.pop(sub) else {
            return Ok(sent);
        };
        let Some(channel) = self.channel_at(ask.sid) else {
            unreachable!();
        };
        self.send(req, type_on(desk, channel), update)?;
        Ok(true)
    }

    /// Pops each started monitor whose window is open once, by the rising ids of their requests, and adds the updates. It says
    /// whether there was one; where there was, more may be unread. It takes time for the monitors alone.
    ///
    /// What a monitor shows: its first update has all leaves that it asked for, as they were when it began. A later one has the
    /// leaves that changed since, as the newest change left them; those that were posted more than once since the update before
    /// it are marked as overrun. All updates of a monitor, sent and still queued, laid over one another, are each leaf as it was
    /// posted last.
    ///
    /// An `Err` comes where an update that was popped can't be added, and the monitors behind it aren't popped then.
    pub fn pump<D: Desk>(&mut self, desk: &mut D) -> Result<bool, NoMemory>
        requires site { IsOf (D.seat desk.old).seen.base.site (state_of self.old) }
        requires holds { Holds (D.seat desk.old).log (state_of self.old) }
        ensures pumps { Pumps (show (D.seat desk.old) self.old) (show (D.seat desk.new) self.new) result }
        ensures site { OnOk result (IsOf (D.seat desk.new).seen.base.site (state_of self.new)) }
        ensures holds { OnOk result (Holds (D.seat desk.new).log (state_of self.new)) }
        ensures living { AreLiving (D.seat desk.new).log (slots_of (state_of self.new).requests) }
    {
        desk.has_legal_history();
        let mut sent = false;
        // the requests of monitors are met in the order in which the table has them
        let mut near = 0;
        let count = self.monitors.len();
        for i in 0..count {
            let req = self.monitors[i];
            let Ok(more) = self.pop_due(&mut near, req, sent, desk) else {
                return Err(NoMemory);
            };
            sent = more;
        }
        Ok(sent)
    }
}
