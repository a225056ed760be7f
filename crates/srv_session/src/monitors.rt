// Monitors that begin and are steered (pvAccess Protocol Specification, "Channel Monitor").
ghost use Rattle.std.specs.Prelude.{◌≡◌, IfOk, is_err};
ghost use Rattle.std.specs.FinMap.{get as at};
ghost use Rattle.srv_session.specs.Tasks.{acknowledged, is_over};
ghost use Rattle.srv_session.specs.Watching.{with_steered};

use crate::asking::{root_for, type_on, unfit};
use crate::handling::stopping;
use crate::listing::{list, make_room};
use crate::session::Session;
use crate::stop::SessionStop;
use crate::subcommand::{ends, started_by};
use chan_table::{Ask, AskKind, Table};
use desk_api::{Channel, Desk, Sub, SubAnswer};
use mon_window::{Window, WindowFault};
use pva_messages::begins;
use pvd_request::{Request, read_request};
use pvd_type::{NoMemory, PvType};
use pvd_value::PvValue;
use std::alloc::Global;

/// What a message says that begins a monitor, beside its request structure: the channel's id, the request's, the subcommand, and the
/// first window of a pipelined one.
#[derive(Clone, Copy)]
struct Beginning {
    sid: u32,
    req: u32,
    sub: u8,
    count: Option<u32>,
}

/// The window of a monitor that would begin; a monitor whose message has no count has none.
fn first_window(count: Option<u32>) -> Result<Option<Window>, WindowFault>
    ensures ok { IfOk result (λ window. window ≡ count) }
    ensures over { is_err result ≡ is_over count }
{
    match count {
        Some(free) => Ok(Some(Window::start(free)?)),
        None => Ok(None),
    }
}

/// The window once so many updates more are acknowledged.
fn acknowledged(window: Option<Window>, count: Option<u32>) -> Result<Option<Window>, WindowFault>
    ensures ok { IfOk result (λ new. new ≡ acknowledged count window) }
    ensures over { is_err result ≡ is_over (acknowledged count window) }
{
    let Some(count) = count else {
        return Ok(window);
    };
    let Some(mut window) = window else {
        return Ok(None);
    };
    window.acknowledge(count)?;
    Ok(Some(window))
}

/// A monitor has this window now, and is started as the subcommand says.
fn steer_in(table: &mut Table<Channel, Sub>, req: u32, sub: u8, window: Option<Window>)
    ensures asks { table.new.asks ≡ with_steered req sub window (at table.old.asks req) table.old.asks }
    ensures channels { table.new.channels ≡ table.old.channels }
{
    if let Some(ask) = table.ask_mut(req) {
        ask.window = window;
        ask.started = started_by(sub, ask.started);
    }
}

/// The subcommand of the reply that begins a monitor: bit 08 alone, whatever others its message had (pvAccess Protocol Specification,
/// "Channel Monitor").
const BEGINS_ALONE: u8 = 0x08;

impl Session {
    ghost use Rattle.std.specs.Prelude.{◌≡◌, ◌<◌, ◌≤◌, true, IfSome, IsTrue, OnOk, Some, vec_len, vec_capacity};
    ghost use Rattle.std.specs.FinMap.{get as at, insert};
    ghost use Rattle.chan_table.specs.Tables.{IsReady};
    ghost use Rattle.chan_table.specs.declared.ask.AskKind.TheVariants as kinds;
    ghost use Rattle.desk_api.specs.Sites.{is_channel, has_values};
    ghost use Rattle.desk_api.specs.Types.{type_of, HoldsLeaves};
    ghost use Rattle.pva_messages.specs.Subcommands.{begins};
    ghost use Rattle.pva_messages.specs.Views.{valued_view};
    ghost use Rattle.pvd_value.specs.Fits.{fits_of};
    ghost use Rattle.pvd_value.specs.View.{view};
    ghost use Rattle.srv_session.specs.State.{Asked, channel_at};
    ghost use Rattle.srv_session.specs.Calls.{IsOf, Holds};
    ghost use Rattle.srv_session.specs.Rows.{monitor_of};
    ghost use Rattle.srv_session.specs.Tasks as task;
    ghost use Rattle.srv_session.specs.Tasks.{asks, beginning, beginning_as, beginning_on, heard_monitor, steering, unfit, wanted_for, windowed};
    ghost use Rattle.srv_session.specs.Views.{state_of, output_of};
    ghost use Rattle.srv_session.specs.Watching.{HeedsAnytime, RefusesSubscription};

    /// Answers a message of the command Monitor: it begins a monitor, or steers one that began.
    pub(crate) fn answer_monitor<D: Desk>(
        &mut self,
        alloc: Global,
        sid: u32,
        req: u32,
        sub: u8,
        request: &Option<(PvType, PvValue)>,
        count: Option<u32>,
        desk: &mut D,
    ) -> Result<(), SessionStop>
        requires site { IsOf (D.seat desk.old).seen.base.site (state_of self.old) }
        requires holds { Holds (D.seat desk.old).log (state_of self.old) }
        requires fits { begins sub ≡ true → IfSome request.now (λ r. fits_of 16 (view r.1) r.0 ≡ true) }
        ensures { HeedsAnytime (D.seat desk.old) (D.seat desk.new) self.old self.new (heard_monitor (D.seat desk.old).seen.base.site (state_of self.old) (state_of self.old).types sid req sub (valued_view request.now) count) result }
    {
        desk.has_legal_history();
        if begins(sub) {
            let asked = Beginning {
                sid,
                req,
                sub,
                count,
            };
            return self.begin_monitor(alloc, asked, request, desk);
        }
        match self.find(AskKind::Monitor, sid, req) {
            Ok(_found) => self.steer(req, sub, count, desk),
            Err(_text) => stopping(self.pass_over()),
        }
    }

    /// Begins a monitor on the channel that is open under this id.
    fn begin_monitor<D: Desk>(
        &mut self,
        alloc: Global,
        asked: Beginning,
        request: &Option<(PvType, PvValue)>,
        desk: &mut D,
    ) -> Result<(), SessionStop>
        requires site { IsOf (D.seat desk.old).seen.base.site (state_of self.old) }
        requires fits { IfSome request.now (λ r. fits_of 16 (view r.1) r.0 ≡ true) }
        requires begins { begins asked.sub ≡ true }
        ensures { HeedsAnytime (D.seat desk.old) (D.seat desk.new) self.old self.new
            (windowed (state_of self.old).types asked.count
            (beginning (D.seat desk.old).seen.base.site (state_of self.old) kinds.Monitor asked.req asked.sub asked.sid
            (valued_view request.now) (channel_at (state_of self.old).channels asked.sid))) result }
    {
        desk.has_legal_history();
        let Some(channel) = self.channel_at(asked.sid) else {
            return stopping(self.refuse_channel(AskKind::Monitor, asked.req, asked.sub));
        };
        match self.make_room(asked.req) {
            Ok(()) => self.begin_monitor_on(alloc, channel, asked, request, desk),
            Err(answer) => {
                stopping(self.refuse_place(AskKind::Monitor, asked.req, asked.sub, answer))
            }
        }
    }

    /// Begins a monitor on this channel; there is room for its request.
    fn begin_monitor_on<D: Desk>(
        &mut self,
        alloc: Global,
        channel: Channel,
        asked: Beginning,
        request: &Option<(PvType, PvValue)>,
        desk: &mut D,
    ) -> Result<(), SessionStop>
        requires channel { IsTrue (is_channel (D.seat desk.old).seen.base.site channel) }
        requires room { IsReady self.old.table asked.req }
        requires fits { IfSome request.now (λ r. fits_of 16 (view r.1) r.0 ≡ true) }
        requires begins { begins asked.sub ≡ true }
        ensures { HeedsAnytime (D.seat desk.old) (D.seat desk.new) self.old self.new
            (windowed (state_of self.old).types asked.count
            (beginning_on (D.seat desk.old).seen.base.site kinds.Monitor asked.req asked.sub asked.sid
            (valued_view request.now) channel (unfit kinds.Monitor channel))) result }
    {
        desk.has_legal_history();
        match unfit(AskKind::Monitor, channel) {
            Some(text) => stopping(self.refuse(AskKind::Monitor, asked.req, asked.sub, text)),
            None => self.begin_watching(alloc, channel, asked, request, desk),
        }
    }

    /// Begins a monitor on this channel, which has values.
    fn begin_watching<D: Desk>(
        &mut self,
        alloc: Global,
        channel: Channel,
        asked: Beginning,
        request: &Option<(PvType, PvValue)>,
        desk: &mut D,
    ) -> Result<(), SessionStop>
        requires channel { IsTrue (is_channel (D.seat desk.old).seen.base.site channel) }
        requires valued { IsTrue (has_values channel) }
        requires room { IsReady self.old.table asked.req }
        requires fits { IfSome request.now (λ r. fits_of 16 (view r.1) r.0 ≡ true) }
        requires begins { begins asked.sub ≡ true }
        ensures { HeedsAnytime (D.seat desk.old) (D.seat desk.new) self.old self.new
            (windowed (state_of self.old).types asked.count
            (beginning_as kinds.Monitor asked.req asked.sub asked.sid channel
            (wanted_for kinds.Monitor (type_of (D.seat desk.old).seen.base.site channel) (valued_view request.now)))) result }
    {
        desk.has_legal_history();
        let ty = type_on(desk, channel);
        match read_request(alloc, ty, request.as_ref(), root_for(AskKind::Monitor)) {
            Ok(wanted) => self.begin_windowed(alloc, channel, asked, wanted, desk),
            Err(fault) => stopping(self.refuse_fault(
                alloc,
                AskKind::Monitor,
                asked.req,
                asked.sub,
                &fault,
            )),
        }
    }

    /// Begins a monitor for this, unless its first count is too great.
    fn begin_windowed<D: Desk>(
        &mut self,
        alloc: Global,
        channel: Channel,
        asked: Beginning,
        wanted: Request,
        desk: &mut D,
    ) -> Result<(), SessionStop>
        requires channel { IsTrue (is_channel (D.seat desk.old).seen.base.site channel) }
        requires valued { IsTrue (has_values channel) }
        requires room { IsReady self.old.table asked.req }
        requires leaves { HoldsLeaves (type_of (D.seat desk.old).seen.base.site channel) wanted.mask }
        requires size { (1 ≤ wanted.queue) × (wanted.queue ≤ 64) }
        requires begins { begins asked.sub ≡ true }
        ensures { HeedsAnytime (D.seat desk.old) (D.seat desk.new) self.old self.new
            (windowed (state_of self.old).types asked.count
            (task.begin kinds.Monitor asked.req asked.sub asked.sid channel wanted)) result }
    {
        desk.has_legal_history();
        match first_window(asked.count) {
            Ok(window) => self.subscribe(alloc, channel, asked, wanted, window, desk),
            Err(fault) => Err(SessionStop::Window(fault)),
        }
    }

    /// Subscribes to what is wanted of a channel.
    fn subscribe<D: Desk>(
        &mut self,
        alloc: Global,
        channel: Channel,
        asked: Beginning,
        wanted: Request,
        window: Option<Window>,
        desk: &mut D,
    ) -> Result<(), SessionStop>
        requires channel { IsTrue (is_channel (D.seat desk.old).seen.base.site channel) }
        requires valued { IsTrue (has_values channel) }
        requires room { IsReady self.old.table asked.req }
        requires leaves { HoldsLeaves (type_of (D.seat desk.old).seen.base.site channel) wanted.mask }
        requires size { (1 ≤ wanted.queue) × (wanted.queue ≤ 64) }
        requires begins { begins asked.sub ≡ true }
        ensures { HeedsAnytime (D.seat desk.old) (D.seat desk.new) self.old self.new
            (asks (task.subscribe asked.req asked.sub asked.sid channel wanted window) (state_of self.old).types) result }
    {
        desk.has_legal_history();
        let Ok(()) = self.make_monitor_room() else {
            return Err(SessionStop::NoMemory);
        };
        match desk.subscribe(alloc, channel, &wanted.mask, wanted.queue) {
            Ok(living) => {
                self.add_monitor(asked.sid, asked.req, wanted, window, living);
                stopping(self.say_begun(
                    AskKind::Monitor,
                    asked.req,
                    BEGINS_ALONE,
                    type_on(desk, channel),
                ))
            }
            Err(answer) => stopping(self.refuse_subscription(asked.req, asked.sub, answer)),
        }
    }

    /// Takes the memory for the id of one monitor more.
    fn make_monitor_room(&mut self) -> Result<(), NoMemory>
        ensures state { state_of self.new ≡ state_of self.old }
        ensures output { output_of self.new ≡ output_of self.old }
        ensures table { self.new.table ≡ self.old.table }
        ensures room { OnOk result (vec_len self.new.monitors < vec_capacity self.new.monitors) }
    {
        make_room(&mut self.monitors)
    }

    /// Says why no subscription began.
    fn refuse_subscription(&mut self, req: u32, sub: u8, answer: SubAnswer) -> Result<(), NoMemory>
        requires { begins sub ≡ true }
        ensures state { state_of self.new ≡ state_of self.old }
        ensures refuses { RefusesSubscription self.old self.new req sub answer result }
    {
        match answer {
            SubAnswer::TooManyMonitors(_) => {
                self.say_answer(AskKind::Monitor, req, sub, Some("too many monitors"))
            }
            SubAnswer::NoMemory => Err(NoMemory),
        }
    }

    /// Puts in a monitor with its subscription, for which there is room.
    fn add_monitor(
        &mut self,
        sid: u32,
        req: u32,
        wanted: Request,
        window: Option<Window>,
        living: Sub,
    )
        requires request { IsReady self.old.table req }
        requires monitor { vec_len self.old.monitors < vec_capacity self.old.monitors }
        ensures state { state_of self.new ≡ record (state_of self.old) { requests = insert (state_of self.old).requests req (monitor_of sid wanted living.slot window) } }
        ensures output { output_of self.new ≡ output_of self.old }
    {
        list(&mut self.monitors, req);
        let ask = Ask {
            sid,
            kind: AskKind::Monitor,
            mask: wanted.mask,
            atomic: wanted.atomic,
            sub: Some(living),
            window,
            started: false,
        };
        self.table.add(req, ask);
    }

    /// Steers the monitor of this id: acknowledges updates, starts or stops it, or ends it.
    fn steer<D: Desk>(
        &mut self,
        req: u32,
        sub: u8,
        count: Option<u32>,
        desk: &mut D,
    ) -> Result<(), SessionStop>
        requires { Holds (D.seat desk.old).log (state_of self.old) }
        ensures { (ask : Asked) → at (state_of self.old).requests req ≡ Some ask → HeedsAnytime (D.seat desk.old) (D.seat desk.new) self.old self.new (steering (state_of self.old).types req sub count ask) result }
    {
        desk.has_legal_history();
        let Ok(window) = acknowledged(self.window_of(req), count) else {
            return Err(SessionStop::Window(WindowFault::OverRange));
        };
        if ends(sub) {
            self.end_request(req, desk);
            return Ok(());
        }
        self.set_monitor(req, sub, window);
        Ok(())
    }

    /// The window of a request, if it has one.
    fn window_of(&self, req: u32) -> Option<Window>
        ensures { (ask : Asked) → at (state_of self.now).requests req ≡ Some ask → result ≡ ask.window }
    {
        match self.table.ask(req) {
            Some(ask) => ask.window,
            None => None,
        }
    }

    /// A monitor has this window now, and is started as the subcommand says.
    fn set_monitor(&mut self, req: u32, sub: u8, window: Option<Window>)
        ensures state { state_of self.new ≡ record (state_of self.old) { requests = with_steered req sub window (at (state_of self.old).requests req) (state_of self.old).requests } }
        ensures output { output_of self.new ≡ output_of self.old }
    {
        steer_in(&mut self.table, req, sub, window);
    }
}
