// Put-gets (pvAccess Protocol Specification, "Channel put-get").
ghost use Rattle.std.specs.Prelude.{◌≡◌, ◌||◌, false, true};
ghost use Rattle.pvd_value.specs.Fits.{fits_of};
ghost use Rattle.pvd_value.specs.View.{view};
ghost use Rattle.pva_messages.specs.Subcommands.{asks_back, begins, counts};
ghost use Rattle.desk_api.specs.Types.{HoldsLeaves};

use crate::asking::type_on;
use crate::handling::stopping;
use crate::puts::problem_of;
use crate::requests::Found;
use crate::session::Session;
use crate::stop::SessionStop;
use crate::subcommand::{asks_back, counts};
use chan_table::AskKind;
use desk_api::{Desk, Moment};
use pva_frames::Lent;
use pva_messages::begins;
use pvd_type::{BitSet, NoMemory, PvType};
use pvd_value::PvValue;
use std::alloc::Global;

/// Whether a put-get has one of the bits 40 and 80, which it can't have.
fn is_unsupported(sub: u8) -> bool
    ensures { result ≡ asks_back sub || counts sub }
{
    asks_back(sub) || counts(sub)
}

impl Session {
    ghost use Rattle.std.specs.Prelude.{◌≤◌, IfSome, length, Ok, codes};
    ghost use Rattle.pva_frames.specs.LentView.{whole_of};
    ghost use Rattle.pva_messages.specs.Requests.{part_place};
    ghost use Rattle.pva_messages.specs.Views.{valued_view};
    ghost use Rattle.desk_api.specs.Types.{type_of};
    ghost use Rattle.srv_session.specs.Calls.{IsOf};
    ghost use Rattle.srv_session.specs.Replies.{is_call, refused};
    ghost use Rattle.srv_session.specs.Tasks as task;
    ghost use Rattle.srv_session.specs.Tasks.{heard_put_get};
    ghost use Rattle.srv_session.specs.Views.{state_of, AnswersAlone, HeedsHearing, IsThere, MayRefuse, PutGetsPart, PutsTo};

    /// Answers a message of the command PutGet.
    pub(crate) fn answer_put_get<D: Desk>(
        &mut self,
        alloc: Global,
        message: &Lent<'_>,
        sid: u32,
        req: u32,
        sub: u8,
        request: &Option<(PvType, PvValue)>,
        desk: &mut D,
        moment: Moment,
    ) -> Result<(), SessionStop>
        requires site { IsOf (D.seat desk.old).seen.base.site (state_of self.old) }
        requires fits { begins sub ≡ true → IfSome request.now (λ r. fits_of 16 (view r.1) r.0 ≡ true) }
        requires place { part_place ≤ length message.now.payload.now }
        ensures { HeedsHearing (D.seat desk.old) (D.seat desk.new) self.old self.new moment (heard_put_get (D.seat desk.old).seen.base.site (state_of self.old) (whole_of message.now) (state_of self.old).types sid req sub (valued_view request.now)) result }
    {
        desk.has_legal_history();
        if begins(sub) {
            return stopping(self.begin(alloc, AskKind::PutGet, sid, req, sub, request, desk));
        }
        match self.find(AskKind::PutGet, sid, req) {
            Ok(found) => self.put_get_part(alloc, message, sid, req, sub, found, desk, moment),
            Err(text) => stopping(self.refuse(AskKind::PutGet, req, sub, text)),
        }
    }

    /// Refuses the bits 40 and 80, or reads the part of a put-get and does it.
    fn put_get_part<D: Desk>(
        &mut self,
        alloc: Global,
        message: &Lent<'_>,
        sid: u32,
        req: u32,
        sub: u8,
        found: Found,
        desk: &mut D,
        moment: Moment,
    ) -> Result<(), SessionStop>
        requires site { IsOf (D.seat desk.old).seen.base.site (state_of self.old) }
        requires there { IsThere (state_of self.old) sid req found }
        requires sub { begins sub ≡ false }
        requires place { part_place ≤ length message.now.payload.now }
        ensures { PutGetsPart (D.seat desk.old) (D.seat desk.new) self.old self.new moment (whole_of message.now) sid req sub found result }
    {
        desk.has_legal_history();
        if is_unsupported(sub) {
            return stopping(self.refuse_behind(
                AskKind::PutGet,
                req,
                sub,
                "unsupported subcommand",
            ));
        }
        self.put_part(alloc, true, message, sid, req, sub, found, desk, moment)
    }

    /// Says why what a request is asked is refused. Bit 10 ends the request all the same.
    pub(crate) fn refuse_behind(
        &mut self,
        kind: AskKind,
        req: u32,
        sub: u8,
        text: &str,
    ) -> Result<(), NoMemory>
        requires { MayRefuse kind sub }
        ensures { AnswersAlone self.old self.new (task.respond req sub (refused kind req sub text.now)) result }
    {
        self.say_outcome(kind, req, sub, Some(text))
    }

    /// Puts the marked leaves of a value at this moment, and then gets the leaves that the request of this id selected.
    pub(crate) fn put_get<D: Desk>(
        &mut self,
        alloc: Global,
        sid: u32,
        req: u32,
        sub: u8,
        found: Found,
        mask: &BitSet,
        value: &PvValue,
        desk: &mut D,
        moment: Moment,
    ) -> Result<(), NoMemory>
        requires site { IsOf (D.seat desk.old).seen.base.site (state_of self.old) }
        requires there { IsThere (state_of self.old) sid req found }
        requires sub { begins sub ≡ false }
        requires fits { fits_of 16 (view value.now) (type_of (D.seat desk.old).seen.base.site found.channel) ≡ true }
        requires leaves { HoldsLeaves (type_of (D.seat desk.old).seen.base.site found.channel) mask.now }
        ensures { PutsTo true (D.seat desk.old) (D.seat desk.new) self.old self.new moment sid req sub found mask.now (view value.now) result }
    {
        match desk.put_get(alloc, found.channel, mask, value, moment, found.atomic) {
            Ok(done) => {
                let ty = type_on(desk, found.channel);
                self.say_got(AskKind::PutGet, req, sub, ty, done.1)
            }
            Err(answer) => {
                let problem = problem_of(Err(answer))?;
                self.say_outcome(AskKind::PutGet, req, sub, problem)
            }
        }
    }
}
