// Puts (pvAccess Protocol Specification, "Channel Put").
ghost use Rattle.std.specs.Prelude.{◌≡◌};
ghost use Rattle.srv_session.specs.Rows.{refusal_text};
ghost use Rattle.srv_session.specs.Views.{IsProblem};

use crate::asking::type_on;
use crate::handling::stopping;
use crate::requests::Found;
use crate::session::{Session, discard};
use crate::stop::SessionStop;
use crate::subcommand::asks_back;
use chan_table::AskKind;
use desk_api::{Desk, Done, Moment, PutAnswer, PutRefusal};
use pva_frames::Lent;
use pva_messages::{begins, read_request_part};
use pvd_type::{BitSet, NoMemory, PvType};
use pvd_value::PvValue;
use std::alloc::Global;

/// Where the part of a put stands in its payload: behind two ids and the subcommand.
const PART_PLACE: usize = 9;

/// Why a put was refused, in words.
fn refusal_text(refusal: PutRefusal) -> &'static str
    ensures { result.now ≡ refusal_text refusal }
{
    match refusal {
        PutRefusal::IndexOutside => "index outside the choices",
        PutRefusal::TextTooLong => "text too long",
        PutRefusal::TooManyElements => "too many elements",
        PutRefusal::Disabled => "puts are disabled",
        PutRefusal::NothingWritable => "nothing writable",
    }
}

/// What a put's client is told: nothing where it was done, else the text of the problem. Where memory ran out nothing is said.
pub(crate) fn problem_of(answer: Result<Done, PutAnswer>) -> Result<Option<&'static str>, NoMemory>
    ensures { IsProblem answer result }
{
    match answer {
        Ok(_) => Ok(None),
        Err(PutAnswer::Refused(refusal)) => Ok(Some(refusal_text(refusal))),
        Err(PutAnswer::JournalFull { .. }) => Ok(Some("journal full")),
        Err(PutAnswer::NoMemory { .. }) => Err(NoMemory),
    }
}

impl Session {
    ghost use Rattle.std.specs.Prelude.{◌≤◌, IfSome, true, false, length};
    ghost use Rattle.pvd_value.specs.Fits.{fits_of};
    ghost use Rattle.pvd_value.specs.View.{view};
    ghost use Rattle.pva_frames.specs.LentView.{whole_of};
    ghost use Rattle.pva_messages.specs.Requests.{part_place};
    ghost use Rattle.pva_messages.specs.Subcommands.{asks_back, begins};
    ghost use Rattle.pva_messages.specs.Views.{valued_view};
    ghost use Rattle.desk_api.specs.Types.{type_of, HoldsLeaves};
    ghost use Rattle.srv_session.specs.Calls.{IsOf};
    ghost use Rattle.srv_session.specs.Tasks.{heard_put};
    ghost use Rattle.srv_session.specs.Views.{state_of, HeedsHearing, IsThere, PutsPart, PutsTo};

    /// Answers a message of the command Put.
    pub(crate) fn answer_put<D: Desk>(
        &mut self,
        alloc: Global,
        message: &Lent<'_>,
        sid: u32,
        req: u32,
        sub: u8,
        request: &Option<(PvType, PvValue)>,
        desk: &mut D,
        moment: Moment,
    ) -> Result<(), SessionStop>
        requires site { IsOf (D.seat desk.old).seen.base.site (state_of self.old) }
        requires fits { begins sub ≡ true → IfSome request.now (λ r. fits_of 16 (view r.1) r.0 ≡ true) }
        requires place { part_place ≤ length message.now.payload.now }
        ensures { HeedsHearing (D.seat desk.old) (D.seat desk.new) self.old self.new moment (heard_put (D.seat desk.old).seen.base.site (state_of self.old) (whole_of message.now) (state_of self.old).types sid req sub (valued_view request.now)) result }
    {
        desk.has_legal_history();
        if begins(sub) {
            return stopping(self.begin(alloc, AskKind::Put, sid, req, sub, request, desk));
        }
        if asks_back(sub) {
            return stopping(self.get(alloc, AskKind::Put, sid, req, sub, desk));
        }
        match self.find(AskKind::Put, sid, req) {
            Ok(found) => self.put_part(alloc, false, message, sid, req, sub, found, desk, moment),
            Err(text) => stopping(self.refuse(AskKind::Put, req, sub, text)),
        }
    }

    /// Reads the part of a put, which was left unread, and puts it; and then gets, of a put-get.
    pub(crate) fn put_part<D: Desk>(
        &mut self,
        alloc: Global,
        gets: bool,
        message: &Lent<'_>,
        sid: u32,
        req: u32,
        sub: u8,
        found: Found,
        desk: &mut D,
        moment: Moment,
    ) -> Result<(), SessionStop>
        requires site { IsOf (D.seat desk.old).seen.base.site (state_of self.old) }
        requires there { IsThere (state_of self.old) sid req found }
        requires sub { begins sub ≡ false }
        requires plain { asks_back sub ≡ false }
        requires place { part_place ≤ length message.now.payload.now }
        ensures { PutsPart gets (D.seat desk.old) (D.seat desk.new) self.old self.new moment (whole_of message.now) sid req sub found result }
    {
        desk.has_legal_history();
        let ty = type_on(desk, found.channel);
        let part = read_request_part(
            alloc,
            message.order,
            message.command,
            message.payload,
            PART_PLACE,
            &mut self.types,
            ty,
        )?;
        let answer = self.put_as(
            alloc, gets, sid, req, sub, found, &part.0, &part.1, desk, moment,
        );
        discard(part);
        stopping(answer)
    }

    /// Puts the marked leaves of a value at this moment, and then gets, of a put-get.
    fn put_as<D: Desk>(
        &mut self,
        alloc: Global,
        gets: bool,
        sid: u32,
        req: u32,
        sub: u8,
        found: Found,
        mask: &BitSet,
        value: &PvValue,
        desk: &mut D,
        moment: Moment,
    ) -> Result<(), NoMemory>
        requires site { IsOf (D.seat desk.old).seen.base.site (state_of self.old) }
        requires there { IsThere (state_of self.old) sid req found }
        requires sub { begins sub ≡ false }
        requires plain { asks_back sub ≡ false }
        requires fits { fits_of 16 (view value.now) (type_of (D.seat desk.old).seen.base.site found.channel) ≡ true }
        requires leaves { HoldsLeaves (type_of (D.seat desk.old).seen.base.site found.channel) mask.now }
        ensures { PutsTo gets (D.seat desk.old) (D.seat desk.new) self.old self.new moment sid req sub found mask.now (view value.now) result }
    {
        if gets {
            return self.put_get(alloc, sid, req, sub, found, mask, value, desk, moment);
        }
        self.put(alloc, sid, req, sub, found, mask, value, desk, moment)
    }

    /// Puts the marked leaves of a value at this moment.
    fn put<D: Desk>(
        &mut self,
        alloc: Global,
        sid: u32,
        req: u32,
        sub: u8,
        found: Found,
        mask: &BitSet,
        value: &PvValue,
        desk: &mut D,
        moment: Moment,
    ) -> Result<(), NoMemory>
        requires site { IsOf (D.seat desk.old).seen.base.site (state_of self.old) }
        requires there { IsThere (state_of self.old) sid req found }
        requires sub { begins sub ≡ false }
        requires plain { asks_back sub ≡ false }
        requires fits { fits_of 16 (view value.now) (type_of (D.seat desk.old).seen.base.site found.channel) ≡ true }
        requires leaves { HoldsLeaves (type_of (D.seat desk.old).seen.base.site found.channel) mask.now }
        ensures { PutsTo false (D.seat desk.old) (D.seat desk.new) self.old self.new moment sid req sub found mask.now (view value.now) result }
    {
        let answer = desk.put(alloc, found.channel, mask, value, moment, found.atomic);
        let problem = problem_of(answer)?;
        self.say_outcome(AskKind::Put, req, sub, problem)
    }
}
