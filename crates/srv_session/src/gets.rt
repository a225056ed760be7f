// Gets, and what a put's request gets (pvAccess Protocol Specification, "Channel Get" and "Channel Put").
use crate::asking::type_on;
use crate::requests::Found;
use crate::session::{Session, discard};
use chan_table::AskKind;
use desk_api::Desk;
use pva_messages::begins;
use pvd_type::{NoMemory, PvType};
use pvd_value::PvValue;
use std::alloc::Global;

impl Session {
    ghost use Rattle.std.specs.Prelude.{◌≡◌, IfSome, Some, true, false};
    ghost use Rattle.std.specs.FinMap.{get as at};
    ghost use Rattle.pvd_value.specs.Fits.{fits_of};
    ghost use Rattle.pvd_value.specs.View.{view};
    ghost use Rattle.pva_messages.specs.Views.{valued_view};
    ghost use Rattle.pva_messages.specs.Subcommands.{begins};
    ghost use Rattle.srv_session.specs.Calls.{IsOf};
    ghost use Rattle.srv_session.specs.Replies.{got, said};
    ghost use Rattle.srv_session.specs.State.{Asked};
    ghost use Rattle.srv_session.specs.Tasks.{asked_get, getting, found_for};
    ghost use Rattle.srv_session.specs.Views.{state_of, AnswersAnytime, HasPart, HasSelected, IsThere, GetsFrom, RepliesWith};

    /// Answers a message of the command Get.
    pub(crate) fn answer_get<D: Desk>(
        &mut self,
        alloc: Global,
        sid: u32,
        req: u32,
        sub: u8,
        request: &Option<(PvType, PvValue)>,
        desk: &mut D,
    ) -> Result<(), NoMemory>
        requires site { IsOf (D.seat desk.old).seen.base.site (state_of self.old) }
        requires fits { begins sub ≡ true → IfSome request.now (λ r. fits_of 16 (view r.1) r.0 ≡ true) }
        ensures { AnswersAnytime (D.seat desk.old) (D.seat desk.new) self.old self.new (asked_get (D.seat desk.old).seen.base.site (state_of self.old) sid req sub (valued_view request.now)) result }
    {
        desk.has_legal_history();
        if begins(sub) {
            return self.begin(alloc, AskKind::Get, sid, req, sub, request, desk);
        }
        self.get(alloc, AskKind::Get, sid, req, sub, desk)
    }

    /// Gets from the channel of a request, which began by a message of this kind.
    pub(crate) fn get<D: Desk>(
        &mut self,
        alloc: Global,
        kind: AskKind,
        sid: u32,
        req: u32,
        sub: u8,
        desk: &mut D,
    ) -> Result<(), NoMemory>
        requires site { IsOf (D.seat desk.old).seen.base.site (state_of self.old) }
        requires kind { HasPart kind sub }
        requires sub { begins sub ≡ false }
        ensures { AnswersAnytime (D.seat desk.old) (D.seat desk.new) self.old self.new (getting kind req sub (found_for (state_of self.old) kind sid req)) result }
    {
        desk.has_legal_history();
        match self.find(kind, sid, req) {
            Ok(found) => self.get_from(alloc, kind, sid, req, sub, found, desk),
            Err(text) => self.refuse(kind, req, sub, text),
        }
    }

    /// Gets the leaves that the request of this id selected.
    fn get_from<D: Desk>(
        &mut self,
        alloc: Global,
        kind: AskKind,
        sid: u32,
        req: u32,
        sub: u8,
        found: Found,
        desk: &mut D,
    ) -> Result<(), NoMemory>
        requires site { IsOf (D.seat desk.old).seen.base.site (state_of self.old) }
        requires there { IsThere (state_of self.old) sid req found }
        requires kind { HasPart kind sub }
        requires sub { begins sub ≡ false }
        ensures { GetsFrom (D.seat desk.old) (D.seat desk.new) self.old self.new kind sid req sub found result }
    {
        let value = desk.get(alloc, found.channel, found.atomic)?;
        let ty = type_on(desk, found.channel);
        self.say_got(kind, req, sub, ty, value)
    }

    /// Answers with the leaves of this value that the request of this id selected. Bit 10 then ends the request.
    pub(crate) fn say_got(
        &mut self,
        kind: AskKind,
        req: u32,
        sub: u8,
        ty: &PvType,
        value: PvValue,
    ) -> Result<(), NoMemory>
        requires there { HasSelected (state_of self.old) req ty.now }
        requires kind { HasPart kind sub }
        requires sub { begins sub ≡ false }
        requires fits { fits_of 16 (view value) ty.now ≡ true }
        ensures { (ask : Asked) → at (state_of self.old).requests req ≡ Some ask → RepliesWith self.old self.new req sub (said (got kind req sub ty.now ask.mask (view value))) result }
    {
        let written = self.say_selected(kind, req, sub, ty, &value);
        discard(value);
        written?;
        self.end_behind(req, sub);
        Ok(())
    }
}
