// The types of fields (pvAccess Protocol Specification, "Get channel type introspection data").
ghost use Rattle.std.specs.Prelude.{◌≡◌, IfOk};
ghost use Rattle.pvd_request.specs.Requests.{part_at as node_at};

use crate::asking::{has_values, type_on};
use crate::session::Session;
use desk_api::Desk;
use pvd_type::{Name, NoMemory, PvType};
use std::alloc::Global;

/// The type of the part of a type that has this path, if there is one; the empty path is the whole.
fn node_at(alloc: Global, ty: &PvType, path: &str) -> Result<Option<PvType>, NoMemory>
    ensures { IfOk result (λ node. node ≡ node_at path.now ty.now) }
{
    let _whole = ty.shape();
    let Some(number) = ty.number_of(path) else {
        return Ok(None);
    };
    let Some(shape) = ty.shape_at(number) else {
        return Ok(None);
    };
    Ok(Some(PvType::of_checked(alloc, shape.clone_in(alloc)?)?))
}

impl Session {
    ghost use Rattle.srv_session.specs.Calls.{IsOf};
    ghost use Rattle.srv_session.specs.Replies.{field_refused};
    ghost use Rattle.srv_session.specs.State.{channel_at};
    ghost use Rattle.srv_session.specs.Tasks as task;
    ghost use Rattle.srv_session.specs.Tasks.{asked_field, told_field};
    ghost use Rattle.srv_session.specs.Views.{state_of, AnswersAlone, AnswersBeside};

    /// Answers a question for the type of a field.
    pub(crate) fn answer_field<D: Desk>(
        &mut self,
        alloc: Global,
        sid: u32,
        req: u32,
        path: &Name,
        desk: &D,
    ) -> Result<(), NoMemory>
        requires { IsOf (D.seat desk.now).seen.base.site (state_of self.old) }
        ensures { AnswersBeside (D.seat desk.now) self.old self.new (asked_field (D.seat desk.now).seen.base.site req path.now (channel_at (state_of self.old).channels sid)) result }
    {
        let Some(channel) = self.channel_at(sid) else {
            return self.refuse_field(req, "unknown channel");
        };
        if !has_values(channel) {
            return self.refuse_field(req, "channel has no value");
        }
        self.tell_field(alloc, req, type_on(desk, channel), path)
    }

    /// Tells the type of a field of this type.
    fn tell_field(
        &mut self,
        alloc: Global,
        req: u32,
        ty: &PvType,
        path: &Name,
    ) -> Result<(), NoMemory>
        ensures { AnswersAlone self.old self.new (told_field req (node_at path.now ty.now)) result }
    {
        match node_at(alloc, ty, path.as_str())? {
            Some(node) => self.say_field_type(req, &node),
            None => self.refuse_field(req, "no such field"),
        }
    }

    /// Says why the type of a field isn't told.
    fn refuse_field(&mut self, req: u32, text: &str) -> Result<(), NoMemory>
        ensures { AnswersAlone self.old self.new (task.refuse (field_refused req text.now)) result }
    {
        self.say_field_refusal(req, text)
    }
}
