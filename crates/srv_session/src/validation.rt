// Validations (pvAccess Protocol Specification, "Connection Validation").
ghost use Rattle.std.specs.Prelude.{◌≡◌, IfOk, IfSome, option_map, true};
ghost use Rattle.pvd_value.specs.Fits.{fits_of};
ghost use Rattle.pvd_value.specs.View.{view};
ghost use Rattle.pva_messages.specs.Views.{valued_view};
ghost use Rattle.srv_session.specs.Tasks.{text_in};

use crate::session::{Session, segment_for};
use pvd_type::{Name, NoMemory, PvType};
use pvd_value::{PvValue, leaf};
use std::alloc::Global;

/// The text of a leaf of an argument.
fn text_at<'a>(argument: &'a Option<(PvType, PvValue)>, path: &str) -> Option<&'a Name>
    requires { IfSome argument.now (λ v. fits_of 16 (view v.1) v.0 ≡ true) }
    ensures { option_map (λ t. t.now) result ≡ text_in (valued_view argument.now) path.now }
{
    let (ty, value) = argument.as_ref()?;
    match leaf(value, ty, ty.number_of(path)?)? {
        PvValue::Text(text) => Some(text),
        _ => None,
    }
}

/// The same, as a text of its own.
fn text_in(
    alloc: Global,
    argument: &Option<(PvType, PvValue)>,
    path: &str,
) -> Result<Option<Name>, NoMemory>
    requires { IfSome argument.now (λ v. fits_of 16 (view v.1) v.0 ≡ true) }
    ensures { IfOk result (λ found. found ≡ text_in (valued_view argument.now) path.now) }
{
    match text_at(argument, path) {
        Some(text) => Ok(Some(text.clone_in(alloc)?)),
        None => Ok(None),
    }
}

impl Session {
    ghost use Rattle.srv_session.specs.Tasks as task;
    ghost use Rattle.srv_session.specs.Tasks.{validated_by};
    ghost use Rattle.srv_session.specs.Views.{state_of, output_of, AnswersAlone};

    /// Answers a validation. `ca` brings the client's user and host.
    pub(crate) fn validate(
        &mut self,
        alloc: Global,
        buffer: u32,
        registry: u16,
        method: &Name,
        argument: &Option<(PvType, PvValue)>,
    ) -> Result<(), NoMemory>
        requires { IfSome argument.now (λ v. fits_of 16 (view v.1) v.0 ≡ true) }
        ensures { AnswersAlone self.old self.new (validated_by buffer registry method.now (valued_view argument.now)) result }
    {
        match method.as_str() {
            "anonymous" => self.accept(buffer, registry, None, None),
            "ca" => {
                let user = text_in(alloc, argument, "user")?;
                let host = text_in(alloc, argument, "host")?;
                self.accept(buffer, registry, user, host)
            }
            _ => self.say_validated(Some("authentication not offered")),
        }
    }

    /// The client is validated from now on, with these sizes, and is this user on this host.
    fn accept(
        &mut self,
        buffer: u32,
        registry: u16,
        user: Option<Name>,
        host: Option<Name>,
    ) -> Result<(), NoMemory>
        ensures { AnswersAlone self.old self.new (task.validate buffer registry user host) result }
    {
        self.say_validated(None)?;
        self.validated = true;
        self.segment = segment_for(buffer);
        self.registry = registry;
        self.user = user;
        self.host = host;
        Ok(())
    }
}
