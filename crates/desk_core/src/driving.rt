// How an action drives the port of its record.
ghost use Rattle.std.specs.Prelude.{◌≡◌, IfOk, OnErr, option_map};
ghost use Rattle.desk_core.specs.Ports.{IsDrivenOnce, IsTried};
ghost use Rattle.rec_kinds.specs.Processing.{processed, datum_after};
ghost use Rattle.rec_kinds.specs.Texts.{text_of_datum};
ghost use Rattle.rec_kinds.specs.Validity.{IsValid, MayBeDone};

use desk_api::{Moment, NoMemory, RecState};
use pva_outside::{DriveStep, Port};
use rec_kinds::{Action, RecConfig, plain_text, process};
use std::alloc::Global;

/// Drives the port once with this text, where there is one, and tells whether it took the text (EPICS record reference,
/// "OUT"). It is true without a port. With one it is false only where the port's faults rose in this call, and true only
/// where they are as they were. It takes no memory.
pub fn drive<P: Port>(port: &mut Option<P>, text: &[u8]) -> bool
    ensures { IsDrivenOnce (option_map P.port port.old) (option_map P.port port.new) result text.now }
{
    match port {
        Some(port) => matches!(port.drive(text), DriveStep::Drove),
        None => true,
    }
}

/// Drives a record's port, where it has one, with the plain text of its new state. Without a port no text is made.
fn drive_with<P: Port>(
    alloc: Global,
    port: &mut Option<P>,
    state: &RecState,
) -> Result<bool, NoMemory>
    ensures ok { IfOk result (λ drove. IsDrivenOnce (option_map P.port port.old) (option_map P.port port.new) drove (text_of_datum state.now.datum)) }
    ensures err { OnErr result (option_map P.port port.new ≡ option_map P.port port.old) }
{
    if port.is_none() {
        return Ok(true);
    }
    let text = plain_text(alloc, state)?;
    Ok(drive(port, text.as_str().as_bytes()))
}

/// What an action did: whether the record's port took the value, and the state that it left.
#[derive(Drop)]
pub(crate) struct Outcome {
    pub(crate) drove: bool,
    pub(crate) state: RecState,
}

/// Lets a value go in a function of its own, since its parts would else be let go one by one in the caller's proof.
pub fn discard<T: Drop>(_value: T) {}

/// Does an action to a record that was in this state, and drives its port, if it has one, with the new value. Where the
/// port fails the record is processed anew, as one that wasn't driven.
pub(crate) fn do_action<P: Port>(
    alloc: Global,
    config: &RecConfig,
    old: &RecState,
    action: &Action,
    moment: Moment,
    port: &mut Option<P>,
) -> Result<Outcome, NoMemory>
    requires valid { IsValid config.now old.now }
    requires may { MayBeDone config.now action.now }
    ensures state { IfOk result (λ o. o.state ≡ processed config.now old.now action.now moment o.drove) }
    ensures driven { IfOk result (λ o. IsDrivenOnce (option_map P.port port.old) (option_map P.port port.new) o.drove (text_of_datum o.state.datum)) }
    ensures tried { OnErr result (IsTried (option_map P.port port.old) (option_map P.port port.new) (text_of_datum (datum_after config.now old.now action.now))) }
{
    let state = process(alloc, config, old, action, moment, true)?;
    let drove = drive_with(alloc, port, &state)?;
    if drove {
        return Ok(Outcome { drove, state });
    }
    discard(state);
    let state = process(alloc, config, old, action, moment, false)?;
    Ok(Outcome { drove, state })
}
