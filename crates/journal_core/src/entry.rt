// The entries of a history, and what they weigh.
ghost use Rattle.std.specs.Prelude.{◌≡◌, ◌<◌, ◌^◌};
ghost use Rattle.std.specs.List.{sum_by};
ghost use Rattle.journal_core.specs.Weights as weights;

use crate::few::Few;
use pvd_type::Name;
use rec_kinds::{Action, Datum, Moment, RecState};

/// One commit. Records are named by their numbers.
#[derive(Debug, Drop)]
pub struct Entry {
    /// The records that were held, each once, in rising order.
    pub footprint: Few<u32>,
    /// What was done, in order, each with its record.
    pub actions: Few<(u32, Action)>,
    /// The moment of the commit.
    pub moment: Moment,
    /// For each action, whether the record's port took the value. It is true of a record without a port.
    pub drove: Few<bool>,
    /// For each action, its record and the state after it.
    pub writes: Few<(u32, RecState)>,
}

/// What an entry weighs: 64, and 32 for each record of its footprint, and 32 and its payload for each action. A payload
/// is 0 for an action without a datum, 8 for a number or an index, the length of a text, 8 for each number of a list, and
/// 16 and its length for each text of a list.
pub fn weight(entry: &Entry) -> u64
    requires { weights.weight entry.now < 2 ^ 64 }
    ensures { result ≡ weights.weight entry.now }
{
    64 + 32 * entry.footprint.len() as u64 + actions_weight(entry.actions.as_slice())
}

/// What these actions add to the weight of their entry.
fn actions_weight(actions: &[(u32, Action)]) -> u64
    requires { sum_by weights.action_weight actions.now < 2 ^ 64 }
    ensures { result ≡ sum_by weights.action_weight actions.now }
{
    let mut total = 0;
    for action in actions {
        total += 32 + payload(&action.1);
    }
    total
}

/// The payload of one action.
fn payload(action: &Action) -> u64
    requires { weights.payload action.now < 2 ^ 64 }
    ensures { result ≡ weights.payload action.now }
{
    match action {
        Action::Process => 0,
        Action::Put(Datum::Num(_)) => 8,
        Action::Put(Datum::Index(_)) => 8,
        Action::Put(Datum::Text(text)) => text.as_str().len() as u64,
        Action::Put(Datum::Nums(numbers)) => 8 * numbers.len() as u64,
        Action::Put(Datum::Texts(texts)) => texts_payload(texts.as_slice()),
    }
}

/// The payload of a list of texts.
fn texts_payload(texts: &[Name]) -> u64
    requires { sum_by weights.text_payload texts.now < 2 ^ 64 }
    ensures { result ≡ sum_by weights.text_payload texts.now }
{
    let mut total = 0;
    for text in texts {
        total += 16 + text.as_str().len() as u64;
    }
    total
}
