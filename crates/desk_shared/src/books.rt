// What the hub of a hall of records keeps.
ghost use Rattle.std.specs.Prelude.{◌≡◌};

use desk_api::{Channel, Site};
use desk_hub::Subscriptions;
use journal_core::History;
use std::snapshot::Snapshot;

/// The history of a hall of records, and the subscriptions of all desks on its passes.
#[derive(Drop)]
pub struct Books {
    /// The site as it was when the hall was opened. It takes no bytes.
    pub(crate) about: Snapshot<Site>,
    /// What the entries may weigh together.
    pub(crate) limit: u64,
    pub(crate) history: History,
    pub(crate) subs: Subscriptions<Channel>,
    ghost opening_is: { history.opening ≡ about.value.opening },
}
