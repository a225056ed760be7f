//! The committed history of a desk, as contracts see it. No value of these types is made.
use group_view::Group;
use rec_kinds::{RecConfig, RecState};
use std::collections::LinkedList;

/// The data of a site, which never change. A record's number is its place in each of the lists.
pub struct SiteData {
    /// The names of its records, as bytes.
    pub names: LinkedList<LinkedList<u8>>,
    /// How these records are configured.
    pub configs: LinkedList<RecConfig>,
    /// Their states at the opening.
    pub opening: LinkedList<RecState>,
    /// The groups of these records.
    pub groups: LinkedList<Group>,
}

/// What a desk's history begins with.
pub struct Base {
    /// The site.
    pub site: SiteData,
    /// What the entries of the history may weigh together.
    pub limit: u64,
}
