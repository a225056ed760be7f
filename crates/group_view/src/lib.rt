//! Groups of records as channels: the type of a group, its value as a function of the states of all records, and what a
//! put to it does (QSRV manual, "Group PV definitions").
#![tactic(auto)]

mod building;
mod entry;
mod faults;
mod group;
mod laws;
mod link;
mod member;
mod parts;
mod paths;
mod piece;
mod puts;
mod reach;
mod shapes;
mod slots;
mod source;
mod views;
mod writer;

pub use group::Group;
pub use group_defs::{GroupDef, GroupFault, MemberDef, MemberKind};
pub use laws::{
    footprint_makes_parts_ready, parts_read_footprint, ready_groups_are_ready_for_parts,
    valid_states_are_ready, value_reads_footprint, value_reads_records,
};
pub use rec_fields::FieldAnswer;
