//! Groups of records: the definitions that the texts of `info(Q:group, ..)` state (QSRV manual, "Group PV
//! definitions").
#![tactic(auto)]

mod bare_keys;
mod building;
mod checking;
mod def;
mod draft;
mod fault;
mod joining;
mod keys;
mod listed;
mod member;
mod names;
mod order;
mod reading;
mod said;
mod triggers;

pub use def::{GroupDef, MemberDef, MemberKind};
pub use fault::GroupFault;
pub use reading::read_groups;
