//! The base of everything that speaks of pvData: names, sets of field numbers and checked types.
//!
//! A type is a tree of shapes whose nodes are numbered depth first, as pvData numbers fields.
#![tactic(auto)]

mod budget;
mod checking;
mod meeting;
mod memory;
mod name;
mod pv_type;
mod same;
mod set;
mod shape;
mod siblings;

pub use budget::Budget;
pub use checking::{TypeFault, check_below, is_among};
pub use memory::NoMemory;
pub use name::Name;
pub use pv_type::{PvType, split_size};
pub use same::same_shape;
pub use set::BitSet;
pub use shape::{Extent, Member, Node, Scalar, Shape};
pub use siblings::Siblings;
