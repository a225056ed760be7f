//! Values of pvData types: whether they fit, their leaves, merging and comparing them.
#![tactic(auto)]

mod blanking;
mod copying;
mod differing;
mod fitting;
mod leaves;
mod marked;
mod merging;
mod moving;
mod same;
mod value;

pub use blanking::{BLANK_ROOM, blank, blank_shape, blank_within};
pub use differing::differs;
pub use fitting::{fits, member_shape};
pub use leaves::{ValueBits, leaf, leaves_of};
pub use marked::{differs_in, misses};
pub use merging::merge;
pub use moving::take_leaves;
pub use pvd_type::NoMemory;
pub use same::same_value;
pub use value::{Items, PvValue};
