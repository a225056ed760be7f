//! The basic coding of pvAccess in both byte orders: numbers, sizes, texts, sets of bits and statuses,
//! each with its one spelling that is written and all that are read.
#![tactic(auto)]

mod bits;
mod cursor;
mod fault;
mod laws;
mod number;
mod order;
mod reading;
mod status;
mod writing;

pub use bits::{bits_at, write_bits};
pub use cursor::{Cursor, read_bits, read_count, read_size, read_status, read_text};
pub use fault::{Cause, Stop, WireFault};
pub use laws::{canonical_is_read, one_reading, read_is_spelled, spelled_is_read};
pub use number::{u8_at, u16_at, u32_at, u64_at, write_u16, write_u32, write_u64};
pub use order::Order;
pub use pvd_type::{BitSet, Name, NoMemory};
pub use reading::{count_at, counted_at, size_at, str_at, text_at};
pub use status::{Status, StatusKind, status_at, write_status};
pub use writing::{write_size, write_text};
