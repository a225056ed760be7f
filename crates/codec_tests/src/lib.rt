//! Tests of what stands on the wire that no program shows: numbers, sizes, texts, sets of bits and statuses by themselves, descriptions that use
//! a cached type, are written or are refused, values of each type and of the greatest depth, how much memory a read may take, frames that are
//! refused, lent or made in place, and messages that no program writes.
#![tactic(auto)]

#[cfg(test)]
mod cursor;
#[cfg(test)]
mod depth;
#[cfg(test)]
mod descriptions;
#[cfg(test)]
mod frames;
#[cfg(test)]
mod memory;
#[cfg(test)]
mod messages;
#[cfg(test)]
mod numbers;
#[cfg(test)]
mod values;
#[cfg(test)]
mod written;
