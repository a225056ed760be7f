//! Tests of a host of many clients, over listeners and datagrams in memory.
#![tactic(auto)]

#[cfg(test)]
mod hosted;
#[cfg(test)]
mod waiting;
