//! Tests of a server of many clients, and of the program that serves them, over listeners and datagrams in memory.
//! They stand above their crates, so that each of these is proved once.
#![tactic(auto)]

#[cfg(test)]
mod listening;
#[cfg(test)]
mod outside;
#[cfg(test)]
mod program;
