//! Tests of what the programs meet outside: the fakes in memory, the adapters to the system and its network, and addresses in words.
//! They stand above their crates, so that each of these is proved once.
#![tactic(auto)]

#[cfg(test)]
mod network;
#[cfg(test)]
mod outside;
#[cfg(test)]
mod words;
