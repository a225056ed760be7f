//! Tests of access security files. They stand above their crate, so that this is proved once.
#![tactic(auto)]

#[cfg(test)]
mod rows;
