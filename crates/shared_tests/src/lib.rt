//! Tests of desks that share records: in one thread, in two, and beside a port that waits.
#![tactic(auto)]

#[cfg(test)]
mod answers;
#[cfg(test)]
mod driven;
#[cfg(test)]
mod gated;
#[cfg(test)]
mod halls;
#[cfg(test)]
mod refused;
#[cfg(test)]
mod scenes;
#[cfg(test)]
mod threads;
#[cfg(test)]
mod watched;
