//! Tests of queues of updates and of the tables of a connection: what no dialogue of a client shows of them. They stand above their
//! crates, so that each of these is proved once.
#![tactic(auto)]

#[cfg(test)]
mod leaves;
#[cfg(test)]
mod queues;
#[cfg(test)]
mod tables;
