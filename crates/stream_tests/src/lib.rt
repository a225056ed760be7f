//! Tests of what no program does: a session that is called by itself, and two connections to one desk, one after the other. All else that a
//! connection does is shown by the cases of `server_cases`.
#![tactic(auto)]

#[cfg(test)]
mod connections;
#[cfg(test)]
mod sessions;
