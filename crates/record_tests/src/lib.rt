//! Tests of records that no program makes: what a configuration tells, and the history of what is put to them. They
//! stand above their crates, so that each of these is proved once. What a text is, and what records show and take, are cases of `desk_cases`.
#![tactic(auto)]

#[cfg(test)]
mod given;
#[cfg(test)]
mod history;
#[cfg(test)]
mod kinds;
