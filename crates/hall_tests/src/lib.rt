//! Tests of floors and of halls, each of two cells.
#![tactic(auto)]

#[cfg(test)]
mod floors;
#[cfg(test)]
mod halls;
#[cfg(test)]
mod turns;
#[cfg(test)]
mod two_cells;
