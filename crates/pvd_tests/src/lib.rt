//! Tests of types and values that no program shows: sets of bits, which values are of which type, blank lists, leaves that are merged and change
//! places, which types are Normative Types, and a table of many rows. They stand above their crates, so that each of these is proved once. Types
//! and values are rows of bytes, as they stand on the wire.
#![tactic(auto)]

#[cfg(test)]
mod fitting;
#[cfg(test)]
mod kinds;
#[cfg(test)]
mod made;
#[cfg(test)]
mod moving;
#[cfg(test)]
mod sets;
#[cfg(test)]
mod spelled;
