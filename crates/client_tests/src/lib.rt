//! Tests of what no program's words ask of a search. They stand above their crates, so that each of these is proved once; what servers and
//! clients do with datagrams are cases of `search_cases`, and what a client does with its network, of `client_cases`.
#![tactic(auto)]

#[cfg(test)]
mod rounds;
