//! Tests of what a site and a desk answer where no program asks it of them: the names that records may have, and
//! which slots subscriptions get. All else `desk_cases` and `server_cases` show. They stand above their crates, so
//! that each of these is proved once.
#![tactic(auto)]

#[cfg(test)]
mod monitors;
#[cfg(test)]
mod sites;
