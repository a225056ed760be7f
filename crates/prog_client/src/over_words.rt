// What the words ask for: an operation over the network, or against a server inside the program.
ghost use Rattle.std.specs.Prelude.{◌≡◌, ◌≢◌, None, IfOk, MatchOption, codes, map};
ghost use Rattle.clap.specs.Words.{found_of, rows_of};
ghost use Rattle.prog_client.specs.Over.{ArePatience, AreWanted, AsksOver, IsWanted, TellOthers};
ghost use Rattle.prog_client.specs.Routes.{RouteIs};
ghost use Rattle.cli_within.specs.Words.{given};
ghost use Rattle.prog_client.specs.declared.networking.Route.{Route as RouteSaid};
ghost use Rattle.prog_client.specs.declared.outcome.Patience.{Patience as PatienceSaid};
ghost use Rattle.prog_client.specs.declared.over_words.AskedOver.{AskedOver as AskedSaid};

use crate::networking::Route;
use crate::outcome::Patience;
use crate::routes::route_of;
use clap::ArgMatches;
use cli_session::Ask;
use cli_within::{MOST, TURNS, WordsStop, ask_in, count_of, given, macros_in, matches_of, stop_of};
use pvd_type::NoMemory;
use std::alloc::Global;

/// What the words ask for over the network.
#[derive(Drop)]
pub struct AskedOver {
    /// What the client does.
    pub ask: Ask,
    /// How the channel's server is found.
    pub route: Route,
    /// How long the search and the operation go on.
    pub patience: Patience,
}

/// What the words ask for, by where the server is.
#[derive(Drop)]
pub enum Wanted {
    /// An operation over the network.
    OverNetwork(AskedOver),
    /// One against a server inside the program. Its words aren't read whole yet.
    Within,
    /// Nothing: the words aren't taken.
    Refused,
}

/// The route that the options ask for.
fn route_in(alloc: Global, matches: &ArgMatches<'_>) -> Result<Option<Route>, NoMemory>
    ensures { IfOk result (λ o. MatchOption o ((r : RouteSaid) → ¬ (RouteIs (given (rows_of (found_of matches.now)) (codes "server")) (given (rows_of (found_of matches.now)) (codes "search")) (given (rows_of (found_of matches.now)) (codes "rounds")) r)) (RouteIs (given (rows_of (found_of matches.now)) (codes "server")) (given (rows_of (found_of matches.now)) (codes "search")) (given (rows_of (found_of matches.now)) (codes "rounds")))) }
{
    route_of(
        alloc,
        given(matches, "server"),
        given(matches, "search"),
        given(matches, "rounds"),
    )
}

/// How long the search and the operation go on. None where an option for it isn't of its form.
#[tactic(auto, using(crate::proofs::Overs::no_idle, crate::proofs::Overs::no_turns))]
fn patience_in(matches: &ArgMatches<'_>) -> Option<Patience>
    ensures { MatchOption result ((p : PatienceSaid) → ¬ (ArePatience (rows_of (found_of matches.now)) p)) (ArePatience (rows_of (found_of matches.now))) }
{
    let Some(idle) = count_of(matches, "idle", 1, MOST, 200) else {
        return None;
    };
    let Some(turns) = count_of(matches, "turns", 1, TURNS, TURNS) else {
        return None;
    };
    Some(Patience { idle, turns })
}

/// Whether the options that have no effect over the network are of their form.
#[tactic(auto, using(crate::proofs::Overs::no_piece, crate::proofs::Overs::no_macros, crate::proofs::Overs::others_are))]
fn others_are_taken(alloc: Global, matches: &ArgMatches<'_>) -> Result<bool, NoMemory>
    ensures { IfOk result (TellOthers (rows_of (found_of matches.now))) }
{
    let Some(_piece) = count_of(matches, "piece", 1, MOST, 4096) else {
        return Ok(false);
    };
    match macros_in(alloc, matches)? {
        Some(_) => Ok(true),
        None => Ok(false),
    }
}

/// What is given asks for over the network, where it names no source. None where it isn't taken.
#[tactic(auto, using(crate::proofs::Overs::no_route, crate::proofs::Overs::no_patience, crate::proofs::Overs::no_others, crate::proofs::Overs::no_ask, crate::proofs::Overs::asks_over))]
fn unsourced_in(alloc: Global, matches: &ArgMatches<'_>) -> Result<Option<AskedOver>, NoMemory>
    requires { given (rows_of (found_of matches.now)) (codes "within") ≡ None }
    ensures { IfOk result (λ o. MatchOption o ((a : AskedSaid) → ¬ (AsksOver (rows_of (found_of matches.now)) a)) (AsksOver (rows_of (found_of matches.now)))) }
{
    let Some(route) = route_in(alloc, matches)? else {
        return Ok(None);
    };
    let Some(patience) = patience_in(matches) else {
        return Ok(None);
    };
    let taken = others_are_taken(alloc, matches)?;
    if !taken {
        return Ok(None);
    }
    match ask_in(alloc, matches) {
        Ok(ask) => Ok(Some(AskedOver {
            ask,
            route,
            patience,
        })),
        Err(WordsStop::Refused) => Ok(None),
        Err(WordsStop::NoMemory) => Err(NoMemory),
    }
}

/// What is given asks for where it names a source: a run against a server inside the program, if the options for the network are of
/// their form.
#[tactic(auto, using(crate::proofs::Overs::sourced, crate::proofs::Overs::unrouted))]
fn sourced_in(alloc: Global, matches: &ArgMatches<'_>) -> Result<Wanted, NoMemory>
    requires { given (rows_of (found_of matches.now)) (codes "within") ≢ None }
    ensures { IfOk result (IsWanted (rows_of (found_of matches.now))) }
{
    match route_in(alloc, matches)? {
        Some(_) => Ok(Wanted::Within),
        None => Ok(Wanted::Refused),
    }
}

/// What is given asks for, by where the server is.
#[tactic(auto, using(crate::proofs::Overs::unwanted))]
fn wanted_in(alloc: Global, matches: &ArgMatches<'_>) -> Result<Wanted, NoMemory>
    ensures { IfOk result (IsWanted (rows_of (found_of matches.now))) }
{
    match given(matches, "within") {
        Some(_) => sourced_in(alloc, matches),
        None => match unsourced_in(alloc, matches)? {
            Some(asked) => Ok(Wanted::OverNetwork(asked)),
            None => Ok(Wanted::Refused),
        },
    }
}

/// What the words ask for, by where the server is.
#[tactic(auto, using(crate::proofs::Overs::faulty, crate::proofs::Overs::wanted))]
pub fn read_wanted(alloc: Global, words: &[&str]) -> Result<Wanted, NoMemory>
    ensures { IfOk result (AreWanted (map (λ s. s.now) words.now)) }
{
    match matches_of(alloc, words) {
        Ok(matches) => wanted_in(alloc, &matches),
        Err(error) => match stop_of(&error) {
            WordsStop::Refused => Ok(Wanted::Refused),
            WordsStop::NoMemory => Err(NoMemory),
        },
    }
}
