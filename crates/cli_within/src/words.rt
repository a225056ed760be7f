// The words of the command line.
ghost use Rattle.std.specs.Prelude.{◌≡◌, ◌≢◌, ◌≤◌, ℕ, Bool, List, Option, codes, false, IfOk, MatchOption, map, option_map};
ghost use Rattle.clap.specs.Words.{FailsBy, app_of, found_of, is_broken, kind_of, new_rule, rows_of, with_rule};
ghost use Rattle.db_text.specs.Macros.{Macros};
ghost use Rattle.prog_source.specs.Words.{AreMacrosOr, IsCountOr, Source as SourceNamed, source_of};
ghost use Rattle.cli_within.specs.Words.{AreFieldsOr, AreNumbers, AreRead, AskIsRead, IsAtomic, IsCountIf, IsName, IsSourceIn, IsUser, RowsAreRead, bare_app, client_app, given, most, network_app, operation_app, option_rule, options_app, values_in, values_rule, verb_named, word_faults, word_rows};
ghost use Rattle.cli_within.specs.Asking.{OperationIsRead};
ghost use Rattle.cli_within.specs.declared.verb.Numbers.{Numbers as NumbersSaid};
ghost use Rattle.std.specs.Option.{option_and_then};

use crate::fields::read_fields;
use crate::verb::{Numbers, Verb, verb_named};
use clap::error::ErrorKind;
use clap::{Arg, ArgAction, ArgMatches, Command, Error};
use cli_session::{Ask, Operation};
use prog_source::{Source, count_within, read_macros, read_source};
use pvd_type::{Name, NoMemory};
use std::alloc::{AllocError, Global};

/// The most that a number of an option says, but for the turns.
pub const MOST: u64 = 2_147_483_647;

/// How many rounds a run may take, at the most.
pub const TURNS: u64 = 1 << 62;

/// How many bytes a channel's name may have.
const NAME: usize = 200;

/// What the words ask for.
#[derive(Drop)]
pub struct Asked<'a> {
    /// What the client does.
    pub ask: Ask,
    /// Where the records of the server come from.
    pub source: Source<'a>,
    pub macros: Vec<(Name, Name)>,
    /// How many rounds in which neither end has a byte end the run.
    pub idle: u64,
    /// How many bytes each end gives in a round at most.
    pub piece: usize,
    /// How many rounds the run may take.
    pub turns: u64,
}

/// Why words ask for nothing.
#[derive(Clone, Copy, Debug, PartialEq, Eq)]
pub enum WordsStop {
    /// They aren't taken.
    Refused,
    /// Memory ran out.
    NoMemory,
}

impl From<NoMemory> for WordsStop {
    ghost use Rattle.std.specs.Prelude.{◌≡◌};
    ghost use Rattle.cli_within.specs.declared.words.WordsStop.TheVariants as stops;

    ghost from_gives = { λ _ e. e ≡ stops.NoMemory };

    fn from(_: NoMemory) -> WordsStop {
        WordsStop::NoMemory
    }
}

fn with_option<'a>(
    command: Command<'a>,
    alloc: Global,
    name: &'a str,
) -> Result<Command<'a>, AllocError>
    ensures app { IfOk result (λ c. app_of c ≡ with_rule (app_of command.entry) (option_rule name.entry.now)) }
    ensures whole { IfOk result (λ c. is_broken c ≡ is_broken command.entry) }
{
    command.arg(Arg::new(alloc, name).long(name))
}

fn with_argument<'a>(
    command: Command<'a>,
    alloc: Global,
    name: &'a str,
) -> Result<Command<'a>, AllocError>
    ensures app { IfOk result (λ c. app_of c ≡ with_rule (app_of command.entry) (new_rule name.entry.now)) }
    ensures whole { IfOk result (λ c. is_broken c ≡ is_broken command.entry) }
{
    command.arg(Arg::new(alloc, name))
}

/// The command with a last argument that may come more than once.
fn with_values<'a>(command: Command<'a>, alloc: Global) -> Result<Command<'a>, AllocError>
    ensures app { IfOk result (λ c. app_of c ≡ with_rule (app_of command.entry) values_rule) }
    ensures whole { IfOk result (λ c. is_broken c ≡ is_broken command.entry) }
{
    command.arg(Arg::new(alloc, "value").action(ArgAction::Append))
}

/// The command, which has no options so far.
fn bare_command<'a>(alloc: Global) -> Command<'a>
    ensures app { app_of result ≡ bare_app }
    ensures whole { is_broken result ≡ false }
{
    Command::new(alloc, "pvac").no_binary_name(true)
}

/// The command with the options of an operation.
fn operation_command<'a>(alloc: Global) -> Result<Command<'a>, AllocError>
    ensures app { IfOk result (λ c. app_of c ≡ operation_app) }
    ensures whole { IfOk result (λ c. is_broken c ≡ false) }
{
    let command = with_option(bare_command(alloc), alloc, "count")?;
    let command = with_option(command, alloc, "queue")?;
    let command = with_option(command, alloc, "pipeline")?;
    let command = with_option(command, alloc, "fields")?;
    let command = with_option(command, alloc, "atomic")?;
    let command = with_option(command, alloc, "user")?;
    with_option(command, alloc, "host")
}

/// The command with the options of a run too.
fn options_command<'a>(alloc: Global) -> Result<Command<'a>, AllocError>
    ensures app { IfOk result (λ c. app_of c ≡ options_app) }
    ensures whole { IfOk result (λ c. is_broken c ≡ false) }
{
    let command = with_option(operation_command(alloc)?, alloc, "within")?;
    let command = with_option(command, alloc, "macros")?;
    let command = with_option(command, alloc, "idle")?;
    let command = with_option(command, alloc, "piece")?;
    with_option(command, alloc, "turns")
}

/// The command with the options for the network too.
fn network_command<'a>(alloc: Global) -> Result<Command<'a>, AllocError>
    ensures app { IfOk result (λ c. app_of c ≡ network_app) }
    ensures whole { IfOk result (λ c. is_broken c ≡ false) }
{
    let command = with_option(options_command(alloc)?, alloc, "server")?;
    let command = with_option(command, alloc, "search")?;
    with_option(command, alloc, "rounds")
}

/// The command with its options and its arguments.
fn client_command<'a>(alloc: Global) -> Result<Command<'a>, AllocError>
    ensures app { IfOk result (λ c. app_of c ≡ client_app) }
    ensures whole { IfOk result (λ c. is_broken c ≡ false) }
{
    let command = with_argument(network_command(alloc)?, alloc, "op")?;
    let command = with_argument(command, alloc, "name")?;
    with_values(command, alloc)
}

/// What the words give to the options and to the arguments.
pub fn matches_of<'a>(alloc: Global, words: &'a [&'a str]) -> Result<ArgMatches<'a>, Error>
    ensures fails { FailsBy (word_faults (map (λ s. s.now) words.entry.now)) result }
    ensures rows { IfOk result (λ m. rows_of (found_of m) ≡ word_rows (map (λ s. s.now) words.entry.now)) }
{
    let command = client_command(alloc)?;
    command.try_get_matches_from(words)
}

/// The text that an option or an argument was given.
pub fn given<'a>(matches: &ArgMatches<'a>, name: &str) -> Option<&'a str>
    ensures { option_map (λ s. s.now) result ≡ given (rows_of (found_of matches.now)) name.now }
{
    matches.get_str(name)
}

/// The number that an option was given, from the least to the most that it may be, or what stands in its place.
pub fn count_of(
    matches: &ArgMatches<'_>,
    name: &str,
    least: u64,
    most: u64,
    otherwise: u64,
) -> Option<u64>
    ensures { MatchOption result ((n : ℕ) → ¬ (IsCountOr (given (rows_of (found_of matches.now)) name.now) least most otherwise n)) (IsCountOr (given (rows_of (found_of matches.now)) name.now) least most otherwise) }
{
    match given(matches, name) {
        Some(text) => count_within(text, least, most),
        None => Some(otherwise),
    }
}

/// The same of a number of 1 to 2,147,483,647.
fn small_of(matches: &ArgMatches<'_>, name: &str, otherwise: u32) -> Option<u32>
    requires { otherwise ≤ most }
    ensures { MatchOption result ((n : ℕ) → ¬ (IsCountOr (given (rows_of (found_of matches.now)) name.now) 1 most otherwise n)) (IsCountOr (given (rows_of (found_of matches.now)) name.now) 1 most otherwise) }
{
    let Some(count) = count_of(matches, name, 1, MOST, u64::from(otherwise)) else {
        return None;
    };
    Some(count as u32)
}

/// The window that a text says, where there is one. An outer None where it is at fault.
#[tactic(auto, using(crate::proofs::Rows::no_window))]
fn window_by(text: Option<&str>) -> Option<Option<u32>>
    ensures { MatchOption result ((w : Option ℕ) → ¬ (IsCountIf (option_map (λ s. s.now) text.entry) w)) (IsCountIf (option_map (λ s. s.now) text.entry)) }
{
    let Some(text) = text else {
        return Some(None);
    };
    let Some(count) = count_within(text, 1, MOST) else {
        return None;
    };
    Some(Some(count as u32))
}

/// The window of a monitor, where it is to have one. An outer None where the option is at fault.
fn window_in(matches: &ArgMatches<'_>) -> Option<Option<u32>>
    ensures { MatchOption result ((w : Option ℕ) → ¬ (IsCountIf (given (rows_of (found_of matches.now)) (codes "pipeline")) w)) (IsCountIf (given (rows_of (found_of matches.now)) (codes "pipeline"))) }
{
    window_by(given(matches, "pipeline"))
}

/// The numbers of a monitor.
#[tactic(auto, using(crate::proofs::Rows::no_count, crate::proofs::Rows::no_queue, crate::proofs::Rows::no_window_in))]
fn numbers_in(matches: &ArgMatches<'_>) -> Option<Numbers>
    ensures { MatchOption result ((n : NumbersSaid) → ¬ (AreNumbers (rows_of (found_of matches.now)) n)) (AreNumbers (rows_of (found_of matches.now))) }
{
    let Some(count) = small_of(matches, "count", 1) else {
        return None;
    };
    let Some(queue) = small_of(matches, "queue", 4) else {
        return None;
    };
    let Some(window) = window_in(matches) else {
        return None;
    };
    Some(Numbers {
        count,
        queue,
        window,
    })
}

/// The operation that the first argument names.
fn verb_in(matches: &ArgMatches<'_>) -> Option<Verb>
    ensures { result ≡ option_and_then verb_named (given (rows_of (found_of matches.now)) (codes "op")) }
{
    match given(matches, "op") {
        Some(name) => verb_named(name),
        None => None,
    }
}

/// The channel's name, of 1 to 200 bytes.
#[tactic(auto, using(crate::proofs::Rows::unnamed, crate::proofs::Rows::empty_name, crate::proofs::Rows::long_name))]
fn name_in<'a>(matches: &ArgMatches<'a>) -> Option<&'a str>
    ensures { MatchOption result ((name : List ℕ) → ¬ (IsName (given (rows_of (found_of matches.now)) (codes "name")) name)) (λ s. IsName (given (rows_of (found_of matches.now)) (codes "name")) s.now) }
{
    let Some(name) = given(matches, "name") else {
        return None;
    };
    if name.is_empty() {
        return None;
    }
    if name.len() > NAME {
        return None;
    }
    Some(name)
}

/// The fields that are asked for; none where all are.
fn fields_in(alloc: Global, matches: &ArgMatches<'_>) -> Result<Option<Vec<Name>>, NoMemory>
    ensures { IfOk result (λ o. MatchOption o ((paths : List (List ℕ)) → ¬ (AreFieldsOr (given (rows_of (found_of matches.now)) (codes "fields")) paths)) (λ v. AreFieldsOr (given (rows_of (found_of matches.now)) (codes "fields")) v.items)) }
{
    match given(matches, "fields") {
        Some(text) => read_fields(alloc, text),
        None => Ok(Some(Vec::new(alloc))),
    }
}

/// Whether a text says that an operation is to be atomic, where there is one. An outer None where it says neither.
#[tactic(auto, using(crate::proofs::Rows::is_atomic, crate::proofs::Rows::not_atomic))]
fn atomic_by(text: Option<&str>) -> Option<Option<bool>>
    ensures { MatchOption result ((a : Option Bool) → ¬ (IsAtomic (option_map (λ s. s.now) text.entry) a)) (IsAtomic (option_map (λ s. s.now) text.entry)) }
{
    let Some(text) = text else {
        return Some(None);
    };
    if text == "true" {
        return Some(Some(true));
    }
    if text == "false" {
        return Some(Some(false));
    }
    None
}

/// Whether the operation is to be atomic, where that is said. An outer None where the option is at fault.
fn atomic_in(matches: &ArgMatches<'_>) -> Option<Option<bool>>
    ensures { MatchOption result ((a : Option Bool) → ¬ (IsAtomic (given (rows_of (found_of matches.now)) (codes "atomic")) a)) (IsAtomic (given (rows_of (found_of matches.now)) (codes "atomic"))) }
{
    atomic_by(given(matches, "atomic"))
}

/// A user and a host, where there are both. An outer None where there is one without the other.
#[tactic(auto, using(crate::proofs::Rows::no_user_by, crate::proofs::Rows::no_host_by))]
fn user_by(
    alloc: Global,
    user: Option<&str>,
    host: Option<&str>,
) -> Result<Option<Option<(Name, Name)>>, NoMemory>
    ensures { IfOk result (λ o. MatchOption o ((u : Option (List ℕ × List ℕ)) → ¬ (IsUser (option_map (λ s. s.now) user.entry) (option_map (λ s. s.now) host.entry) u)) (IsUser (option_map (λ s. s.now) user.entry) (option_map (λ s. s.now) host.entry))) }
{
    let Some(user) = user else {
        return match host {
            Some(_) => Ok(None),
            None => Ok(Some(None)),
        };
    };
    let Some(host) = host else {
        return Ok(None);
    };
    let user = Name::of(alloc, user)?;
    let host = Name::of(alloc, host)?;
    Ok(Some(Some((user, host))))
}

/// The user and the host, where they are said. An outer None where one is said without the other.
fn user_in(
    alloc: Global,
    matches: &ArgMatches<'_>,
) -> Result<Option<Option<(Name, Name)>>, NoMemory>
    ensures { IfOk result (λ o. MatchOption o ((u : Option (List ℕ × List ℕ)) → ¬ (IsUser (given (rows_of (found_of matches.now)) (codes "user")) (given (rows_of (found_of matches.now)) (codes "host")) u)) (IsUser (given (rows_of (found_of matches.now)) (codes "user")) (given (rows_of (found_of matches.now)) (codes "host")))) }
{
    user_by(alloc, given(matches, "user"), given(matches, "host"))
}

/// The operation that is asked for, with these values and its numbers.
#[tactic(auto, using(crate::proofs::Rows::no_verb, crate::proofs::Rows::no_numbers))]
fn operation_with(
    alloc: Global,
    matches: &ArgMatches<'_>,
    values: &[&str],
) -> Result<Operation, WordsStop>
    requires { map (λ v. v.now) values.now ≡ values_in (rows_of (found_of matches.now)) }
    ensures { OperationIsRead (rows_of (found_of matches.now)) result }
{
    let Some(verb) = verb_in(matches) else {
        return Err(WordsStop::Refused);
    };
    if !verb.takes(values.len()) {
        return Err(WordsStop::Refused);
    }
    let Some(numbers) = numbers_in(matches) else {
        return Err(WordsStop::Refused);
    };
    match verb.operation(alloc, values, numbers) {
        Ok(operation) => Ok(operation),
        Err(NoMemory) => Err(WordsStop::NoMemory),
    }
}

/// The operation that is asked for, with the values of the last argument.
#[tactic(auto, using(crate::proofs::Rows::some_values, crate::proofs::Rows::no_value))]
fn operation_in(alloc: Global, matches: &ArgMatches<'_>) -> Result<Operation, WordsStop>
    ensures { OperationIsRead (rows_of (found_of matches.now)) result }
{
    match matches.get_strs("value") {
        Some(values) => operation_with(alloc, matches, values),
        None => operation_with(alloc, matches, &[]),
    }
}

/// What the client is asked for.
#[tactic(auto, using(crate::proofs::Rows::no_name, crate::proofs::Rows::no_atomic, crate::proofs::Rows::no_fields, crate::proofs::Rows::no_user))]
pub fn ask_in(alloc: Global, matches: &ArgMatches<'_>) -> Result<Ask, WordsStop>
    ensures { AskIsRead (rows_of (found_of matches.now)) result }
{
    let Some(name) = name_in(matches) else {
        return Err(WordsStop::Refused);
    };
    let Some(atomic) = atomic_in(matches) else {
        return Err(WordsStop::Refused);
    };
    let Some(fields) = fields_in(alloc, matches)? else {
        return Err(WordsStop::Refused);
    };
    let Some(user) = user_in(alloc, matches)? else {
        return Err(WordsStop::Refused);
    };
    let name = Name::of(alloc, name)?;
    match operation_in(alloc, matches) {
        Ok(operation) => Ok(Ask {
            name,
            operation,
            fields,
            atomic,
            user,
        }),
        Err(stop) => Err(stop),
    }
}

/// The source that the option `--within` names.
fn source_in<'a>(matches: &ArgMatches<'a>) -> Option<Source<'a>>
    ensures { MatchOption result ((s : SourceNamed) → ¬ (IsSourceIn (rows_of (found_of matches.now)) s)) (λ s. IsSourceIn (rows_of (found_of matches.now)) (source_of s)) }
{
    match given(matches, "within") {
        Some(text) => read_source(text),
        None => None,
    }
}

/// The macros that the option for them gives; none where it isn't given.
pub fn macros_in(
    alloc: Global,
    matches: &ArgMatches<'_>,
) -> Result<Option<Vec<(Name, Name)>>, NoMemory>
    ensures { IfOk result (λ o. MatchOption o ((macros : Macros) → ¬ (AreMacrosOr (given (rows_of (found_of matches.now)) (codes "macros")) macros)) (λ v. AreMacrosOr (given (rows_of (found_of matches.now)) (codes "macros")) v.items)) }
{
    match given(matches, "macros") {
        Some(text) => read_macros(alloc, text),
        None => Ok(Some(Vec::new(alloc))),
    }
}

/// What the options and the arguments ask for.
#[tactic(auto, using(crate::proofs::Rows::no_macros, crate::proofs::Rows::no_idle, crate::proofs::Rows::no_piece, crate::proofs::Rows::no_turns))]
fn asked_of<'a>(alloc: Global, matches: &ArgMatches<'a>) -> Result<Asked<'a>, WordsStop>
    ensures { RowsAreRead (rows_of (found_of matches.now)) result }
{
    let Some(source) = source_in(matches) else {
        return Err(WordsStop::Refused);
    };
    let Some(idle) = count_of(matches, "idle", 1, MOST, 200) else {
        return Err(WordsStop::Refused);
    };
    let Some(piece) = count_of(matches, "piece", 1, MOST, 4096) else {
        return Err(WordsStop::Refused);
    };
    let Some(turns) = count_of(matches, "turns", 1, TURNS, TURNS) else {
        return Err(WordsStop::Refused);
    };
    let Some(macros) = macros_in(alloc, matches)? else {
        return Err(WordsStop::Refused);
    };
    match ask_in(alloc, matches) {
        Ok(ask) => Ok(Asked {
            ask,
            source,
            macros,
            idle,
            piece: piece as usize,
            turns,
        }),
        Err(stop) => Err(stop),
    }
}

/// What a parse that failed came to.
pub fn stop_of(error: &Error) -> WordsStop
    ensures memory { kind_of error.now ≡ ErrorKind.OutOfMemory → result ≡ WordsStop.NoMemory }
    ensures refused { result ≡ WordsStop.Refused → kind_of error.now ≢ ErrorKind.OutOfMemory }
{
    match error.kind() {
        ErrorKind::OutOfMemory => WordsStop::NoMemory,
        _ => WordsStop::Refused,
    }
}

/// What the words ask for. They are refused where the command doesn't take them, and where a value isn't of its form.
pub fn read_words<'a>(alloc: Global, words: &'a [&'a str]) -> Result<Asked<'a>, WordsStop>
    ensures { AreRead (map (λ s. s.now) words.entry.now) result }
{
    match matches_of(alloc, words) {
        Ok(matches) => asked_of(alloc, &matches),
        Err(error) => Err(stop_of(&error)),
    }
}
