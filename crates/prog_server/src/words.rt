// The words of the command line.
ghost use Rattle.std.specs.Prelude.{◌≡◌, ◌≢◌, ◌<◌, ◌-◌, ◌^◌, ℕ, List, Option, None, false, IfOk, MatchOption, codes, is_some, map, option_map, ◌||◌};
ghost use Rattle.clap.specs.Words.{FailsBy, app_of, found_of, is_broken, kind_of, rows_of, with_rule};
ghost use Rattle.prog_server.specs.Words.{AreRead, AreMacrosIn, AskForSilence, IsDrill, IsIfGiven, IsListen, IsSourceIn, IsSourceNeeded, IsTask, IsTaskIn, most_turns, needs_source, RowsAreRead, bare_app, flag_rule, given, is_set, option_rule, order_by, server_app, task_by, word_faults, word_rows};
ghost use Rattle.prog_network.specs.Addresses.{IsAddress};
ghost use Rattle.prog_network.specs.Guids.{IsGuid};
ghost use Rattle.pva_outside.specs.declared.peer.Peer.{Peer as PeerSaid};
ghost use Rattle.prog_source.specs.Words.{IsCountOr, source_of};
ghost use Rattle.db_text.specs.Macros.{Macros};
ghost use Rattle.prog_server.specs.Words as specs;
ghost use Rattle.prog_source.specs.Words as source;

use clap::error::ErrorKind;
use clap::{Arg, ArgAction, ArgMatches, Command, Error};
use prog_network::{read_address, read_guid};
use prog_source::{Source, count_within, read_macros, read_source};
use pva_outside::Peer;
use pva_wire::Order;
use pvd_type::{Name, NoMemory};
use std::alloc::{AllocError, Global};

/// What the entries of the history may weigh together, unless the words say otherwise.
const JOURNAL: u64 = 268_435_456;

/// How many calls of the link one connection may take, at the most.
const TURNS: u64 = 1 << 62;

/// How many accepts a server of many clients may make, at the most.
const ACCEPTS: u64 = 0x7FFF_FFFF;

/// Behind how many seconds of silence a client is given up, unless the words say otherwise: never.
const SILENCE: u64 = 0;

/// The port of searches, unless the words say otherwise (pvAccess Protocol Specification, "Channel Discovery").
const SEARCHES: u64 = 5_076;

/// What is to be done.
#[derive(Clone, Copy, Debug, PartialEq, Eq)]
pub enum Task {
    /// Serve one connection.
    Inetd,
    /// Say what a source has, or where it is wrong.
    Check,
    /// Serve many clients, who connect to this address.
    Listen(Peer),
    /// Run the drill of this number.
    Drill(u64),
}

/// What the words ask for.
#[derive(Debug, Drop)]
pub struct Asked<'a> {
    pub task: Task,
    /// There where the task isn't the drill.
    pub source: Option<Source<'a>>,
    pub macros: Vec<(Name, Name)>,
    pub order: Order,
    pub journal: u64,
    /// How many calls of its link the one connection may take, or how many accepts a server of many clients may make.
    pub turns: u64,
    /// The port that searches come to.
    pub udp: u16,
    /// Where beacons go, if any are to be sent.
    pub beacon: Option<Peer>,
    /// What tells the server from all others.
    pub guid: Option<[u8; 12]>,
    /// Behind how many seconds without a byte a server of many clients gives one of them up. 0: never.
    pub silence: u32,
}

/// Why words ask for nothing.
#[derive(Clone, Copy, Debug, PartialEq, Eq)]
pub enum WordsStop {
    /// They aren't taken.
    Refused,
    /// Memory ran out.
    NoMemory,
}

impl From<NoMemory> for WordsStop {
    ghost use Rattle.std.specs.Prelude.{◌≡◌};
    ghost use Rattle.prog_server.specs.declared.words.WordsStop.TheVariants as stops;

    ghost from_gives = { λ _ e. e ≡ stops.NoMemory };

    fn from(_: NoMemory) -> WordsStop {
        WordsStop::NoMemory
    }
}

fn with_flag<'a>(
    command: Command<'a>,
    alloc: Global,
    name: &'a str,
) -> Result<Command<'a>, AllocError>
    ensures app { IfOk result (λ c. app_of c ≡ with_rule (app_of command.entry) (flag_rule name.entry.now)) }
    ensures whole { IfOk result (λ c. is_broken c ≡ is_broken command.entry) }
{
    command.arg(Arg::new(alloc, name).long(name).action(ArgAction::SetTrue))
}

fn with_option<'a>(
    command: Command<'a>,
    alloc: Global,
    name: &'a str,
) -> Result<Command<'a>, AllocError>
    ensures app { IfOk result (λ c. app_of c ≡ with_rule (app_of command.entry) (option_rule name.entry.now)) }
    ensures whole { IfOk result (λ c. is_broken c ≡ is_broken command.entry) }
{
    command.arg(Arg::new(alloc, name).long(name))
}

/// The command, which has no options so far.
fn bare_command<'a>(alloc: Global) -> Command<'a>
    ensures app { app_of result ≡ bare_app }
    ensures whole { is_broken result ≡ false }
{
    Command::new(alloc, "pvaserve").no_binary_name(true)
}

/// The command with its options, and its one argument.
fn server_command<'a>(alloc: Global) -> Result<Command<'a>, AllocError>
    ensures app { IfOk result (λ c. app_of c ≡ server_app) }
    ensures whole { IfOk result (λ c. is_broken c ≡ false) }
{
    let command = with_flag(bare_command(alloc), alloc, "inetd")?;
    let command = with_flag(command, alloc, "check")?;
    let command = with_option(command, alloc, "listen")?;
    let command = with_option(command, alloc, "drill")?;
    let command = with_option(command, alloc, "macros")?;
    let command = with_flag(command, alloc, "big")?;
    let command = with_option(command, alloc, "journal")?;
    let command = with_option(command, alloc, "turns")?;
    let command = with_option(command, alloc, "udp")?;
    let command = with_option(command, alloc, "beacon")?;
    let command = with_option(command, alloc, "guid")?;
    let command = with_option(command, alloc, "silence")?;
    command.arg(Arg::new(alloc, "source"))
}

/// What the words give to the options and to the argument.
fn matches_of<'a>(alloc: Global, words: &'a [&'a str]) -> Result<ArgMatches<'a>, Error>
    ensures fails { FailsBy (word_faults (map (λ s. s.now) words.entry.now)) result }
    ensures rows { IfOk result (λ m. rows_of (found_of m) ≡ word_rows (map (λ s. s.now) words.entry.now)) }
{
    let command = server_command(alloc)?;
    command.try_get_matches_from(words)
}

/// The text that an option or the argument was given.
fn given<'a>(matches: &ArgMatches<'a>, name: &str) -> Option<&'a str>
    ensures { option_map (λ s. s.now) result ≡ given (rows_of (found_of matches.now)) name.now }
{
    matches.get_str(name)
}

/// Whether a flag was given.
fn is_set(matches: &ArgMatches<'_>, name: &str) -> bool
    ensures { result ≡ is_set (rows_of (found_of matches.now)) name.now }
{
    match given(matches, name) {
        Some(text) => text == "true",
        None => false,
    }
}

/// The task whose flag was given, where no other was.
fn task_by(inetd: bool, check: bool) -> Option<Task>
    ensures { result ≡ task_by inetd check }
{
    match (inetd, check) {
        (true, false) => Some(Task::Inetd),
        (false, true) => Some(Task::Check),
        _ => None,
    }
}

/// The number that an option was given, from the least to the most that it may be, or what stands in its place.
fn count_of(
    matches: &ArgMatches<'_>,
    name: &str,
    least: u64,
    most: u64,
    otherwise: u64,
) -> Option<u64>
    ensures { MatchOption result ((n : ℕ) → ¬ (IsCountOr (given (rows_of (found_of matches.now)) name.now) least most otherwise n)) (IsCountOr (given (rows_of (found_of matches.now)) name.now) least most otherwise) }
{
    match given(matches, name) {
        Some(text) => count_within(text, least, most),
        None => Some(otherwise),
    }
}

/// The drill of the number that a text says.
#[tactic(auto, using(crate::proofs::Rows::no_drill))]
fn drill_by(text: &str) -> Option<Task>
    ensures { MatchOption result ((task : Task) → ¬ (IsDrill text.now task)) (IsDrill text.now) }
{
    match count_within(text, 0, u64::MAX) {
        Some(number) => Some(Task::Drill(number)),
        None => None,
    }
}

/// The server of many clients at the address that a text says.
#[tactic(auto, using(crate::proofs::Rows::no_listen))]
fn listen_by(text: &str) -> Option<Task>
    ensures { MatchOption result ((task : Task) → ¬ (IsListen text.now task)) (IsListen text.now) }
{
    match read_address(text) {
        Some(at) => Some(Task::Listen(at)),
        None => None,
    }
}

/// The task that the flags and the option for a server of many clients name, where they name exactly one.
#[tactic(auto, using(crate::proofs::Rows::named_task, crate::proofs::Rows::inetd_beside, crate::proofs::Rows::check_beside, crate::proofs::Rows::listen_alone))]
fn undrilled_task(listen: Option<&str>, inetd: bool, check: bool) -> Option<Task>
    ensures { MatchOption result ((task : Task) → ¬ (IsTask None (option_map (λ s. s.now) listen.entry) inetd check task)) (IsTask None (option_map (λ s. s.now) listen.entry) inetd check) }
{
    let Some(text) = listen else {
        return task_by(inetd, check);
    };
    if inetd {
        return None;
    }
    if check {
        return None;
    }
    listen_by(text)
}

/// The task that the flags and the options for the drill and for a server of many clients name, where they name exactly one.
#[tactic(auto, using(crate::proofs::Rows::both_options, crate::proofs::Rows::inetd_too, crate::proofs::Rows::check_too, crate::proofs::Rows::drill_alone))]
fn task_of(drill: Option<&str>, listen: Option<&str>, inetd: bool, check: bool) -> Option<Task>
    ensures { MatchOption result ((task : Task) → ¬ (IsTask (option_map (λ s. s.now) drill.entry) (option_map (λ s. s.now) listen.entry) inetd check task)) (IsTask (option_map (λ s. s.now) drill.entry) (option_map (λ s. s.now) listen.entry) inetd check) }
{
    let Some(text) = drill else {
        return undrilled_task(listen, inetd, check);
    };
    if listen.is_some() {
        return None;
    }
    if inetd {
        return None;
    }
    if check {
        return None;
    }
    drill_by(text)
}

/// The same of what the words give.
fn task_in(matches: &ArgMatches<'_>) -> Option<Task>
    ensures { MatchOption result ((task : Task) → ¬ (IsTaskIn (rows_of (found_of matches.now)) task)) (IsTaskIn (rows_of (found_of matches.now))) }
{
    task_of(
        given(matches, "drill"),
        given(matches, "listen"),
        is_set(matches, "inetd"),
        is_set(matches, "check"),
    )
}

/// Whether a task needs a source.
fn needs_source(task: Task) -> bool
    ensures { result ≡ needs_source task }
{
    match task {
        Task::Inetd => true,
        Task::Check => true,
        Task::Listen(_) => true,
        Task::Drill(_) => false,
    }
}

/// How many turns a task may take at the most.
fn most_turns(task: Task) -> u64
    ensures { result ≡ most_turns task }
{
    match task {
        Task::Inetd => TURNS,
        Task::Check => TURNS,
        Task::Listen(_) => ACCEPTS,
        Task::Drill(_) => TURNS,
    }
}

/// The byte order of the replies.
fn order_of(matches: &ArgMatches<'_>) -> Order
    ensures { result ≡ order_by (is_set (rows_of (found_of matches.now)) (codes "big")) }
{
    if is_set(matches, "big") {
        Order::Big
    } else {
        Order::Little
    }
}

/// The source that the argument names, if it is given. An outer None where it isn't of its form, or is needed and not given.
#[tactic(auto, using(crate::proofs::Rows::no_source_by, crate::proofs::Rows::source_there, crate::proofs::Rows::no_source_needed, crate::proofs::Rows::source_needed))]
fn source_by<'a>(text: Option<&'a str>, needed: bool) -> Option<Option<Source<'a>>>
    ensures { MatchOption result ((s : Option source.Source) → ¬ (IsSourceNeeded (option_map (λ s. s.now) text.entry) needed s)) (λ s. IsSourceNeeded (option_map (λ s. s.now) text.entry) needed (option_map source_of s)) }
{
    let Some(text) = text else {
        return if needed { None } else { Some(None) };
    };
    match read_source(text) {
        Some(source) => Some(Some(source)),
        None => None,
    }
}

/// The same of what the words give.
fn source_in<'a>(matches: &ArgMatches<'a>, needed: bool) -> Option<Option<Source<'a>>>
    ensures { MatchOption result ((s : Option source.Source) → ¬ (IsSourceIn (rows_of (found_of matches.now)) needed s)) (λ s. IsSourceIn (rows_of (found_of matches.now)) needed (option_map source_of s)) }
{
    source_by(given(matches, "source"), needed)
}

/// The macros that the option for them gives; none where it isn't given.
fn macros_in(alloc: Global, matches: &ArgMatches<'_>) -> Result<Option<Vec<(Name, Name)>>, NoMemory>
    ensures { IfOk result (λ o. MatchOption o ((macros : Macros) → ¬ (AreMacrosIn (rows_of (found_of matches.now)) macros)) (λ v. AreMacrosIn (rows_of (found_of matches.now)) v.items)) }
{
    match given(matches, "macros") {
        Some(text) => read_macros(alloc, text),
        None => Ok(Some(Vec::new(alloc))),
    }
}

/// The port that searches come to. None where the option for it isn't of its form.
fn udp_in(matches: &ArgMatches<'_>) -> Option<u16>
    ensures { MatchOption result ((n : ℕ) → ¬ (IsCountOr (given (rows_of (found_of matches.now)) (codes "udp")) 0 65535 5076 n)) (IsCountOr (given (rows_of (found_of matches.now)) (codes "udp")) 0 65535 5076) }
{
    let Some(count) = count_of(matches, "udp", 0, 65_535, SEARCHES) else {
        return None;
    };
    Some(count as u16)
}

/// Where the option for beacons says that they go, if it is given. An outer None where it isn't of its form.
#[tactic(auto, using(crate::proofs::Rows::no_beacon_said))]
fn beacon_by(text: Option<&str>) -> Option<Option<Peer>>
    ensures { MatchOption result ((p : Option PeerSaid) → ¬ (IsIfGiven IsAddress (option_map (λ s. s.now) text.entry) p)) (IsIfGiven IsAddress (option_map (λ s. s.now) text.entry)) }
{
    let Some(text) = text else {
        return Some(None);
    };
    match read_address(text) {
        Some(peer) => Some(Some(peer)),
        None => None,
    }
}

/// The GUID that the option for it says, if it is given. An outer None where it isn't of its form.
#[tactic(auto, using(crate::proofs::Rows::no_guid_said))]
fn guid_by(text: Option<&str>) -> Option<Option<[u8; 12]>>
    ensures { MatchOption result ((g : Option (List ℕ)) → ¬ (IsIfGiven IsGuid (option_map (λ s. s.now) text.entry) g)) (IsIfGiven IsGuid (option_map (λ s. s.now) text.entry)) }
{
    let Some(text) = text else {
        return Some(None);
    };
    match read_guid(text) {
        Some(guid) => Some(Some(guid)),
        None => None,
    }
}

/// The same two of what the words give.
fn beacon_in(matches: &ArgMatches<'_>) -> Option<Option<Peer>>
    ensures { MatchOption result ((p : Option PeerSaid) → ¬ (IsIfGiven IsAddress (given (rows_of (found_of matches.now)) (codes "beacon")) p)) (IsIfGiven IsAddress (given (rows_of (found_of matches.now)) (codes "beacon"))) }
{
    beacon_by(given(matches, "beacon"))
}

fn guid_in(matches: &ArgMatches<'_>) -> Option<Option<[u8; 12]>>
    ensures { MatchOption result ((g : Option (List ℕ)) → ¬ (IsIfGiven IsGuid (given (rows_of (found_of matches.now)) (codes "guid")) g)) (IsIfGiven IsGuid (given (rows_of (found_of matches.now)) (codes "guid"))) }
{
    guid_by(given(matches, "guid"))
}

/// Behind how many seconds of silence a client is given up. None where the option for it isn't of its form.
fn silence_in(matches: &ArgMatches<'_>) -> Option<u32>
    ensures { MatchOption result ((n : ℕ) → ¬ (IsCountOr (given (rows_of (found_of matches.now)) (codes "silence")) 0 (2 ^ 32 - 1) 0 n)) (IsCountOr (given (rows_of (found_of matches.now)) (codes "silence")) 0 (2 ^ 32 - 1) 0) }
{
    let Some(count) = count_of(matches, "silence", 0, u32::MAX as u64, SILENCE) else {
        return None;
    };
    Some(count as u32)
}

/// What the options ask for.
#[tactic(auto, using(crate::proofs::Rows::no_task, crate::proofs::Rows::no_source, crate::proofs::Rows::no_journal, crate::proofs::Rows::no_turns, crate::proofs::Rows::no_udp, crate::proofs::Rows::no_beacon, crate::proofs::Rows::no_guid, crate::proofs::Rows::no_silence, crate::proofs::Rows::no_macros))]
fn asked_of<'a>(alloc: Global, matches: &ArgMatches<'a>) -> Result<Asked<'a>, WordsStop>
    ensures { RowsAreRead (rows_of (found_of matches.now)) result }
{
    let Some(task) = task_in(matches) else {
        return Err(WordsStop::Refused);
    };
    let Some(source) = source_in(matches, needs_source(task)) else {
        return Err(WordsStop::Refused);
    };
    let Some(journal) = count_of(matches, "journal", 0, u64::MAX, JOURNAL) else {
        return Err(WordsStop::Refused);
    };
    let most = most_turns(task);
    let Some(turns) = count_of(matches, "turns", 1, most, most) else {
        return Err(WordsStop::Refused);
    };
    let Some(udp) = udp_in(matches) else {
        return Err(WordsStop::Refused);
    };
    let Some(beacon) = beacon_in(matches) else {
        return Err(WordsStop::Refused);
    };
    let Some(guid) = guid_in(matches) else {
        return Err(WordsStop::Refused);
    };
    let Some(silence) = silence_in(matches) else {
        return Err(WordsStop::Refused);
    };
    let Some(macros) = macros_in(alloc, matches)? else {
        return Err(WordsStop::Refused);
    };
    Ok(Asked {
        task,
        source,
        macros,
        order: order_of(matches),
        journal,
        turns,
        udp,
        beacon,
        guid,
        silence,
    })
}

/// What a parse that failed came to.
fn stop_of(error: &Error) -> WordsStop
    ensures memory { kind_of error.now ≡ ErrorKind.OutOfMemory → result ≡ WordsStop.NoMemory }
    ensures refused { result ≡ WordsStop.Refused → kind_of error.now ≢ ErrorKind.OutOfMemory }
{
    match error.kind() {
        ErrorKind::OutOfMemory => WordsStop::NoMemory,
        _ => WordsStop::Refused,
    }
}

/// What the words ask for. They are refused where the command doesn't take them, where not exactly one task is named, and
/// where a value isn't of its form.
pub fn read_words<'a>(alloc: Global, words: &'a [&'a str]) -> Result<Asked<'a>, WordsStop>
    ensures { AreRead (map (λ s. s.now) words.entry.now) result }
{
    match matches_of(alloc, words) {
        Ok(matches) => asked_of(alloc, &matches),
        Err(error) => Err(stop_of(&error)),
    }
}

/// Behind how many seconds without a byte a server of many clients, that these words ask for, gives one of them up. 0: never, as where
/// the words aren't taken.
#[tactic(auto, using(crate::proofs::Rows::silence_asked, crate::proofs::Rows::no_silence_asked))]
pub fn silence_of(alloc: Global, words: &[&str]) -> Result<u32, AllocError>
    ensures { IfOk result (AskForSilence (map (λ s. s.now) words.now)) }
{
    match read_words(alloc, words) {
        Ok(asked) => Ok(asked.silence),
        Err(WordsStop::Refused) => Ok(0),
        Err(WordsStop::NoMemory) => Err(AllocError),
    }
}

/// A law: words ask for one thing.
pub fn words_ask_for_one_thing()
    ensures { (words : List (List ℕ)) (a b : specs.Asked) → specs.AreTaken words a → specs.AreTaken words b → a ≡ b }
{}
