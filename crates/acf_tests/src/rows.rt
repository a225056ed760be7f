use acf_rules::{Access, AcfFault, Rules};
use db_text::TextFault;
use pvd_type::{Name, NoMemory};
use std::alloc::Global;
use std::test::Fail;

/// A file, a group of rules, a channel's level, a user, a host, and what they may do. `$(P)` is `ops`.
static GRANTS: [(&str, &str, u8, &str, &str, &str); 38] = [
    // The usual file: everybody reads, and one user on one host writes.
    (USUAL, "DEFAULT", 0, "", "", "read"),
    (USUAL, "DEFAULT", 0, "alice", "cons1", "write"),
    (USUAL, "DEFAULT", 1, "alice", "cons1", "write"),
    (USUAL, "none of this name", 0, "alice", "cons1", "write"),
    (USUAL, "DEFAULT", 0, "alice", "cons2", "read"),
    (USUAL, "DEFAULT", 0, "bob", "cons1", "read"),
    (USUAL, "DEFAULT", 2, "alice", "cons1", "nothing"),
    ("", "DEFAULT", 0, "alice", "cons1", "nothing"),
    (" # nothing\n", "DEFAULT", 0, "", "", "nothing"),
    // A rule of level 1 is for channels of levels 0 and 1, one of level 0 for channels of level 0.
    (LEVELS, "a", 0, "", "", "write"),
    (LEVELS, "a", 1, "", "", "read"),
    // The rules of a group stand in place of those of DEFAULT; a group may have none.
    (PLACES, "a", 0, "", "", "read"),
    (PLACES, "none", 0, "", "", "nothing"),
    (PLACES, "A", 0, "", "", "write"),
    (PLACES, "", 0, "", "", "write"),
    ("ASG(a) {RULE(1, READ)}", "b", 0, "", "", "nothing"),
    // NONE takes nothing away, wherever it stands.
    (NONE, "a", 0, "", "", "read"),
    (NONE, "b", 0, "", "", "write"),
    (NONE, "c", 0, "", "", "nothing"),
    // Users and hosts: of several groups one is enough, of both sorts each.
    (BOTH, "one", 0, "alice", "h1", "write"),
    (BOTH, "one", 0, "bob", "h1", "write"),
    (BOTH, "one", 0, "eve", "h1", "nothing"),
    (BOTH, "one", 0, "alice", "h3", "nothing"),
    (BOTH, "one", 0, "Alice", "h1", "nothing"),
    (BOTH, "one", 0, "alice", "H1", "nothing"),
    (BOTH, "user", 0, "bob", "anywhere", "write"),
    (BOTH, "user", 0, "alice", "h1", "nothing"),
    (BOTH, "host", 0, "", "h2", "read"),
    (BOTH, "host", 0, "", "h1", "nothing"),
    (BOTH, "empty", 0, "", "", "write"),
    // Names in quotes, with blanks, a bracket, a macro; a name is no keyword. A user may stand twice.
    (QUOTED, "a group", 0, "a user", "h", "write"),
    (QUOTED, "a group", 0, "UAG", "h", "write"),
    (QUOTED, "RULE", 0, "x", "", "read"),
    (QUOTED, "RULE", 0, "y", "", "nothing"),
    ("ASG(CALC){RULE(1,READ)}", "CALC", 0, "", "", "read"),
    // A group of users and one of hosts and one of rules may have one name.
    (
        "UAG(a){u} HAG(a){h} ASG(a){RULE(0, READ){UAG(a) HAG(a)}}",
        "a",
        0,
        "u",
        "h",
        "read",
    ),
    // A third word has no effect.
    ("ASG(a){RULE(1,WRITE,TRAPWRITE)}", "a", 1, "", "", "write"),
    ("ASG(a){RULE(1,READ,NOTRAPWRITE){}}", "a", 1, "", "", "read"),
];

/// A file, and its first fault. `$(LOOP)` stands in itself.
static FAULTS: [(&str, &str); 40] = [
    // Forms.
    ("ASG(a){RULE(1,WRITE,TRAP)}", "BadForm 1"),
    ("ASG(a){RULE(1,WRITE,)}", "BadForm 1"),
    ("ASG(a){\nRULE(2,\nWRITE)}", "BadForm 2"),
    ("ASG(a){\nRULE(01,\nWRITE)}", "BadForm 2"),
    ("ASG(a){\nRULE(\"1\",\nWRITE)}", "BadForm 2"),
    ("ASG(a){\nRULE(1,\nwrite)}", "BadForm 3"),
    ("ASG(a){\nRULE(1,\n\"WRITE\")}", "BadForm 3"),
    ("ASG(a){\nRULE(1)}", "BadForm 2"),
    ("ASG(a){\n\nREAD}", "BadForm 3"),
    ("ASG(a){}\nasg(b){}", "BadForm 2"),
    ("\"ASG\"(a){}", "BadForm 1"),
    ("UAG(a) {}", "BadForm 1"),
    ("UAG(a) {b,}", "BadForm 1"),
    ("UAG(a) {b\nc}", "BadForm 2"),
    ("UAG(a)\nHAG(b) {c}", "BadForm 2"),
    ("RULE(1, READ)", "BadForm 1"),
    ("ASG(a){}\n}", "BadForm 2"),
    (
        "UAG(u){x}ASG(a){RULE(1,READ){\nUAG(u)\nUAG(v)}}",
        "BadForm 3",
    ),
    (
        "HAG(u){x}ASG(a){RULE(1,READ){\nHAG(u)\nHAG(v)}}",
        "BadForm 3",
    ),
    ("ASG(a){RULE(1,READ){\nUAG()}}", "BadForm 2"),
    // A text that ends inside a form.
    ("ASG(a) {\n\n# end\n", "BadForm 3"),
    ("UAG(a", "BadForm 1"),
    ("ASG(a){RULE(1, READ)\n{", "BadForm 2"),
    // The name of a group that stands before, of the same sort.
    ("UAG(a){u}\nUAG(\"a\"){v}", "SameName a 2"),
    ("HAG(a){u}\nHAG(a\n]", "SameName a 2"),
    ("ASG(a){}\nUAG(a){u}\nASG(a){}", "SameName a 3"),
    // The name of a group that doesn't stand before, of the same sort.
    ("ASG(a){RULE(1,READ){UAG(u)}} UAG(u){x}", "UnknownName u 1"),
    ("HAG(u){x}ASG(a){RULE(1,READ){UAG(\nu)}}", "UnknownName u 2"),
    ("UAG(u){x}ASG(a){RULE(1,READ){HAG(\nu)}}", "UnknownName u 2"),
    (
        "UAG(u){x}ASG(a){RULE(1,READ){UAG(u,\nU\n]}}",
        "UnknownName U 2",
    ),
    // Rules that go by the values of records.
    ("ASG(a){\nINPA(x)}", "Unsupported INPA 2"),
    ("ASG(a){\nINPL(x)}", "Unsupported INPL 2"),
    ("ASG(a){\nINPM(x)}", "BadForm 2"),
    ("ASG(a){RULE(1,READ){\nCALC(\"A\")}}", "Unsupported CALC 2"),
    ("INPA(x)", "BadForm 1"),
    // Macros and tokens that are at fault.
    ("ASG(a){}\n=", "BadToken 2"),
    ("=\nASG($(P", "BadToken 2"),
    ("UAG(a){\n\"u}\n", "OpenString 2"),
    ("UAG(a){\n$(X)}", "UnknownMacro X 2"),
    ("UAG(a){u}\n# $(LOOP)\nASG($(LOOP)){}", "MacroDepth 3"),
];

/// Two lines at fault, the second and the third of a file, and which fault is told.
static PAIRS: [(&str, &str, &str); 56] = [
    // Of two forms at fault the first is told.
    (BAD_FORM, SAME_NAME, "BadForm 2"),
    (BAD_FORM, UNKNOWN_NAME, "BadForm 2"),
    (BAD_FORM, UNSUPPORTED, "BadForm 2"),
    (SAME_NAME, BAD_FORM, "SameName u 2"),
    (SAME_NAME, UNKNOWN_NAME, "SameName u 2"),
    (SAME_NAME, UNSUPPORTED, "SameName u 2"),
    (UNKNOWN_NAME, BAD_FORM, "UnknownName v 2"),
    (UNKNOWN_NAME, SAME_NAME, "UnknownName v 2"),
    (UNKNOWN_NAME, UNSUPPORTED, "UnknownName v 2"),
    (UNSUPPORTED, BAD_FORM, "Unsupported CALC 2"),
    (UNSUPPORTED, SAME_NAME, "Unsupported CALC 2"),
    (UNSUPPORTED, UNKNOWN_NAME, "Unsupported CALC 2"),
    // A token at fault is told before forms, wherever it stands.
    (BAD_TOKEN, BAD_FORM, "BadToken 2"),
    (BAD_TOKEN, SAME_NAME, "BadToken 2"),
    (BAD_TOKEN, UNKNOWN_NAME, "BadToken 2"),
    (BAD_TOKEN, UNSUPPORTED, "BadToken 2"),
    (OPEN_STRING, BAD_FORM, "OpenString 2"),
    (OPEN_STRING, SAME_NAME, "OpenString 2"),
    (OPEN_STRING, UNKNOWN_NAME, "OpenString 2"),
    (OPEN_STRING, UNSUPPORTED, "OpenString 2"),
    (BAD_FORM, BAD_TOKEN, "BadToken 3"),
    (BAD_FORM, OPEN_STRING, "OpenString 3"),
    (SAME_NAME, BAD_TOKEN, "BadToken 3"),
    (SAME_NAME, OPEN_STRING, "OpenString 3"),
    (UNKNOWN_NAME, BAD_TOKEN, "BadToken 3"),
    (UNKNOWN_NAME, OPEN_STRING, "OpenString 3"),
    (UNSUPPORTED, BAD_TOKEN, "BadToken 3"),
    (UNSUPPORTED, OPEN_STRING, "OpenString 3"),
    // A macro at fault is told before forms and tokens, wherever it stands.
    (UNKNOWN_MACRO, BAD_FORM, "UnknownMacro X 2"),
    (UNKNOWN_MACRO, SAME_NAME, "UnknownMacro X 2"),
    (UNKNOWN_MACRO, UNKNOWN_NAME, "UnknownMacro X 2"),
    (UNKNOWN_MACRO, UNSUPPORTED, "UnknownMacro X 2"),
    (UNKNOWN_MACRO, BAD_TOKEN, "UnknownMacro X 2"),
    (UNKNOWN_MACRO, OPEN_STRING, "UnknownMacro X 2"),
    (MACRO_DEPTH, BAD_FORM, "MacroDepth 2"),
    (MACRO_DEPTH, SAME_NAME, "MacroDepth 2"),
    (MACRO_DEPTH, UNKNOWN_NAME, "MacroDepth 2"),
    (MACRO_DEPTH, UNSUPPORTED, "MacroDepth 2"),
    (MACRO_DEPTH, BAD_TOKEN, "MacroDepth 2"),
    (MACRO_DEPTH, OPEN_STRING, "MacroDepth 2"),
    (BAD_FORM, UNKNOWN_MACRO, "UnknownMacro X 3"),
    (BAD_FORM, MACRO_DEPTH, "MacroDepth 3"),
    (SAME_NAME, UNKNOWN_MACRO, "UnknownMacro X 3"),
    (SAME_NAME, MACRO_DEPTH, "MacroDepth 3"),
    (UNKNOWN_NAME, UNKNOWN_MACRO, "UnknownMacro X 3"),
    (UNKNOWN_NAME, MACRO_DEPTH, "MacroDepth 3"),
    (UNSUPPORTED, UNKNOWN_MACRO, "UnknownMacro X 3"),
    (UNSUPPORTED, MACRO_DEPTH, "MacroDepth 3"),
    (BAD_TOKEN, UNKNOWN_MACRO, "UnknownMacro X 3"),
    (BAD_TOKEN, MACRO_DEPTH, "MacroDepth 3"),
    (OPEN_STRING, UNKNOWN_MACRO, "UnknownMacro X 3"),
    (OPEN_STRING, MACRO_DEPTH, "MacroDepth 3"),
    // Of two macros the first, and of two tokens.
    (UNKNOWN_MACRO, MACRO_DEPTH, "UnknownMacro X 2"),
    (MACRO_DEPTH, UNKNOWN_MACRO, "MacroDepth 2"),
    (BAD_TOKEN, OPEN_STRING, "BadToken 2"),
    (OPEN_STRING, BAD_TOKEN, "OpenString 2"),
];

const USUAL: &str =
    "UAG(ops) {alice} HAG(ctl) {cons1} ASG(DEFAULT) { RULE(1, READ) RULE(1, WRITE) { UAG(ops) HAG(ctl) } }";

const LEVELS: &str = "ASG(a) { RULE(1, READ) RULE(0, WRITE) }";

const PLACES: &str = "ASG(DEFAULT) {RULE(1, WRITE)} ASG(a) {RULE(1, READ)} ASG(none) {}";

const NONE: &str =
    "ASG(a) { RULE(1, READ) RULE(1, NONE) } ASG(b) { RULE(0, NONE) RULE(0, WRITE) RULE(0, READ) } ASG(c) { RULE(1, NONE) }";

const BOTH: &str = "UAG(a) {alice} UAG(b) {bob} HAG(c) {h1} HAG(d) {h2}
ASG(one) { RULE(1, WRITE) { HAG(c, d) UAG(a, b) } }
ASG(user) { RULE(1, WRITE) { UAG(b) } }
ASG(host) { RULE(1, READ) { HAG(d) } }
ASG(empty) { RULE(1, WRITE) { } }";

const QUOTED: &str = "UAG(\"$(P) )\") {\"a user\", UAG, \"a user\"} HAG(\"h\") {h} UAG(x) {x}
ASG(\"a group\") { RULE(1, WRITE) { UAG(\"ops )\") HAG(h) } } # ASG(RULE) {}
ASG(RULE) { RULE(0, READ) { UAG(x) } }";

/// Lines at fault, behind a line that makes the group of users `u`.
const BAD_FORM: &str = "{";

const SAME_NAME: &str = "UAG(u){y}";

const UNKNOWN_NAME: &str = "ASG(a){RULE(1,READ){UAG(v)}}";

const UNSUPPORTED: &str = "ASG(c){CALC}";

const BAD_TOKEN: &str = "=";

const OPEN_STRING: &str = "\"";

const UNKNOWN_MACRO: &str = "$(X)";

const MACRO_DEPTH: &str = "$(LOOP)";

/// A fault by its name and line.
fn fault_text(alloc: Global, fault: &AcfFault) -> Result<String, NoMemory> {
    let text = match fault {
        AcfFault::Text(TextFault::BadToken(line)) => format!(in alloc; "BadToken {line}")?,
        AcfFault::Text(TextFault::OpenString(line)) => format!(in alloc; "OpenString {line}")?,
        AcfFault::Text(TextFault::UnknownMacro(name, line)) => {
            format!(in alloc; "UnknownMacro {} {line}", name.as_str())?
        }
        AcfFault::Text(TextFault::MacroDepth(line)) => format!(in alloc; "MacroDepth {line}")?,
        AcfFault::BadForm(line) => format!(in alloc; "BadForm {line}")?,
        AcfFault::SameName(name, line) => format!(in alloc; "SameName {} {line}", name.as_str())?,
        AcfFault::UnknownName(name, line) => {
            format!(in alloc; "UnknownName {} {line}", name.as_str())?
        }
        AcfFault::Unsupported(word, line) => {
            format!(in alloc; "Unsupported {} {line}", word.as_str())?
        }
        AcfFault::Text(TextFault::NoMemory) | AcfFault::NoMemory => format!(in alloc; "NoMemory")?,
    };
    Ok(text)
}

/// An access by its name.
fn access_name(access: Access) -> &'static str {
    match access {
        Access::Nothing => "nothing",
        Access::Read => "read",
        Access::Write => "write",
    }
}

/// A macro with this text.
fn macro_of(alloc: Global, name: &str, text: &str) -> Result<(Name, Name), NoMemory> {
    Ok((Name::of(alloc, name)?, Name::of(alloc, text)?))
}

/// What a user on a host may do by a file, or the file's fault.
fn answer(alloc: Global, row: &(&str, &str, u8, &str, &str, &str)) -> Result<String, NoMemory> {
    let (text, group, level, user, host, _) = *row;
    let macros = [
        macro_of(alloc, "P", "ops")?,
        macro_of(alloc, "LOOP", "$(LOOP)")?,
    ];
    match Rules::read(alloc, text, &macros) {
        Ok(rules) => {
            let name = access_name(rules.allowed(group, level, user, host));
            Ok(String::from_str(alloc, name)?)
        }
        Err(fault) => fault_text(alloc, &fault),
    }
}

/// The first fault of a file.
fn first_fault(alloc: Global, text: &str) -> Result<String, NoMemory> {
    answer(alloc, &(text, "", 0, "", "", ""))
}

#[test]
fn rules_grant_the_greatest_permission(rt: HostRuntime) -> Result<(), Fail> {
    let alloc = rt.alloc();
    for row in &GRANTS {
        assert_eq!(rt; answer(alloc, row)?.as_str(), row.5);
    }
    Ok(())
}

#[test]
fn the_first_fault_is_told(rt: HostRuntime) -> Result<(), Fail> {
    let alloc = rt.alloc();
    for (text, fault) in &FAULTS {
        assert_eq!(rt; first_fault(alloc, text)?.as_str(), *fault);
    }
    Ok(())
}

#[test]
fn of_two_faults_macros_come_first_then_tokens_then_forms(rt: HostRuntime) -> Result<(), Fail> {
    let alloc = rt.alloc();
    for (first, second, fault) in &PAIRS {
        let text = format!(in alloc; "UAG(u){{x}}\n{first}\n{second}")?;
        assert_eq!(rt; first_fault(alloc, text.as_str())?.as_str(), *fault);
    }
    Ok(())
}

/// A file with so many rules of level 0, and one of level 1 behind them.
fn long_file(alloc: Global, rules: u32) -> Result<String, NoMemory> {
    let mut text = String::new(alloc);
    text.push_str("UAG(u) {x} ASG(a) {")?;
    for _ in 0..rules {
        text.push_str("RULE(0, READ) {UAG(u)}\n")?;
    }
    text.push_str("RULE(1, WRITE) {UAG(u)}}")?;
    Ok(text)
}

#[test]
fn ten_thousand_rules_are_read(rt: HostRuntime) -> Result<(), Fail> {
    let alloc = rt.alloc();
    let text = long_file(alloc, 10_000)?;
    assert_eq!(rt;
        answer(alloc, &(text.as_str(), "a", 0, "x", "", ""))?.as_str(),
        "write"
    );
    assert_eq!(rt;
        answer(alloc, &(text.as_str(), "a", 1, "y", "", ""))?.as_str(),
        "nothing"
    );
    Ok(())
}
