// What is told of a text, in words.
use db_load::LoadFault;
use db_text::{TextFault, Token, TokenKind};
use desk_api::SiteFault;
use group_defs::{GroupDef, GroupFault, MemberDef, MemberKind};
use rec_kinds::{BuildFault, RecText};
use std::alloc::{AllocError, Global};

/// A fault of a text: what it is, the name that it is about, and its line.
pub fn text_fault_words(alloc: Global, fault: &TextFault) -> Result<String, AllocError> {
    match fault {
        TextFault::BadToken(line) => format!(in alloc; "BadToken {line}"),
        TextFault::OpenString(line) => format!(in alloc; "OpenString {line}"),
        TextFault::UnknownMacro(name, line) => {
            format!(in alloc; "UnknownMacro {} {line}", name.as_str())
        }
        TextFault::MacroDepth(line) => format!(in alloc; "MacroDepth {line}"),
        TextFault::NoMemory => String::from_str(alloc, "NoMemory"),
    }
}

/// The same of a text whose records are read.
pub fn load_fault_words(alloc: Global, fault: &LoadFault) -> Result<String, AllocError> {
    match fault {
        LoadFault::Text(fault) => text_fault_words(alloc, fault),
        LoadFault::SameRecord(name, line) => {
            format!(in alloc; "SameRecord {} {line}", name.as_str())
        }
        LoadFault::UnknownKind(name, line) => {
            format!(in alloc; "UnknownKind {} {line}", name.as_str())
        }
        LoadFault::UnknownField(name, line) => {
            format!(in alloc; "UnknownField {} {line}", name.as_str())
        }
        LoadFault::BadForm(line) => format!(in alloc; "BadForm {line}"),
        LoadFault::Count(found) => format!(in alloc; "Count {found}"),
        LoadFault::NoMemory => String::from_str(alloc, "NoMemory"),
    }
}

/// A fault of the fields of a record: what it is, the field, and its line.
fn build_fault_words(alloc: Global, fault: &BuildFault) -> Result<String, AllocError> {
    let (word, place) = match fault {
        BuildFault::BadNumber(place) => ("BadNumber", place),
        BuildFault::BadChoice(place) => ("BadChoice", place),
        BuildFault::BadLength(place) => ("BadLength", place),
        BuildFault::BadPort(place) => ("BadPort", place),
        BuildFault::NoMemory => return String::from_str(alloc, "NoMemory"),
    };
    format!(in alloc; "{word} {} {}", place.name.as_str(), place.line)
}

/// A fault of a group: what it is, and the group.
fn group_fault_words(alloc: Global, fault: &GroupFault) -> Result<String, AllocError> {
    let (word, name) = match fault {
        GroupFault::BadJson(name) => ("BadJson", name),
        GroupFault::UnknownKey(name) => ("UnknownKey", name),
        GroupFault::SameMember(name) => ("SameMember", name),
        GroupFault::UnknownTrigger(name) => ("UnknownTrigger", name),
        GroupFault::NameTaken(name) => ("NameTaken", name),
        GroupFault::BadMember(name) => ("BadMember", name),
        GroupFault::Shape(fault) => return format!(in alloc; "Shape {fault:?}"),
        GroupFault::TooMany(count) => return format!(in alloc; "TooMany {count}"),
        GroupFault::NoMemory => return String::from_str(alloc, "NoMemory"),
    };
    format!(in alloc; "{word} {}", name.as_str())
}

/// The same of a text that is to give a site.
pub fn site_fault_words(alloc: Global, fault: &SiteFault) -> Result<String, AllocError> {
    match fault {
        SiteFault::Load(fault) => load_fault_words(alloc, fault),
        SiteFault::Build(name, fault) => {
            let words = build_fault_words(alloc, fault)?;
            format!(in alloc; "{words} of {}", name.as_str())
        }
        SiteFault::Group(fault) => group_fault_words(alloc, fault),
        SiteFault::NoMemory => String::from_str(alloc, "NoMemory"),
    }
}

/// The name of a kind of tokens.
fn token_word(kind: TokenKind) -> &'static str {
    match kind {
        TokenKind::Bare => "bare",
        TokenKind::Quoted => "quoted",
        TokenKind::Mark => "mark",
        TokenKind::Json => "json",
    }
}

/// Tokens, a line each: the kind, the text, where it begins and ends, and its line.
pub fn tokens_words(alloc: Global, tokens: &[Token]) -> Result<String, AllocError> {
    let mut words = String::new(alloc);
    for token in tokens {
        let kind = token_word(token.kind);
        let text = token.text.as_str();
        let (start, end, line) = (token.start, token.end, token.line);
        write!(words, "{kind} {text} {start} {end} {line}\n")?;
    }
    Ok(words)
}

/// Appends the fields and infos of a record, a line each, with the line of each.
fn push_parts(words: &mut String, record: &RecText) -> Result<(), AllocError> {
    for field in record.fields.as_slice() {
        let (name, text) = (field.name.as_str(), field.text.as_str());
        write!(words, "  {name}={text} at {}\n", field.line)?;
    }
    for info in record.infos.as_slice() {
        let (name, text) = (info.name.as_str(), info.text.as_str());
        let kind = if info.json { "json" } else { "text" };
        write!(words, "  {name} {kind} {text} at {}\n", info.line)?;
    }
    Ok(())
}

/// Records, each by its kind, name, line, fields and infos.
pub fn records_words(alloc: Global, records: &[RecText]) -> Result<String, AllocError> {
    let mut words = String::new(alloc);
    for record in records {
        let (kind, name) = (record.kind, record.name.as_str());
        write!(words, "{kind:?} {name} at {}\n", record.line)?;
        push_parts(&mut words, record)?;
    }
    Ok(words)
}

/// The `+type` of a kind of members.
fn kind_word(kind: MemberKind) -> &'static str {
    match kind {
        MemberKind::Whole => "scalar",
        MemberKind::Plain => "plain",
        MemberKind::Any => "any",
        MemberKind::Meta => "meta",
        MemberKind::Proc => "proc",
        MemberKind::Structure => "structure",
    }
}

/// Appends a member: its name, kind, the number of its record, its id, its put order, and the numbers of the members that it triggers.
fn push_member(words: &mut String, member: &MemberDef) -> Result<(), AllocError> {
    write!(
        words,
        "  \"{}\" {}",
        member.name.as_str(),
        kind_word(member.kind)
    )?;
    if let Some(rec) = member.rec {
        write!(words, " of {rec}")?;
    }
    if !member.id.as_str().is_empty() {
        write!(words, " id {}", member.id.as_str())?;
    }
    if let Some(order) = member.order {
        write!(words, " order {order}")?;
    }
    if !member.trigger.as_slice().is_empty() {
        words.push_str(" triggers")?;
    }
    for number in member.trigger.as_slice() {
        write!(words, " {number}")?;
    }
    words.push_str("\n")
}

/// Appends a group: its name, its id, whether it is atomic, and its members.
fn push_group(words: &mut String, group: &GroupDef) -> Result<(), AllocError> {
    words.push_str(group.name.as_str())?;
    if !group.id.as_str().is_empty() {
        write!(words, " id {}", group.id.as_str())?;
    }
    words.push_str(if group.atomic {
        " atomic\n"
    } else {
        " apart\n"
    })?;
    for member in group.members.as_slice() {
        push_member(words, member)?;
    }
    Ok(())
}

/// Groups, or their fault.
pub fn groups_words(
    alloc: Global,
    answer: &Result<Vec<GroupDef>, GroupFault>,
) -> Result<String, AllocError> {
    match answer {
        Ok(groups) => defined_words(alloc, groups),
        Err(fault) => group_fault_words(alloc, fault),
    }
}

fn defined_words(alloc: Global, groups: &[GroupDef]) -> Result<String, AllocError> {
    let mut words = String::new(alloc);
    for group in groups {
        push_group(&mut words, group)?;
    }
    Ok(words)
}
