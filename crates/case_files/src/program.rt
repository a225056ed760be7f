// A program over its files of cases.
use crate::case::{Case, Entry, first_word, paragraph_lines, push_entries};
use crate::lines::lines_of;
use crate::names::{Named, name_of};
use crate::{CaseFault, Depth, Line};
use std::alloc::{AllocError, Global};
use std::rt::Files;
use std::{env, fs, io};

/// What runs cases.
pub trait Program {
    /// The keys that a case may have.
    fn keys(&self) -> &'static [&'static str];

    /// Those of them that say what is expected, of which a case has at least one.
    fn expectations(&self) -> &'static [&'static str];

    /// Runs a case, and tells where it comes to something else than is expected; nothing where it agrees.
    fn differs(&self, alloc: Global, case: &Case<'_>) -> Result<Option<String>, CaseFault>;
}

/// What the cases of a file came to.
#[derive(Debug, Drop)]
pub struct Report {
    /// A line for each case that disagrees, and one for the file.
    pub text: String,
    /// Whether all agree.
    pub agrees: bool,
}

/// A paragraph: its first line, and those below.
#[derive(Clone, Copy)]
struct Paragraph<'a> {
    head: Line<'a>,
    kind: &'a str,
    title: &'a str,
    lines: &'a [Line<'a>],
}

/// The paragraph that a line begins, with those of the lines behind it that are its own.
fn paragraph_of<'a>(head: &Line<'a>, after: &'a [Line<'a>]) -> Paragraph<'a> {
    let (kind, title) = first_word(head.text);
    Paragraph {
        head: *head,
        kind,
        title,
        lines: paragraph_lines(after),
    }
}

/// The paragraphs of these lines, of which the first begins one in any case.
fn paragraphs_of<'a>(
    alloc: Global,
    lines: &'a [Line<'a>],
) -> Result<Vec<Paragraph<'a>>, CaseFault> {
    let mut paragraphs = Vec::new(alloc);
    for (place, line) in lines.iter().enumerate() {
        if place == 0 || line.depth == Depth::Margin {
            paragraphs.push(paragraph_of(line, &lines[place + 1..]))?;
        }
    }
    Ok(paragraphs)
}

/// Appends the bytes or the text that a paragraph names, if it is one for that.
fn push_name<'a>(
    alloc: Global,
    paragraph: &Paragraph<'a>,
    names: &mut Vec<Named<'a>>,
) -> Result<(), CaseFault> {
    let line = paragraph.head.number;
    match paragraph.kind {
        "bytes" | "text" => {
            let named = name_of(alloc, names, paragraph.title, line, paragraph.lines)?;
            Ok(names.push(named)?)
        }
        "case" | "with" => Ok(()),
        _ => Err(CaseFault::At(line, "a paragraph is none of bytes, text, with and case")),
    }
}

/// The bytes and texts that these paragraphs name.
fn names_of<'a>(alloc: Global, paragraphs: &[Paragraph<'a>]) -> Result<Vec<Named<'a>>, CaseFault> {
    let mut names = Vec::new(alloc);
    for paragraph in paragraphs {
        push_name(alloc, paragraph, &mut names)?;
    }
    Ok(names)
}

/// Appends the entries of the setting of this name.
fn push_shared<'a>(
    paragraphs: &[Paragraph<'a>],
    with: Entry<'a>,
    entries: &mut Vec<Entry<'a>>,
) -> Result<(), CaseFault> {
    let shared = paragraphs.iter().find(|paragraph| paragraph.kind == "with"
        && paragraph.title == with.rest);
    match shared {
        Some(paragraph) => push_entries(paragraph.lines, entries),
        None => Err(CaseFault::At(with.line, "no setting has this name")),
    }
}

/// The entries of a case, and behind them those that it shares.
fn entries_of<'a>(
    alloc: Global,
    paragraphs: &[Paragraph<'a>],
    lines: &'a [Line<'a>],
) -> Result<Vec<Entry<'a>>, CaseFault> {
    let mut entries = Vec::new(alloc);
    push_entries(lines, &mut entries)?;
    let with = entries.iter().find(|entry| entry.key == "with").copied();
    if let Some(with) = with {
        push_shared(paragraphs, with, &mut entries)?;
    }
    Ok(entries)
}

/// Whether there is such a key.
fn is_among(keys: &[&str], key: &str) -> bool {
    keys.iter().any(|other| *other == key)
}

/// Refuses a key that isn't known, and a case that expects nothing.
fn check_entries<P: Program>(program: &P, case: &Case<'_>) -> Result<(), CaseFault> {
    let keys = program.keys();
    let expectations = program.expectations();
    let mut expects = false;
    for entry in &case.entries {
        if entry.key != "with" && !is_among(keys, entry.key) {
            return Err(CaseFault::At(entry.line, "this key isn't known"));
        }
        expects = expects || is_among(expectations, entry.key);
    }
    if !expects {
        return Err(CaseFault::At(case.line, "this case expects nothing"));
    }
    Ok(())
}

/// Runs a case, and tells where it disagrees.
fn run_case<'a, P: Program>(
    alloc: Global,
    program: &P,
    paragraphs: &[Paragraph<'a>],
    names: &'a [Named<'a>],
    paragraph: &Paragraph<'a>,
) -> Result<Option<String>, CaseFault> {
    let case = Case {
        title: paragraph.title,
        line: paragraph.head.number,
        entries: entries_of(alloc, paragraphs, paragraph.lines)?,
        names,
    };
    check_entries(program, &case)?;
    program.differs(alloc, &case)
}

impl Report {
    /// Adds a line for a case of this file that disagrees, by what is told of it.
    fn add(&mut self, name: &str, paragraph: &Paragraph<'_>, told: &str) -> Result<(), AllocError> {
        self.agrees = false;
        let line = paragraph.head.number;
        let title = paragraph.title;
        write!(self.text, "{name}:{line}: {title}: {told}\n")
    }
}

/// Runs a case of a file, reports on it if it disagrees, and tells whether it agrees.
fn report_case<'a, P: Program>(
    alloc: Global,
    program: &P,
    name: &str,
    paragraphs: &[Paragraph<'a>],
    names: &'a [Named<'a>],
    paragraph: &Paragraph<'a>,
    report: &mut Report,
) -> Result<bool, CaseFault> {
    match run_case(alloc, program, paragraphs, names, paragraph)? {
        None => Ok(true),
        Some(told) => {
            report.add(name, paragraph, &told)?;
            Ok(false)
        }
    }
}

/// Runs the cases of a file, reports on each that disagrees, and counts those that agree.
fn report_cases<'a, P: Program>(
    alloc: Global,
    program: &P,
    name: &str,
    paragraphs: &[Paragraph<'a>],
    names: &'a [Named<'a>],
    report: &mut Report,
) -> Result<u32, CaseFault> {
    let mut agreed = 0u32;
    for paragraph in paragraphs {
        if paragraph.kind != "case" {
            continue;
        }
        let agrees = report_case(alloc, program, name, paragraphs, names, paragraph, report)?;
        if agrees {
            agreed = agreed.saturating_add(1);
        }
    }
    Ok(agreed)
}

/// Runs the cases of a file, and reports on each that disagrees, and on the file.
fn report_paragraphs<'a, P: Program>(
    alloc: Global,
    program: &P,
    name: &str,
    paragraphs: &[Paragraph<'a>],
) -> Result<Report, CaseFault> {
    let names = names_of(alloc, paragraphs)?;
    let mut report = Report {
        text: String::new(alloc),
        agrees: true,
    };
    let agreed = report_cases(alloc, program, name, paragraphs, &names, &mut report)?;
    let end = if report.agrees {
        "agree"
    } else {
        "agree, and those above don't"
    };
    write!(report.text, "{name}: {agreed} cases {end}\n")?;
    Ok(report)
}

/// Runs the cases of a text, which is in the file of this name.
pub fn report_on<P: Program>(
    alloc: Global,
    program: &P,
    name: &str,
    text: &str,
) -> Result<Report, CaseFault> {
    let lines = lines_of(alloc, text)?;
    let paragraphs = paragraphs_of(alloc, &lines)?;
    report_paragraphs(alloc, program, name, &paragraphs)
}

/// Runs the cases of the file of this name, prints the report, and tells whether all agree. A fault of the file counts as none that agrees.
fn run_file<P: Program, R: Files + Print + AllocGlobal>(
    rt: &R,
    program: &P,
    name: &str,
) -> io::Result<bool> {
    let text = fs::read_to_string(rt, name)?;
    match report_on(rt.alloc(), program, name, &text) {
        Ok(report) => {
            print!(rt; "{}", report.text)?;
            Ok(report.agrees)
        }
        Err(CaseFault::At(line, what)) => {
            println!(rt; "{name}:{line}: {what}")?;
            Ok(false)
        }
        Err(CaseFault::NoMemory) => Err(io::Error::from(io::ErrorKind::OutOfMemory)),
    }
}

/// Runs the cases of the files that the arguments name, prints a report on each, and tells whether all agree.
pub fn run<P: Program, R: Files + env::Env + Print + AllocGlobal>(
    rt: &R,
    program: &P,
) -> io::Result<bool> {
    let mut agree = true;
    let mut names = env::args(rt)?;
    let _own_name = names.next();
    for name in names {
        let agrees = run_file(rt, program, &name)?;
        agree = agree && agrees;
    }
    Ok(agree)
}
