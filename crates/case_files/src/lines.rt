// The lines of a file that say something.
use std::alloc::{AllocError, Global};

/// How far a line is indented.
#[derive(Clone, Copy, Debug, PartialEq, Eq)]
pub enum Depth {
    /// It begins a paragraph.
    Margin,
    /// By one or two blanks: it begins an entry of a case.
    Key,
    /// By more: it goes on with the entry before it.
    Under,
}

/// A line, without the blanks around it.
#[derive(Clone, Copy, Debug)]
pub struct Line<'a> {
    /// Its number in the file, counted from 1.
    pub number: u32,
    pub depth: Depth,
    pub text: &'a str,
}

/// How far this line is indented.
fn depth_of(line: &str) -> Depth {
    match line.as_bytes() {
        [b' ', b' ', b' ', ..] => Depth::Under,
        [b' ', ..] => Depth::Key,
        _ => Depth::Margin,
    }
}

/// A line of a text keeps the blanks at its end.
fn said_by(line: &str) -> &str {
    let text = line.trim_start();
    if text.starts_with('|') {
        return text;
    }
    text.trim_end()
}

/// Whether there is nothing there, or a comment.
fn is_silent(text: &str) -> bool {
    matches!(text.as_bytes(), [] | [b'#', ..])
}

/// Appends the lines of a text, without those that are empty and those that begin with `#`.
fn push_lines<'a>(text: &'a str, lines: &mut Vec<Line<'a>>) -> Result<(), AllocError> {
    let mut number = 0u32;
    for line in text.lines() {
        number = number.saturating_add(1);
        let text = said_by(line);
        if !is_silent(text) {
            let depth = depth_of(line);
            lines.push(Line {
                number,
                depth,
                text,
            })?;
        }
    }
    Ok(())
}

/// The lines of a text, without those that are empty and those that begin with `#`.
pub(crate) fn lines_of(alloc: Global, text: &str) -> Result<Vec<Line<'_>>, AllocError> {
    let mut lines = Vec::new(alloc);
    push_lines(text, &mut lines)?;
    Ok(lines)
}
