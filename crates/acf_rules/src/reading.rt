ghost use Rattle.std.specs.Prelude.{◌≡◌, ◌<◌, ◌^◌, length};
ghost use Rattle.acf_rules.specs.Reading.{last_line, rules_in, IsRules, Reads};

use crate::fault::{AcfFault, FormStop};
use crate::file::file_at;
use crate::rules::Rules;
use db_text::{Token, expand, tokens};
use pvd_type::Name;
use std::alloc::Global;

/// The line of a text's last byte.
fn last_line(text: &[u8]) -> u32
    requires { length text.now < 2 ^ 32 }
    ensures { result ≡ last_line text.now }
{
    let before = &text[..text.len().saturating_sub(1)];
    let ends = before.iter().filter(|byte| **byte == b'\n').count();
    ends as u32 + 1
}

/// The rules of these tokens, of a text that ends on this line.
fn rules_in(alloc: Global, end: u32, tokens: &[Token]) -> Result<Rules, AcfFault>
    ensures { IsRules result (rules_in end tokens.now) }
{
    match file_at(alloc, tokens) {
        Ok(rules) => Ok(rules),
        Err(stop) => match stop {
            FormStop::Short => Err(AcfFault::BadForm(end)),
            FormStop::Fault(fault) => Err(fault),
        },
    }
}

/// The rules of a text with these macros, or its first fault.
pub(crate) fn read_rules(
    alloc: Global,
    text: &str,
    macros: &[(Name, Name)],
) -> Result<Rules, AcfFault>
    ensures { Reads macros.now text.now result }
{
    let bytes = text.as_bytes();
    if bytes.len() > u32::MAX as usize {
        return Err(AcfFault::NoMemory);
    }
    let plain = expand(alloc, text, macros)?;
    let tokens = tokens(alloc, plain.as_str())?;
    rules_in(alloc, last_line(bytes), &tokens)
}
