// Numbers in words.
use crate::CaseFault;
use std::alloc::Global;

/// The number that a text names in decimal digits.
pub(crate) fn number_in(text: &str, line: u32) -> Result<u64, CaseFault> {
    match text.trim().parse::<u64>() {
        Ok(number) => Ok(number),
        Err(_) => Err(CaseFault::At(line, "this isn't a number")),
    }
}

/// Appends the numbers that a text names, between blanks.
fn push_numbers(text: &str, line: u32, numbers: &mut Vec<u64>) -> Result<(), CaseFault> {
    for word in text.split_ascii_whitespace() {
        numbers.push(number_in(word, line)?)?;
    }
    Ok(())
}

/// The numbers that a text names, between blanks.
pub(crate) fn numbers_in(alloc: Global, text: &str, line: u32) -> Result<Vec<u64>, CaseFault> {
    let mut numbers = Vec::new(alloc);
    push_numbers(text, line, &mut numbers)?;
    Ok(numbers)
}
