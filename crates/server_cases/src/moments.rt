// A clock that goes by a list.
use case_files::{Case, CaseFault};
use pva_outside::Clock;
use std::alloc::Global;
use std::sync::atomic::{AtomicUsize, Ordering};

/// A clock that stands at each moment of a list for one reading, and then at the last. Where the list is empty it stands at 100 seconds and
/// 5 nanoseconds.
#[derive(Drop)]
pub struct ListedClock {
    moments: Vec<(i64, u32)>,
    readings: AtomicUsize,
}

impl ListedClock {
    /// A clock that goes by these seconds and nanoseconds.
    pub fn new(moments: Vec<(i64, u32)>) -> ListedClock {
        ListedClock {
            moments,
            readings: AtomicUsize::new(0),
        }
    }
}

impl Clock for ListedClock {
    fn now(&self) -> (i64, u32) {
        let reading = self.readings.fetch_add(1, Ordering::SeqCst);
        let last = self.moments.len().saturating_sub(1);
        match self.moments.get(reading.min(last)) {
            Some((seconds, nanoseconds)) => (*seconds, (*nanoseconds).min(999_999_999)),
            None => (100, 5),
        }
    }
}

/// The moment that a text names: its seconds, and its nanoseconds behind a blank.
fn moment(text: &str, line: u32) -> Result<(i64, u32), CaseFault> {
    if let Some((seconds, nanoseconds)) = text.trim().split_once(' ') {
        if let (Ok(seconds), Ok(nanoseconds)) = (
            seconds.parse::<i64>(),
            nanoseconds.parse::<u32>(),
        ) {
            return Ok((seconds, nanoseconds));
        }
    }
    Err(CaseFault::At(line, "these are no seconds and nanoseconds"))
}

/// The clock of `clock SECONDS NANOSECONDS, ..`: each reading has the next of these moments.
pub fn clock_of(alloc: Global, case: &Case<'_>) -> Result<ListedClock, CaseFault> {
    let mut moments = Vec::new(alloc);
    if let Some(entry) = case.find("clock") {
        for text in entry.rest.split(',') {
            moments.push(moment(text, entry.line)?)?;
        }
    }
    Ok(ListedClock::new(moments))
}
