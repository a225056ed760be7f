// How long a link waits for its peer, and for how long it has waited in vain.
use crate::patience::PATIENCE;

/// How many reads in vain each wait is kept for, before it is doubled.
const STEADY_READS: u32 = 8;

/// The first reads in vain whose wait isn't the longest.
const BRISK_READS: u32 = 6 * STEADY_READS;

/// How long a link waits for its peer, and for how long it has waited in vain.
#[derive(Clone, Copy)]
pub(crate) struct Pace {
    /// What the reads in vain begin with behind a byte that came or went.
    first: u32,
    /// The reads in vain since a byte came or went.
    reads: u32,
    /// For how many milliseconds reads have waited since a byte came.
    unheard: u64,
    /// For how many milliseconds writes have waited since a byte went.
    untaken: u64,
    /// How many milliseconds each of these two may be. 0: nothing ends the waiting.
    silence: u64,
}

impl Pace {
    /// That of a client's link, whose reads always wait as long as they may, and are never tired of it.
    pub(crate) fn of_client() -> Pace {
        Pace {
            first: BRISK_READS,
            reads: BRISK_READS,
            unheard: 0,
            untaken: 0,
            silence: 0,
        }
    }

    /// That of a server's link, which has updates to send between its reads. Behind a byte that came or went reads wait a millisecond,
    /// and up to 50 while nothing does. A client who is silent for so many seconds is given up; none is at 0.
    pub(crate) fn of_server(silence: u32) -> Pace {
        Pace {
            first: 0,
            reads: 0,
            unheard: 0,
            untaken: 0,
            silence: silence as u64 * 1_000,
        }
    }

    /// How many milliseconds the next read waits.
    pub(crate) fn wait(&self) -> u16 {
        match self.reads / STEADY_READS {
            0 => 1,
            1 => 2,
            2 => 4,
            3 => 8,
            4 => 16,
            5 => 32,
            _ => PATIENCE,
        }
    }

    /// Bytes came.
    pub(crate) fn came(&mut self) {
        self.reads = self.first;
        self.unheard = 0;
    }

    /// Bytes went.
    pub(crate) fn went(&mut self) {
        self.reads = self.first;
        self.untaken = 0;
    }

    /// A read waited in vain. It says whether the client has been silent for too long.
    pub(crate) fn read_in_vain(&mut self) -> bool {
        self.unheard = self.unheard.saturating_add(self.wait() as u64);
        if self.reads < BRISK_READS {
            self.reads += 1;
        }
        is_over(self.unheard, self.silence)
    }

    /// A write waited in vain. It says whether the client has taken nothing for too long.
    pub(crate) fn written_in_vain(&mut self) -> bool {
        self.untaken = self.untaken.saturating_add(PATIENCE as u64);
        is_over(self.untaken, self.silence)
    }
}

/// Whether so many milliseconds are too many.
fn is_over(waited: u64, silence: u64) -> bool {
    silence != 0 && waited >= silence
}
