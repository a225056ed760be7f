ghost use Rattle.std.specs.Prelude.{◌≡◌};

/// Why a header is refused. Each variant has the place of the header's first byte in the stream.
#[derive(Clone, Copy, Debug, PartialEq, Eq)]
pub enum FrameFault {
    /// The first byte isn't CA.
    BadMagic {
        byte: u8,
        place: u64,
    },
    /// The joined payload of the message would be so long, which is above 67,108,864 bytes.
    TooLong {
        length: u64,
        place: u64,
    },
    /// A segment, or a whole message, that doesn't fit the run of segments that stands.
    BadSegment {
        /// The command of the run; none where no run stands.
        have: Option<u8>,
        /// The command of the header.
        came: u8,
        place: u64,
    },
}

impl FrameFault {
    ghost use Rattle.pva_frames.specs.Assembled.{place_of_fault};

    /// The place of the header that is refused.
    pub fn place(&self) -> u64
        ensures { result ≡ place_of_fault self.now }
    {
        match self {
            FrameFault::BadMagic { place, .. } => *place,
            FrameFault::TooLong { place, .. } => *place,
            FrameFault::BadSegment { place, .. } => *place,
        }
    }
}
