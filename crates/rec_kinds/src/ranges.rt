// The ranges of the numbers that fields tell, and how long texts may be (EPICS record reference).

/// How many bytes a description has at most.
pub(crate) const DESC_BYTES: u32 = 40;

/// How many bytes a text that a record holds has at most.
pub(crate) const TEXT_BYTES: u32 = 39;

/// DISP, and the index of one of two choices.
pub(crate) const FLAG: (i64, i64) = (0, 1);

/// How many elements a list may have.
pub(crate) const ELEMENT_COUNT: (u16, u16) = (1, 16_384);
