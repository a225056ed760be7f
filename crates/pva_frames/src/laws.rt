//! Laws of streams, each the contract of a function that does nothing.

ghost use Rattle.pva_frames.specs.Laws.{AnyPieces, EveryCut, MessageReadsBack, ControlReadsBack};

/// A stream brings the same events and leaves the same, in whatever pieces it comes.
pub fn pieces_do_not_matter()
    ensures { AnyPieces }
{}

/// The bytes of a stream are its frames, one behind the other, and a rest that is no whole frame.
pub fn every_byte_has_its_frame()
    ensures { EveryCut }
{}

/// A message that was written at a message boundary is read as that message, whatever stands before
/// it and follows.
pub fn message_reads_back()
    ensures { MessageReadsBack }
{}

/// A control message that was written between two frames is read as that message, whatever stands
/// before it and follows.
pub fn control_reads_back()
    ensures { ControlReadsBack }
{}
