// Laws of the definitions, each the contract of a function that does nothing.
ghost use Rattle.srv_stream.specs.Laws.{OneOutput, AnEndIsTold, ATroubleIsTold};

/// On one site, in one byte order, dialogues of the same turns, events that are heard and monitors that are popped in one order, and of
/// the same true marks have one output.
pub fn one_output()
    ensures { OneOutput }
{}

/// Where the end of the stream was met, the answer tells it, memory ran out, or not all replies were written.
pub fn an_end_is_told()
    ensures { AnEndIsTold }
{}

/// Where a header that was read is refused, or a message has no answer, behind a dialogue of the same turns and marks as far as it goes,
/// the answer is that trouble; or memory ran out, or not all replies were written.
pub fn a_trouble_is_told()
    ensures { ATroubleIsTold }
{}
