ghost use Rattle.pva_messages.specs.Laws.{OneRequest, OneReply, RequestReadBack, PartReadBack, ReplyReadBack};

/// Two messages of one command that one payload begins with, in one order and after the same
/// definitions, are one, and so is what follows them and what is defined then.
pub fn one_message()
    ensures to_server { OneRequest }
    ensures to_client { OneReply }
{}

/// What one end writes is read back as that message by the reader of the other end, and defines no
/// type: a client's message by the server, which reads the part of a put by itself, under the type that
/// the client gave; a server's message by a client that knows the type of its part. The leaves that a
/// part doesn't mark are blank.
pub fn written_is_read()
    ensures to_server { RequestReadBack }
    ensures part { PartReadBack }
    ensures to_client { ReplyReadBack }
{}
