ghost use Rattle.cli_session.specs.Laws.{SentIsHeard};

/// The bytes that a client sends are read by a server as the messages that the client said, one after
/// another, the part of a put by itself under the type that the client gave it. No payload is longer
/// than a payload may be.
pub fn sent_is_heard()
    ensures { SentIsHeard }
{}
