ghost use Rattle.pva_search.specs.Laws.{SearchFinds, SearchIsRead, SearchIsSpelled, ResponseIsRead, ResponseIsSpelled};

/// A datagram is read as a search exactly where it spells one, in one message and with nothing after that
/// (pvAccess Protocol Specification, "searchRequest").
pub fn search_is_spelled()
    ensures read { SearchIsRead }
    ensures spelled { SearchIsSpelled }
{}

/// A datagram is read as a response exactly where it spells one, in one message and with nothing after
/// that (pvAccess Protocol Specification, "searchResponse").
pub fn response_is_spelled()
    ensures read { ResponseIsRead }
    ensures spelled { ResponseIsSpelled }
{}

/// Each search that a finder writes is answered by every server that knows one of its names, and the
/// finder that hears the answer has that server for the name.
pub fn every_search_finds()
    ensures { SearchFinds }
{}
