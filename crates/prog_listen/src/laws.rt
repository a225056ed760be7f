//! What follows for each run of a server of many clients.
ghost use Rattle.prog_listen.specs.Laws.{BindsAtMostOnce, EveryEndHasItsCause, FaultlessRunsFinish};

/// A law: the listener and the datagrams are asked to bind at most once each, at the addresses of the words.
pub fn binds_at_most_once()
    ensures { BindsAtMostOnce }
{}

/// A law: an end that isn't for want of memory has its cause.
pub fn every_end_has_its_cause()
    ensures { EveryEndHasItsCause }
{}

/// A law: a run that meets no fault ends when no client will come any more or all turns are made, or for want of memory.
pub fn faultless_runs_finish()
    ensures { FaultlessRunsFinish }
{}
