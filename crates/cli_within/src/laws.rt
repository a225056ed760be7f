// Laws of exchanges, each the contract of a function that does nothing.
ghost use Rattle.cli_within.specs.Clear.{MarksAreTold, MonitorsHaveOneSubscription, MonitorsPrintUpdates, PrintsAFront, PrintsTheMarks};
ghost use Rattle.cli_within.specs.Laws.{ExchangesComplete, RunsComplete};

/// A run prints at the end of its operation the text that the marks of its desk tell, and before that a front of it.
pub fn marks_are_told()
    ensures { MarksAreTold }
{}

/// What a run prints whose operation ended is the text that its own marks tell: the size of the pieces in which the bytes passed
/// doesn't stand in that text. That runs with other pieces make the same marks isn't said here; tests show it.
pub fn the_text_is_that_of_the_marks()
    ensures { PrintsTheMarks }
{}

/// What a run prints, however it ends, is a front of that text: also for want of memory, where the last marks may be of a message
/// that wasn't answered any more.
pub fn a_front_is_printed()
    ensures { PrintsAFront }
{}

/// Of a monitor a run prints the first of the updates that its pops took, each whole.
pub fn monitors_print_updates()
    ensures { MonitorsPrintUpdates }
{}

/// A monitor has at most one subscription, however its run ends. All updates that pops took, of which the printed ones are the
/// first, are of it: with those that are still queued they fold to what it was shown at its last mark.
pub fn monitors_have_one_subscription()
    ensures { MonitorsHaveOneSubscription }
{}

/// An exchange that meets no fault ends with its operation, or for want of memory, where a monitor's window is one that words may
/// ask for. Only a monitor that awaits more than one update may end otherwise, behind its first.
pub fn faultless_exchanges_end()
    ensures { ExchangesComplete }
{}

/// A run that meets no fault ends with the status 0, 1, 7 or 8. Only a monitor that awaits more than one update may end with 6
/// or 9, behind its first, which is told by what the client took.
pub fn faultless_runs_end()
    ensures { RunsComplete }
{}
