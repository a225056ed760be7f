//! What sessions of steady links come to.
ghost use Rattle.srv_host.specs.Steady.{SteadyLinksAreHeardOut};

/// Where a link is steady, as one is that always has its next bytes and takes all at once, and tells its input, a session with memory
/// has heard all of it, up to the first that has no answer, and all that it said was written, unless that was 2^62 - 1 bytes or more.
pub fn steady_links_are_heard_out()
    ensures { SteadyLinksAreHeardOut }
{}
