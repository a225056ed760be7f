// What serving many clients came to.
ghost use Rattle.std.specs.Prelude.{◌≡◌};
ghost use Rattle.srv_host.specs.Hosting.{answer_of};

use crate::accepting::Stop;

/// What serving many clients came to, each with the number of links that were served.
#[derive(Clone, Copy, Debug, PartialEq, Eq)]
pub enum Hosted {
    /// No client will come any more, or as many accepts were made as may be.
    Finished(u64),
    /// The listener failed.
    AcceptFault(u64),
    /// Memory ran out, for the host or for one of its sessions.
    NoMemory(u64),
}

/// The answer of a host that accepted no further link for this reason. `fine` tells that there was memory throughout.
pub(crate) fn answer(stop: Stop, fine: bool, served: u64) -> Hosted
    ensures { result ≡ answer_of stop fine served }
{
    if !fine {
        return Hosted::NoMemory(served);
    }
    match stop {
        Stop::End => Hosted::Finished(served),
        Stop::Turns => Hosted::Finished(served),
        Stop::Fault => Hosted::AcceptFault(served),
        Stop::NoMemory => Hosted::NoMemory(served),
    }
}
