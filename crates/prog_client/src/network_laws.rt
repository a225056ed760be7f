// Laws of operations over the network, each the contract of a function that does nothing.
ghost use Rattle.prog_client.specs.Statuses.{FaultlessRunsEnd, StatusesHaveCauses};

/// Over the network each exit status has its cause: 0 and 1 come only where the operation ended over a link that was taken back, and all
/// that the client tells was printed and all that it says was written; 3 only where no response named the channel in all rounds; 4 only
/// where a count of faults rose, or the server ended the stream before the operation ended, and all that it sent was read, printed and
/// answered; 6 only where the link was idle as often as that takes; 9 only where the turns are no more than the bytes read and written,
/// the datagrams received and sent, and the rise of the idles together.
pub fn statuses_have_causes()
    ensures { StatusesHaveCauses }
{}

/// A run over the network that meets no fault ends with 0, 1, 3 or 7; one whose words name the server ends with 0, 1 or 7.
pub fn faultless_runs_over_the_network_end()
    ensures { FaultlessRunsEnd }
{}
