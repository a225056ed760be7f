// A link over a TCP connection.
ghost use Rattle.std.specs.Prelude.{◌≡◌, ◌<◌, IfOk, IsTrue, false, true, length};
ghost use Rattle.std.specs.Io.{ReadsAtMost};
ghost use Rattle.pva_outside.specs.Wire.{Reads, Writes, Unchanged, Steadily};
ghost use Rattle.pva_net.specs.TcpLink.{tcp_wire, new_wire, is_closed};

use crate::pace::Pace;
use crate::patience::{PATIENCE, patience};
use libc::net::{POLLIN, poll};
use libc::types::pollfd;
use pva_outside::{Link, ReadStep, Refusal, WriteStep, raise, refusal_of};
use std::io;
use std::io::{ErrorKind, Read, Write};
use std::net::{Shutdown, TcpStream};
use std::os::fd::AsRawFd;

/// A link over a TCP connection, which sends small pieces at once (TCP_NODELAY).
///
/// A read waits 50 ms at most for input, and is then idle; it ends where the peer has ended its stream. A server's link waits a
/// millisecond behind a byte that came or went, and longer while nothing does, so that its caller can look for more to send. A write
/// hands over all bytes, and takes those that fit the socket's buffer within 50 ms; where that is none, it is idle. Of the errors,
/// `WouldBlock` and `Interrupted` are `Idle`, `OutOfMemory` is `NoMemory`, and every other is a fault; so is a client who has been
/// silent for longer than the link was told to wait. `close` shuts the connection and gives its socket back to the system, and each
/// later call is a fault. It tells no bytes.
#[derive(Drop)]
pub struct TcpLink {
    stream: Option<TcpStream>,
    pace: Pace,
    faults: u64,
    idles: u64,
    ends: u64,
}

/// Whether something is there to read, within so many milliseconds. A read tells what it is.
fn is_ready(stream: &TcpStream, wait: u16) -> bool {
    let mut asked = [pollfd {
        fd: stream.as_raw_fd(),
        events: POLLIN,
        revents: 0,
    }];
    poll(&mut asked, i32::from(wait)) != 0
}

/// Reads what comes within so many milliseconds. The longest wait is that of the socket itself, which costs one call of the system.
fn read_within(stream: &mut TcpStream, wait: u16, buffer: &mut [u8]) -> io::Result<usize>
    ensures { ReadsAtMost result buffer.new }
{
    if wait < PATIENCE && !is_ready(stream, wait) {
        return Err(io::Error::from(ErrorKind::WouldBlock));
    }
    stream.read(buffer)
}

impl TcpLink {
    /// A link over this connection that waits so, with counts of 0.
    pub(crate) fn over(stream: TcpStream, pace: Pace) -> io::Result<TcpLink>
        ensures wire { IfOk result (λ link. tcp_wire link ≡ new_wire) }
        ensures ready { IfOk result (λ link. is_closed link ≡ false) }
    {
        stream.set_nonblocking(false)?;
        stream.set_nodelay(true)?;
        stream.set_read_timeout(Some(patience()))?;
        stream.set_write_timeout(Some(patience()))?;
        Ok(TcpLink {
            stream: Some(stream),
            pace,
            faults: 0,
            idles: 0,
            ends: 0,
        })
    }

    /// How often it failed.
    pub(crate) fn faults(&self) -> u64
        ensures { result ≡ (tcp_wire self.now).faults }
    {
        self.faults
    }

    /// How often it was idle.
    pub(crate) fn idles(&self) -> u64
        ensures { result ≡ (tcp_wire self.now).idles }
    {
        self.idles
    }

    /// How often its input ended.
    pub(crate) fn ends(&self) -> u64
        ensures { result ≡ (tcp_wire self.now).ends }
    {
        self.ends
    }
}

impl Link for TcpLink {
    ghost wire = { tcp_wire };

    fn read(&mut self, buffer: &mut [u8]) -> ReadStep
        requires { 0 < length buffer.old }
        ensures step { Reads (tcp_wire self.old) (tcp_wire self.new) result buffer.new }
        ensures steady { Steadily (tcp_wire self.old) (tcp_wire self.new) }
        ensures closed { IsTrue (is_closed self.old) → result ≡ ReadStep.Failed }
        ensures stays { is_closed self.new ≡ is_closed self.old }
    {
        let Some(stream) = &mut self.stream else {
            raise(&mut self.faults);
            return ReadStep::Failed;
        };
        match read_within(stream, self.pace.wait(), buffer) {
            Ok(0) => {
                raise(&mut self.ends);
                ReadStep::End
            }
            Ok(count) => {
                self.pace.came();
                ReadStep::Got(count)
            }
            Err(error) => match refusal_of(&error) {
                Refusal::Idle => {
                    if self.pace.read_in_vain() {
                        raise(&mut self.faults);
                        return ReadStep::Failed;
                    }
                    raise(&mut self.idles);
                    ReadStep::Idle
                }
                Refusal::NoMemory => ReadStep::NoMemory,
                Refusal::Fault => {
                    raise(&mut self.faults);
                    ReadStep::Failed
                }
            },
        }
    }

    fn write(&mut self, bytes: &[u8]) -> WriteStep
        requires { 0 < length bytes.now }
        ensures step { Writes (tcp_wire self.old) (tcp_wire self.new) result bytes.now }
        ensures steady { Steadily (tcp_wire self.old) (tcp_wire self.new) }
        ensures closed { IsTrue (is_closed self.old) → result ≡ WriteStep.Failed }
        ensures stays { is_closed self.new ≡ is_closed self.old }
    {
        let Some(stream) = &mut self.stream else {
            raise(&mut self.faults);
            return WriteStep::Failed;
        };
        match stream.write(bytes) {
            Ok(0) => {
                raise(&mut self.faults);
                WriteStep::Failed
            }
            Ok(count) => {
                self.pace.went();
                WriteStep::Took(count)
            }
            Err(error) => match refusal_of(&error) {
                Refusal::Idle => {
                    if self.pace.written_in_vain() {
                        raise(&mut self.faults);
                        return WriteStep::Failed;
                    }
                    raise(&mut self.idles);
                    WriteStep::Idle
                }
                Refusal::NoMemory => WriteStep::NoMemory,
                Refusal::Fault => {
                    raise(&mut self.faults);
                    WriteStep::Failed
                }
            },
        }
    }

    fn close(&mut self)
        ensures same { Unchanged (tcp_wire self.old) (tcp_wire self.new) }
        ensures steady { Steadily (tcp_wire self.old) (tcp_wire self.new) }
        ensures closed { is_closed self.new ≡ true }
    {
        if let Some(stream) = self.stream.take() {
            // A connection that the peer has reset can't be shut any more, and needn't be.
            let _ = stream.shutdown(Shutdown::Both);
        }
    }
}
