// What ends the wait of a listener's accept.
use mio::event::Source;
use mio::{Interest, Poll, Registry, Token};
use std::io;

/// What ends the wait of a listener's accept: whatever it was hung on rings it when something comes there.
#[derive(Drop)]
pub struct Bell {
    registry: Registry,
}

impl Bell {
    /// The bell of what waits with this poll.
    pub(crate) fn of(poll: &Poll) -> io::Result<Bell> {
        let registry = poll.registry().try_clone()?;
        Ok(Bell { registry })
    }

    /// Hangs the bell on a source.
    pub(crate) fn hang<S: Source>(&self, source: &mut S) -> io::Result<()> {
        self.registry.register(source, Token(1), Interest::READABLE)
    }
}
