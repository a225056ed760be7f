// A link that has stayed steady.
ghost use Rattle.std.proofs.Props.{props};
ghost use Rattle.std.specs.Prelude.{◌≡◌, ◌<◌, length};
ghost use Rattle.pva_outside.specs.Wire.{Reads, Steadily, Unchanged, Writes};

use pva_outside::{Link, ReadStep, WriteStep};
use std::marker::{Brand, PhantomData};

/// What a link was at its start. Each use picks it: contracts alone see it, and it takes no bytes.
pub(crate) trait Start {
    ghost use Rattle.pva_outside.specs.Wire.{Wire};

    ghost start: { Wire };
}

impl Start for Brand {
    ghost use Rattle.srv_host.specs.Sessions.{no_wire};

    ghost start = { no_wire };
}

/// A link whose type says that it has stayed steady since its start, where it was steady then. It does what its link does.
#[derive(Drop)]
pub(crate) struct Lasting<L: Link, S: Start> {
    link: L,
    start: PhantomData<S>,
    ghost steady: { Steadily S.start (L.wire link) } by { Prim.hlevel props },
}

impl<L: Link, S: Start> Lasting<L, S> {
    /// A link at its start.
    pub(crate) fn new(link: L) -> Lasting<L, S>
        requires { L.wire link ≡ S.start }
        ensures { result.link ≡ link }
    {
        Lasting {
            link,
            start: PhantomData,
        }
    }

    /// The link.
    pub(crate) fn into_link(self) -> L
        ensures link { result ≡ self.link }
        ensures steady { Steadily S.start (L.wire result) }
    {
        let Lasting { link, .. } = self;
        link
    }
}

impl<L: Link, S: Start> Link for Lasting<L, S> {
    ghost wire = { λ lasting. L.wire lasting.link };

    fn read(&mut self, buffer: &mut [u8]) -> ReadStep {
        self.link.read(buffer)
    }

    fn write(&mut self, bytes: &[u8]) -> WriteStep {
        self.link.write(bytes)
    }

    fn close(&mut self) {
        self.link.close()
    }
}
