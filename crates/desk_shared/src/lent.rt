// A port that stands with its record.
ghost use Rattle.std.specs.Prelude.{◌≡◌};

use pva_outside::{DriveStep, Port};

/// The place of a port. It stands in the cell of its record, and is handed to the desk that has the cell in hand; in the meantime, and
/// where a record has no port, nothing stands there.
#[derive(Drop)]
pub enum LentPort<P> {
    /// No port is here.
    Away,
    /// The port.
    Here(P),
}

impl<P: Port> Port for LentPort<P> {
    ghost use Rattle.desk_shared.specs.Lent.{lent_port};

    ghost port = { lent_port P.port };

    /// Drives the port that is here. Nothing is driven where none is, and nothing is seen of that.
    fn drive(&mut self, text: &[u8]) -> DriveStep {
        match self {
            LentPort::Away => DriveStep::Drove,
            LentPort::Here(port) => port.drive(text),
        }
    }
}
