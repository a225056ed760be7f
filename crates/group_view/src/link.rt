// The record that a member of a group is about.
ghost use Rattle.std.specs.Prelude.{◌≡◌, IfOk};
ghost use Rattle.std.specs.Arc.{arc_value};

use pvd_type::NoMemory;
use rec_kinds::RecConfig;
use std::marker::Model;
use std::sync::Arc;

/// A record that a member is about: its number, and how it is configured. Copies share the configuration.
#[derive(Drop)]
pub(crate) struct Linked {
    rec: u32,
    config: Arc<RecConfig>,
}

impl Model for Linked {
    ghost use Rattle.group_view.specs.Links.{Link};

    ghost Value = { Link };

    ghost view = { λ l. record { rec = l.rec; config = l.config.value } };
}

impl Linked {
    /// The record of this number, so configured.
    pub fn of(rec: u32, config: &Arc<RecConfig>) -> Result<Linked, NoMemory>
        ensures { IfOk result (λ link. link ≡ record { rec = rec; config = arc_value config.now }) }
    {
        Ok(Linked {
            rec,
            config: Arc::try_clone(config)?,
        })
    }

    /// The same link. It shares the configuration.
    pub fn share(&self) -> Result<Linked, NoMemory>
        ensures { IfOk result (λ link. link ≡ self.now) }
    {
        Linked::of(self.rec, &self.config)
    }

    /// The record's number.
    pub fn rec(&self) -> u32
        ensures { result ≡ self.now.rec }
    {
        self.rec
    }

    /// How the record is configured.
    pub fn config(&self) -> &RecConfig
        ensures { result.now ≡ self.now.config }
    {
        &self.config
    }
}
