// How a record is configured.
ghost use Rattle.std.specs.Prelude.{◌≡◌};
ghost use Rattle.std.specs.Option.{option_copied};

use crate::element::Element;
use crate::items::Items;
use crate::kind::Kind;
use crate::severity::Severity;
use pvd_type::Name;
use std::marker::Model;

/// The configuration of a record. [`crate::build`] makes it of the fields that a text gives.
#[derive(Debug, Drop)]
pub struct RecConfig {
    pub(crate) kind: Kind,
    pub(crate) desc: Name,
    pub(crate) disabled: bool,
    pub(crate) port: Option<Name>,
    pub(crate) limits: Limits,
    pub(crate) drvh: i64,
    pub(crate) drvl: i64,
    pub(crate) choices: Items<Name>,
    pub(crate) severities: Items<Severity>,
    pub(crate) ftvl: Element,
    pub(crate) nelm: u32,
}

/// The limits of a number and the severities beyond them.
#[derive(Clone, Copy, Debug)]
pub(crate) struct Limits {
    pub(crate) hihi: i64,
    pub(crate) high: i64,
    pub(crate) low: i64,
    pub(crate) lolo: i64,
    pub(crate) hhsv: Severity,
    pub(crate) hsv: Severity,
    pub(crate) lsv: Severity,
    pub(crate) llsv: Severity,
}

impl Model for RecConfig {
    ghost use Rattle.rec_kinds.specs.Configs.{Config};

    ghost Value = { Config };

    ghost view = { λ c. record { kind = c.kind; desc = c.desc; disabled = c.disabled; port = c.port; hihi = c.limits.hihi; high = c.limits.high; low = c.limits.low; lolo = c.limits.lolo; hhsv = c.limits.hhsv; hsv = c.limits.hsv; lsv = c.limits.lsv; llsv = c.limits.llsv; drvh = c.drvh; drvl = c.drvl; choices = c.choices; severities = c.severities; ftvl = c.ftvl; nelm = c.nelm } };
}

impl RecConfig {
    /// Its kind.
    pub fn kind(&self) -> Kind
        ensures { result ≡ self.now.kind }
    {
        self.kind
    }

    /// What it is, in at most 40 bytes: its field DESC.
    pub fn desc(&self) -> &str
        ensures { result.now ≡ self.now.desc }
    {
        self.desc.as_str()
    }

    /// Whether puts are refused: whether its field DISP is 1.
    pub fn is_disabled(&self) -> bool
        ensures { result ≡ self.now.disabled }
    {
        self.disabled
    }

    /// The path of its port, where it has one: what stands after `@file` in OUT, where DTYP is `File`.
    pub fn port(&self) -> Option<&str>
        ensures { option_copied result ≡ self.now.port }
    {
        match &self.port {
            Some(path) => Some(path.as_str()),
            None => None,
        }
    }

    /// The limit at or above which a number has the severity HHSV.
    pub fn hihi(&self) -> i64
        ensures { result ≡ self.now.hihi }
    {
        self.limits.hihi
    }

    /// The limit at or above which a number has the severity HSV.
    pub fn high(&self) -> i64
        ensures { result ≡ self.now.high }
    {
        self.limits.high
    }

    /// The limit at or below which a number has the severity LSV.
    pub fn low(&self) -> i64
        ensures { result ≡ self.now.low }
    {
        self.limits.low
    }

    /// The limit at or below which a number has the severity LLSV.
    pub fn lolo(&self) -> i64
        ensures { result ≡ self.now.lolo }
    {
        self.limits.lolo
    }

    /// The severity of a number at or above HIHI.
    pub fn hhsv(&self) -> Severity
        ensures { result ≡ self.now.hhsv }
    {
        self.limits.hhsv
    }

    /// The severity of a number at or above HIGH.
    pub fn hsv(&self) -> Severity
        ensures { result ≡ self.now.hsv }
    {
        self.limits.hsv
    }

    /// The severity of a number at or below LOW.
    pub fn lsv(&self) -> Severity
        ensures { result ≡ self.now.lsv }
    {
        self.limits.lsv
    }

    /// The severity of a number at or below LOLO.
    pub fn llsv(&self) -> Severity
        ensures { result ≡ self.now.llsv }
    {
        self.limits.llsv
    }

    /// The greatest number that a put sets, where it is above DRVL.
    pub fn drvh(&self) -> i64
        ensures { result ≡ self.now.drvh }
    {
        self.drvh
    }

    /// The least number that a put sets, where it is below DRVH.
    pub fn drvl(&self) -> i64
        ensures { result ≡ self.now.drvl }
    {
        self.drvl
    }

    /// The texts of its choices, by their indices.
    pub fn choices(&self) -> &[Name]
        ensures { result.now ≡ self.now.choices }
    {
        self.choices.as_slice()
    }

    /// The severities of its choices, by their indices.
    pub fn severities(&self) -> &[Severity]
        ensures { result.now ≡ self.now.severities }
    {
        self.severities.as_slice()
    }

    /// The type of a waveform's elements.
    pub fn ftvl(&self) -> Element
        ensures { result ≡ self.now.ftvl }
    {
        self.ftvl
    }

    /// How many elements a waveform has at most, from 1 to 16,384.
    pub fn nelm(&self) -> u32
        ensures { result ≡ self.now.nelm }
    {
        self.nelm
    }
}
