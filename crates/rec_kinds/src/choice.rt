// The fields of a record's choices.
ghost use Rattle.std.specs.Prelude.{◌≡◌, length, map};
ghost use Rattle.rec_kinds.specs.ChoiceFields.{choice_names, severity_names};

use crate::kind::Kind;

const TWO_CHOICES: [&str; 2] = ["ZNAM", "ONAM"];

const TWO_SEVERITIES: [&str; 2] = ["ZSV", "OSV"];

const SIXTEEN_CHOICES: [&str; 16] = [
    "ZRST", "ONST", "TWST", "THST", "FRST", "FVST", "SXST", "SVST", "EIST", "NIST", "TEST", "ELST",
    "TVST", "TTST", "FTST", "FFST",
];

const SIXTEEN_SEVERITIES: [&str; 16] = [
    "ZRSV", "ONSV", "TWSV", "THSV", "FRSV", "FVSV", "SXSV", "SVSV", "EISV", "NISV", "TESV", "ELSV",
    "TVSV", "TTSV", "FTSV", "FFSV",
];

/// The fields of a kind's choices.
pub(crate) fn choice_fields(kind: Kind) -> &'static [&'static str]
    ensures names { map (λ name. name.now) result.now ≡ choice_names kind }
    ensures len { length result.now ≡ length (choice_names kind) }
{
    match kind {
        Kind::Bi | Kind::Bo => &TWO_CHOICES,
        Kind::Mbbi | Kind::Mbbo => &SIXTEEN_CHOICES,
        Kind::Longin | Kind::Longout | Kind::Int64in | Kind::Int64out => &[],
        Kind::Stringin | Kind::Stringout | Kind::Waveform => &[],
    }
}

/// The fields of the severities of a kind's choices.
pub(crate) fn severity_fields(kind: Kind) -> &'static [&'static str]
    ensures { map (λ name. name.now) result.now ≡ severity_names kind }
{
    match kind {
        Kind::Bi | Kind::Bo => &TWO_SEVERITIES,
        Kind::Mbbi | Kind::Mbbo => &SIXTEEN_SEVERITIES,
        Kind::Longin | Kind::Longout | Kind::Int64in | Kind::Int64out => &[],
        Kind::Stringin | Kind::Stringout | Kind::Waveform => &[],
    }
}
