use crate::given::{discard, fields};
use pvd_type::NoMemory;
use rec_kinds::{Kind, RecConfig, build, field_known, kind_named};
use std::alloc::Global;
use std::test::Fail;

/// The texts of a configuration.
fn texts_of(alloc: Global, config: &RecConfig) -> Result<String, NoMemory> {
    let desc = config.desc();
    let port = config.port().unwrap_or("no port");
    let words = format!(in alloc; "{desc} {port}")?;
    Ok(words)
}

/// The texts, the drive limits, NELM, DISP and the number of choices of a longout of these fields.
fn configured(
    alloc: Global,
    given: &str,
) -> Result<(String, (i64, i64), u32, bool, usize), NoMemory> {
    let fields = fields(alloc, given)?;
    match build(alloc, Kind::Longout, fields.as_slice()) {
        Ok((config, state)) => {
            let texts = texts_of(alloc, &config);
            let limits = (config.drvl(), config.drvh());
            let (nelm, disabled) = (config.nelm(), config.is_disabled());
            let choices = config.choices().len();
            discard((config, state));
            Ok((texts?, limits, nelm, disabled, choices))
        }
        Err(fault) => {
            discard(fault);
            Err(NoMemory)
        }
    }
}

#[test]
fn configurations_tell_their_fields(rt: HostRuntime) -> Result<(), Fail> {
    let given = "DESC=Position;DTYP=File;OUT=@file out.txt;DRVH=10;DRVL=-10;DISP=1;LOPR=unread";
    let (texts, limits, nelm, disabled, choices) = configured(rt.alloc(), given)?;
    assert_eq!(rt; texts.as_str(), "Position out.txt");
    assert_eq!(rt; limits, (-10, 10));
    assert_eq!(rt; (nelm, disabled, choices), (1, true, 0));
    Ok(())
}

#[test]
fn kinds_and_their_fields_are_known_by_name(rt: HostRuntime) {
    assert_eq!(rt; kind_named("mbbo"), Some(Kind::Mbbo));
    assert_eq!(rt; kind_named("ai"), None);
    assert!(rt; field_known(Kind::Longout, "DRVH"));
    assert!(rt; !field_known(Kind::Longin, "DRVH"));
    assert!(rt; field_known(Kind::Longin, "FTVL"));
    assert!(rt; !field_known(Kind::Waveform, "VAL"));
    assert!(rt; field_known(Kind::Bo, "HIGH"));
    assert!(rt; !field_known(Kind::Bi, "HIGH"));
}
