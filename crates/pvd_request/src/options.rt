// The options of a request.
ghost use Rattle.std.specs.Prelude.{◌≡◌, true, pos, min, option_map, Some, None, IfSome, if◌then◌else◌};
ghost use Rattle.std.specs.Str.Parse.{digits_value};
ghost use Rattle.std.specs.Option.{option_copied};
ghost use Rattle.pvd_value.specs.View.{view};
ghost use Rattle.pvd_value.specs.Fits.{fits_of};
ghost use Rattle.pvd_request.specs.Options as spec;
ghost use Rattle.pvd_request.specs.Options.{are_digits};
ghost use Rattle.pvd_request.specs.Requests.{shown, Gives};
ghost use Rattle.pvd_request.specs.Given.{given_view};

use crate::request::RequestFault;
use pvd_type::{Name, PvType};
use pvd_value::{PvValue, leaf};
use std::alloc::Global;

/// What the options of a request say.
#[derive(Clone, Copy)]
pub(crate) struct Options {
    pub queue: u32,
    pub atomic: Option<bool>,
    pub pipeline: bool,
}

/// How many updates a queue holds, unless a request says otherwise.
const QUEUE: u32 = 4;

/// The option with this path, where the request has one: its value, and none for a structure.
fn option_in<'a>(request: Option<&'a (PvType, PvValue)>, path: &str) -> Option<Option<&'a PvValue>>
    requires { IfSome request (λ r. fits_of 16 (view r.now.1) r.now.0 ≡ true) }
    ensures { given_view result ≡ spec.option_in (shown (option_copied request.entry)) path.now }
{
    let (ty, value) = request?;
    let number = ty.number_of(path)?;
    Some(leaf(value, ty, number))
}

/// The number that digits write, or 64 where it is greater; none where there is no digit, or another byte.
fn up_to_64(digits: &[u8]) -> Option<u32>
    ensures { result ≡ (if are_digits digits.now then Some (min 64 (digits_value 10 digits.now)) else None) }
{
    if digits.is_empty() {
        return None;
    }
    let mut number = 0;
    for digit in digits {
        if !digit.is_ascii_digit() {
            return None;
        }
        number = (number * 10 + u32::from(*digit - b'0')).min(64);
    }
    Some(number)
}

/// The size of a queue that a text writes.
fn queue_of_text(text: &str) -> Option<u32>
    ensures { result ≡ spec.queue_of_text text.now }
{
    match text.as_bytes() {
        // a number with a `-` is below 1
        [b'-', digits @ ..] => up_to_64(digits).map(|_| 1),
        digits => up_to_64(digits).map(|size| size.max(1)),
    }
}

/// The size of a queue that a signed number asks for.
fn signed_size(number: i64) -> u32
    ensures { result ≡ spec.queue_size number }
{
    number.clamp(1, 64) as u32
}

/// The size of a queue that a number without a sign asks for.
fn unsigned_size(number: u64) -> u32
    ensures { result ≡ spec.queue_size (pos number) }
{
    number.min(64).max(1) as u32
}

/// The size of a queue that a value asks for: a whole number of any type, or a text that writes one.
fn queue_of(value: &PvValue) -> Option<u32>
    ensures { result ≡ spec.queue_of (view value.now) }
{
    match value {
        PvValue::I8(number) => Some(signed_size(i64::from(*number))),
        PvValue::I16(number) => Some(signed_size(i64::from(*number))),
        PvValue::I32(number) => Some(signed_size(i64::from(*number))),
        PvValue::I64(number) => Some(signed_size(*number)),
        PvValue::U8(number) => Some(unsigned_size(u64::from(*number))),
        PvValue::U16(number) => Some(unsigned_size(u64::from(*number))),
        PvValue::U32(number) => Some(unsigned_size(u64::from(*number))),
        PvValue::U64(number) => Some(unsigned_size(*number)),
        PvValue::Text(text) => queue_of_text(text.as_str()),
        PvValue::Bool(_) | PvValue::F32(_) | PvValue::F64(_) => None,
        PvValue::List(_) | PvValue::Struct(_) | PvValue::Union(_) | PvValue::Variant(_) => None,
        PvValue::StructList(_) | PvValue::UnionList(_) | PvValue::VariantList(_) => None,
    }
}

/// The truth that a text says.
fn truth_of_text(text: &str) -> Option<bool>
    ensures { result ≡ spec.truth_of_text text.now }
{
    if text == "true" {
        return Some(true);
    }
    if text == "false" {
        return Some(false);
    }
    None
}

/// The truth that a value says: a boolean, or one of two texts.
fn truth_of(value: &PvValue) -> Option<bool>
    ensures { result ≡ spec.truth_of (view value.now) }
{
    match value {
        PvValue::Bool(truth) => Some(*truth),
        PvValue::Text(text) => truth_of_text(text.as_str()),
        PvValue::I8(_) | PvValue::I16(_) | PvValue::I32(_) | PvValue::I64(_) => None,
        PvValue::U8(_) | PvValue::U16(_) | PvValue::U32(_) | PvValue::U64(_) => None,
        PvValue::F32(_) | PvValue::F64(_) => None,
        PvValue::List(_) | PvValue::Struct(_) | PvValue::Union(_) | PvValue::Variant(_) => None,
        PvValue::StructList(_) | PvValue::UnionList(_) | PvValue::VariantList(_) => None,
    }
}

/// The size of a queue by its option; none where that is bad.
fn queue_given(given: Option<Option<&PvValue>>) -> Option<u32>
    ensures { result ≡ spec.read_or 4 spec.queue_of (given_view given.entry) }
{
    match given {
        Some(Some(value)) => queue_of(value),
        Some(None) => None,
        None => Some(QUEUE),
    }
}

/// A truth by its option, if that is given; none where it is bad.
fn truth_given(given: Option<Option<&PvValue>>) -> Option<Option<bool>>
    ensures { result ≡ spec.truth_given (given_view given.entry) }
{
    match given {
        Some(Some(value)) => truth_of(value).map(Some),
        Some(None) => None,
        None => Some(None),
    }
}

/// The size of a monitor's queue, 1 to 64; none where the option is bad.
fn queue_in(request: Option<&(PvType, PvValue)>) -> Option<u32>
    requires { IfSome request (λ r. fits_of 16 (view r.now.1) r.now.0 ≡ true) }
    ensures { result ≡ spec.queue_in (shown (option_copied request.entry)) }
{
    queue_given(option_in(request, "record._options.queueSize"))
}

/// Whether all members of a group are read or written at once, where the request says so; none where the option is bad.
fn atomic_in(request: Option<&(PvType, PvValue)>) -> Option<Option<bool>>
    requires { IfSome request (λ r. fits_of 16 (view r.now.1) r.now.0 ≡ true) }
    ensures { result ≡ spec.atomic_in (shown (option_copied request.entry)) }
{
    truth_given(option_in(request, "record._options.atomic"))
}

/// Whether a monitor waits for acknowledgements, where the request says so; none where the option is bad.
fn pipeline_in(request: Option<&(PvType, PvValue)>) -> Option<Option<bool>>
    requires { IfSome request (λ r. fits_of 16 (view r.now.1) r.now.0 ≡ true) }
    ensures { result ≡ spec.pipeline_in (shown (option_copied request.entry)) }
{
    truth_given(option_in(request, "record._options.pipeline"))
}

/// The options of a request; the first that is bad is answered.
pub(crate) fn options_in(
    alloc: Global,
    request: Option<&(PvType, PvValue)>,
) -> Result<Options, RequestFault>
    requires { IfSome request (λ r. fits_of 16 (view r.now.1) r.now.0 ≡ true) }
    ensures { Gives result (spec.options_in (shown (option_copied request.entry))) }
{
    let Some(queue) = queue_in(request) else {
        return Err(RequestFault::BadOption(Name::of(alloc, "queueSize")?));
    };
    let Some(atomic) = atomic_in(request) else {
        return Err(RequestFault::BadOption(Name::of(alloc, "atomic")?));
    };
    let Some(pipeline) = pipeline_in(request) else {
        return Err(RequestFault::BadOption(Name::of(alloc, "pipeline")?));
    };
    Ok(Options {
        queue,
        atomic,
        pipeline: pipeline.unwrap_or(false),
    })
}
