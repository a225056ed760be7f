ghost use Rattle.std.specs.Prelude.{◌≡◌, ◌++◌, Some, IfOk, OnOk, OnErr};
ghost use Rattle.pva_wire.specs.Reading.{Gives};
ghost use Rattle.pva_wire.specs.Status.{good, kind_of, kind_code, is_plain, spelled_out, canonical_status, CanStatus, parts_at, status_at};

use crate::fault::{Cause, Stop};
use crate::order::Order;
use crate::reading::str_at;
use crate::writing::write_text;
use pvd_type::{Name, NoMemory};
use std::alloc::Global;

/// How an operation went (pvAccess Protocol Specification, "Status").
#[derive(Clone, Copy, Debug, PartialEq, Eq)]
pub enum StatusKind {
    /// It was done (OK).
    Good,
    /// It was done, and there is something to tell (WARNING).
    Warning,
    /// It was not done (ERROR).
    Error,
    /// It was not done, and its object can't be used any more (FATAL).
    Fatal,
}

/// The outcome of an operation, for its reply (pvAccess Protocol Specification, "Status").
#[derive(Drop)]
pub struct Status {
    /// How it went.
    pub kind: StatusKind,
    /// What there is to tell, for people.
    pub message: Name,
    /// Where in the program it came about; may be empty.
    pub tree: Name,
}

impl Status {
    /// OK without texts.
    pub fn good(alloc: Global) -> Result<Status, NoMemory>
        ensures { IfOk result (λ status. status ≡ good) }
    {
        status_of(alloc, StatusKind::Good, "", "")
    }
}

/// The kind that a first byte stands for.
#[tactic(auto, unfolding(crate::specs::Status::kind_of))]
fn kind_of(code: u8) -> Option<StatusKind>
    ensures { result ≡ kind_of code }
{
    match code {
        0 => Some(StatusKind::Good),
        1 => Some(StatusKind::Warning),
        2 => Some(StatusKind::Error),
        3 => Some(StatusKind::Fatal),
        _ => None,
    }
}

/// The first byte of a kind that is written with its texts.
fn kind_code(kind: StatusKind) -> u8
    ensures { result ≡ kind_code kind }
{
    match kind {
        StatusKind::Good => 0,
        StatusKind::Warning => 1,
        StatusKind::Error => 2,
        StatusKind::Fatal => 3,
    }
}

/// A status of this kind with copies of these texts.
fn status_of(alloc: Global, kind: StatusKind, message: &str, tree: &str) -> Result<Status, NoMemory>
    ensures { IfOk result (λ status. status ≡ record { kind = kind; message = message.now; tree = tree.now }) }
{
    Ok(Status {
        kind,
        message: Name::of(alloc, message)?,
        tree: Name::of(alloc, tree)?,
    })
}

/// A status of this kind, whose texts are read, and what follows them.
fn told_at(
    alloc: Global,
    order: Order,
    kind: StatusKind,
    bytes: &[u8],
) -> Result<(Status, &[u8]), Stop>
    ensures { Gives (λ x. (x.0, x.1.now)) result (parts_at order 0 (Some kind) bytes.now) }
{
    let (message, rest) = str_at(order, bytes)?;
    let (tree, rest) = str_at(order, rest)?;
    Ok((status_of(alloc, kind, message, tree)?, rest))
}

/// A status and what follows it. Range, at its first byte, where that is none of 0, 1, 2, 3 and 255;
/// else the first fault of its texts.
#[tactic(auto, unfolding(crate::specs::Status::status_at))]
pub fn status_at(alloc: Global, order: Order, bytes: &[u8]) -> Result<(Status, &[u8]), Stop>
    ensures { Gives (λ x. (x.0, x.1.now)) result (status_at order bytes.now) }
{
    let [code, rest @ ..] = bytes else {
        return Err(Stop::Fault(Cause::Short, 0));
    };
    if *code == 255 {
        return Ok((Status::good(alloc)?, rest));
    }
    match kind_of(*code) {
        Some(kind) => told_at(alloc, order, kind, rest),
        None => Err(Stop::Fault(Cause::Range, bytes.len())),
    }
}

/// Appends the first byte of a kind and the two texts, or a part of them.
fn put_parts(out: &mut Vec<u8>, order: Order, status: &Status) -> Result<(), NoMemory>
    ensures written { OnOk result (out.new.items ≡ out.old.items ++ spelled_out order status.now) }
    ensures spelled { OnOk result (CanStatus status.now) }
{
    out.push(kind_code(status.kind))?;
    write_text(out, order, &status.message)?;
    write_text(out, order, &status.tree)
}

/// Whether a status is OK without texts.
fn is_plain(status: &Status) -> bool
    ensures { result ≡ is_plain status.now }
{
    match status.kind {
        StatusKind::Good => {
            status.message.as_str().is_empty() && status.tree.as_str().is_empty()
        }
        _ => false,
    }
}

/// Appends the one spelling of a status that is written: one byte for OK without texts, else the kind
/// and both texts. A text of more than 2^31-2 bytes has no spelling: it is NoMemory. After a refusal
/// `out` is as before.
pub fn write_status(out: &mut Vec<u8>, order: Order, status: &Status) -> Result<(), NoMemory>
    ensures ok { OnOk result (out.new.items ≡ out.old.items ++ canonical_status order status.now) }
    ensures spelled { OnOk result (CanStatus status.now) }
    ensures err { OnErr result (out.new.items ≡ out.old.items) }
{
    if is_plain(status) {
        out.push(255)?;
        return Ok(());
    }
    let mut bytes = Vec::new(*out.allocator());
    put_parts(&mut bytes, order, status)?;
    out.extend_from_slice(&bytes)?;
    Ok(())
}
