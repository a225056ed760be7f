// What the client is asked to do, by name.
ghost use Rattle.std.specs.Prelude.{◌≡◌, true, length, map, IfOk};
ghost use Rattle.cli_within.specs.Words.{IsOperation, takes, verb_named};

use cli_session::Operation;
use pvd_type::{Name, NoMemory};
use std::alloc::Global;

/// The operations, each named for the first argument that asks for it.
#[derive(Clone, Copy, Debug, PartialEq, Eq)]
pub enum Verb {
    Get,
    Put,
    PutGet,
    Monitor,
    Info,
    Call,
}

/// The numbers of a monitor.
#[derive(Clone, Copy, Debug, PartialEq, Eq)]
pub struct Numbers {
    /// How many updates are awaited.
    pub count: u32,
    /// How many updates the server is to keep.
    pub queue: u32,
    /// How many updates the server may send unacknowledged, where it is to wait for that.
    pub window: Option<u32>,
}

/// The operation of this name.
pub fn verb_named(name: &str) -> Option<Verb>
    ensures { result ≡ verb_named name.now }
{
    if name == "get" {
        return Some(Verb::Get);
    }
    if name == "put" {
        return Some(Verb::Put);
    }
    if name == "putget" {
        return Some(Verb::PutGet);
    }
    if name == "monitor" {
        return Some(Verb::Monitor);
    }
    if name == "info" {
        return Some(Verb::Info);
    }
    if name == "call" {
        return Some(Verb::Call);
    }
    None
}

impl Verb {
    /// Whether it takes so many values.
    pub fn takes(self, count: usize) -> bool
        ensures { result ≡ takes self count }
    {
        match self {
            Verb::Get | Verb::Monitor | Verb::Info => count == 0,
            Verb::Put | Verb::PutGet => count != 0,
            Verb::Call => count == 1,
        }
    }

    /// The operation with these values and, of a monitor, these numbers.
    pub fn operation(
        self,
        alloc: Global,
        values: &[&str],
        numbers: Numbers,
    ) -> Result<Operation, NoMemory>
        requires { takes self (length values.now) ≡ true }
        ensures { IfOk result (IsOperation self (map (λ v. v.now) values.now) numbers) }
    {
        match self {
            Verb::Get => Ok(Operation::Get),
            Verb::Put => Ok(Operation::Put(names_of(alloc, values)?)),
            Verb::PutGet => Ok(Operation::PutGet(names_of(alloc, values)?)),
            Verb::Monitor => Ok(Operation::Monitor {
                queue: numbers.queue,
                window: numbers.window,
                count: numbers.count,
            }),
            Verb::Info => Ok(Operation::Info),
            Verb::Call => Ok(Operation::Call(Name::of(alloc, values[0])?)),
        }
    }
}

/// Copies of these texts.
pub fn names_of(alloc: Global, texts: &[&str]) -> Result<Vec<Name>, NoMemory>
    ensures { IfOk result (λ names. names.items ≡ map (λ v. v.now) texts.now) }
{
    let mut names = Vec::new(alloc);
    for text in texts {
        names.push(Name::of(alloc, text)?)?;
    }
    Ok(names)
}
