// Lists that mostly have one element.
ghost use Rattle.std.specs.Prelude.{◌≡◌, [], ◌∷◌, ◌++◌, length, IfOk, OnOk};
ghost use Rattle.journal_core.specs.Few.{elements};

use rec_kinds::NoMemory;
use std::alloc::Global;
use std::marker::Model;

/// What a short list holds.
#[derive(Debug, Drop)]
enum Held<T> {
    /// One element, in the value itself.
    One([T; 1]),
    /// Any number of elements, in memory of their own.
    Many(Vec<T>),
}

/// A list that owns its elements. One element alone stands in the value itself and takes no memory of its own. A contract sees the
/// list alone.
#[derive(Debug, Drop)]
pub struct Few<T> {
    held: Held<T>,
}

impl<T> Model for Few<T> {
    ghost use Rattle.std.specs.Prelude.{List};
    ghost use Rattle.journal_core.specs.Few.{elements};

    ghost Value = { List T };

    ghost view = { λ a. elements a.held };
}

impl<T> Few<T> {
    /// The empty list. It takes no memory.
    pub fn new(alloc: Global) -> Few<T>
        ensures { result ≡ [] }
    {
        Few {
            held: Held::Many(Vec::new(alloc)),
        }
    }
}

impl<T: Drop> Few<T> {
    /// The list of these elements. It takes no memory, and gives back that of one element.
    pub fn from_vec(items: Vec<T>) -> Few<T>
        ensures { result ≡ items.items }
    {
        let mut items = items;
        if items.len() != 1 {
            return Few {
                held: Held::Many(items),
            };
        }
        match items.pop() {
            Some(only) => Few {
                held: Held::One([only]),
            },
            None => Few {
                held: Held::Many(items),
            },
        }
    }

    /// Adds an element at the end. The first takes no memory. Where there is none for a further one, nothing is said of the list.
    pub fn push(&mut self, alloc: Global, item: T) -> Result<(), NoMemory>
        ensures { OnOk result (self.new ≡ self.old ++ item ∷ []) }
    {
        if self.len() == 0 {
            self.held = Held::One([item]);
            return Ok(());
        }
        let held = std::mem::replace(&mut self.held, Held::Many(Vec::new(alloc)));
        let mut items = vec_of(alloc, held)?;
        items.push(item)?;
        self.held = Held::Many(items);
        Ok(())
    }
}

/// What is held, in memory of its own.
fn vec_of<T: Drop>(alloc: Global, held: Held<T>) -> Result<Vec<T>, NoMemory>
    ensures { IfOk result (λ items. items.items ≡ elements held) }
{
    match held {
        Held::One([only]) => Ok(vec![in alloc; only]?),
        Held::Many(items) => Ok(items),
    }
}

impl<T> Few<T> {
    /// The elements.
    pub fn as_slice(&self) -> &[T]
        ensures { result.now ≡ self.now }
    {
        match &self.held {
            Held::One(only) => only,
            Held::Many(items) => items.as_slice(),
        }
    }

    /// The number of elements.
    pub fn len(&self) -> usize
        ensures { result ≡ length self.now }
    {
        self.as_slice().len()
    }
}
