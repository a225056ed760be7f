// Texts and lists whose copies share what they hold.
ghost use Rattle.std.specs.Prelude.{◌≡◌, IfOk, length};

use pvd_type::{Name, NoMemory};
use std::alloc::Global;
use std::marker::Model;
use std::sync::Arc;

/// A text whose copies share its bytes. A contract sees the bytes alone.
#[derive(Debug, Drop)]
pub struct SharedText {
    text: Arc<Name>,
}

/// A list whose copies share its elements. A contract sees the list alone.
#[derive(Debug, Drop)]
pub struct SharedItems<T> {
    items: Arc<Vec<T>>,
}

impl Model for SharedText {
    ghost use Rattle.std.specs.Prelude.{ℕ, List};

    ghost Value = { List ℕ };

    ghost view = { λ a. a.text.value };
}

impl<T> Model for SharedItems<T> {
    ghost use Rattle.std.specs.Prelude.{List};

    ghost Value = { List T };

    ghost view = { λ a. a.items.value.items };
}

impl SharedText {
    /// A copy of this text, to be shared.
    pub fn of(alloc: Global, text: &str) -> Result<SharedText, NoMemory>
        ensures { IfOk result (λ shared. shared ≡ text.now) }
    {
        let text = Name::of(alloc, text)?;
        Ok(SharedText {
            text: Arc::new(alloc, text)?,
        })
    }

    /// The text.
    pub fn as_str(&self) -> &str
        ensures { result.now ≡ self.now }
    {
        self.text.as_str()
    }

    /// The same text, which takes no memory: `NoMemory` is answered only where 2^63 - 1 texts share it.
    pub fn share(&self) -> Result<SharedText, NoMemory>
        ensures { IfOk result (λ shared. shared ≡ self.now) }
    {
        Ok(SharedText {
            text: Arc::try_clone(&self.text)?,
        })
    }
}

impl<T: Drop> SharedItems<T> {
    /// The list of these elements, to be shared. It copies none of them.
    pub fn of(alloc: Global, items: Vec<T>) -> Result<SharedItems<T>, NoMemory>
        ensures { IfOk result (λ shared. shared ≡ items.items) }
    {
        Ok(SharedItems {
            items: Arc::new(alloc, items)?,
        })
    }

    /// The elements.
    pub fn as_slice(&self) -> &[T]
        ensures { result.now ≡ self.now }
    {
        self.items.as_slice()
    }

    /// The number of elements.
    pub fn len(&self) -> usize
        ensures { result ≡ length self.now }
    {
        self.items.len()
    }

    /// The same list, which takes no memory: `NoMemory` is answered only where 2^63 - 1 lists share it.
    pub fn share(&self) -> Result<SharedItems<T>, NoMemory>
        ensures { IfOk result (λ shared. shared ≡ self.now) }
    {
        Ok(SharedItems {
            items: Arc::try_clone(&self.items)?,
        })
    }
}
