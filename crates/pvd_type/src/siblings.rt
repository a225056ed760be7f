ghost use Rattle.std.specs.Prelude.{◌≡◌, ◌++◌, ◌∷◌, []};
ghost use Rattle.pvd_type.specs.View.{names_of};
ghost use Rattle.pvd_type.specs.Check.{contains};
ghost use Rattle.pvd_type.specs.Siblings.{knows};

use crate::shape::Member;
use std::alloc::Global;
use std::collections::BTreeSet;

/// The names of the members that stand before one in its node, kept in order, so that a name is compared with few of them.
/// Where memory runs out for that, each name is compared with all before it.
#[derive(Drop)]
pub struct Siblings<'a> {
    names: Option<BTreeSet<&'a [u8]>>,
}

impl<'a> Siblings<'a> {
    /// No names. It takes no memory.
    pub fn new(alloc: Global) -> Siblings<'a>
        ensures { knows result [] }
    {
        Siblings {
            names: Some(BTreeSet::new(alloc)),
        }
    }

    /// Adds a name, and says whether it stood there before. The members are those whose names were added.
    pub fn add(&mut self, name: &'a [u8], before: &[Member]) -> bool
        requires { knows self.old (names_of before.now) }
        ensures found { result ≡ contains name.now (names_of before.now) }
        ensures known { knows self.new (names_of before.now ++ name.now ∷ []) }
    {
        let Some(mut names) = std::mem::replace(&mut self.names, None) else {
            return is_name(name, before);
        };
        match names.insert(name) {
            Ok(added) => {
                self.names = Some(names);
                !added
            }
            Err(_) => is_name(name, before),
        }
    }
}

/// Whether a member has this name.
pub fn is_name(name: &[u8], before: &[Member]) -> bool
    ensures { result ≡ contains name.now (names_of before.now) }
{
    for member in before {
        if name == member.name.as_str().as_bytes() {
            return true;
        }
    }
    false
}
