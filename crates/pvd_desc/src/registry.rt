ghost use Rattle.std.specs.Prelude.{◌≡◌, ◌≤◌, ℕ, nat_eq, OnOk, OnErr, option_map};
ghost use Rattle.std.specs.Ordering.{nat_cmp};
ghost use Rattle.std.specs.FinMap as map;
ghost use Rattle.std.specs.HashMap as table;
ghost use Rattle.std.specs.BTreeMap as tree;
ghost use Rattle.std.specs.Arc.{arc_value};
ghost use Rattle.pvd_desc.specs.Shared.{first_of};
ghost use Rattle.pvd_desc.specs.Types.{laid};

use pvd_type::{NoMemory, PvType};
use std::alloc::Global;
use std::collections::{BTreeMap, HashMap};
use std::marker::Model;
use std::sync::Arc;

/// The types that one direction of a connection has defined under 16-bit ids (pvAccess Protocol
/// Specification, "Introspection Data").
#[derive(Drop)]
pub struct Registry {
    types: HashMap<u16, Arc<PvType, Global>>,
}

impl Model for Registry {
    ghost use Rattle.std.specs.Ordering.{nat_cmp};
    ghost use Rattle.std.specs.FinMap as map;
    ghost use Rattle.std.specs.Coded.{coded_ℕ};
    ghost use Rattle.pvd_type.specs.Tree.{Tree, coded_tree};
    ghost use Rattle.pvd_desc.specs.Shared.{shared};

    ghost Value = { map.FinMap nat_cmp Tree };

    ghost coded = { map.code coded_ℕ coded_tree };

    ghost view = { λ a. map.from_entries (shared a.types.entries) };
}

/// The types that a read has defined so far, which are put over those of the registry once the whole
/// is read. The ids of one chain of definitions share one type in memory.
#[derive(Drop)]
pub struct Definitions {
    types: BTreeMap<u16, Arc<PvType, Global>>,
}

impl Model for Definitions {
    ghost use Rattle.std.specs.Ordering.{nat_cmp};
    ghost use Rattle.std.specs.FinMap as map;
    ghost use Rattle.std.specs.Coded.{coded_ℕ};
    ghost use Rattle.pvd_type.specs.Tree.{Tree, coded_tree};
    ghost use Rattle.pvd_desc.specs.Shared.{shared};

    ghost Value = { map.FinMap nat_cmp Tree };

    ghost coded = { map.code coded_ℕ coded_tree };

    ghost view = { λ a. map.from_entries (shared a.types.entries) };
}

/// Puts each of these types under its id. There is room for all of them.
fn fill(types: &mut HashMap<u16, Arc<PvType, Global>>, defined: BTreeMap<u16, Arc<PvType, Global>>)
    requires { tree.btree_map_len defined ≤ table.spare types.old }
    ensures { (id : ℕ) → table.get nat_eq types.new id ≡ first_of (tree.get nat_cmp defined id) (table.get nat_eq types.old id) }
{
    let mut left = defined;
    while let Some((id, ty)) = left.pop_first() {
        match types.insert(id, ty) {
            Ok(_) => {}
            Err(_) => unreachable!(),
        }
    }
}

impl Registry {
    /// A registry without types. It takes no memory.
    pub fn new(alloc: Global) -> Registry
        ensures { result ≡ map.empty }
    {
        Registry {
            types: HashMap::new(alloc),
        }
    }

    /// The type under an id.
    pub fn get(&self, id: u16) -> Option<&PvType>
        ensures { option_map (λ ty. ty.now) result ≡ map.get self.now id }
    {
        match self.types.get(&id) {
            Some(ty) => Some(ty),
            None => None,
        }
    }

    /// Puts what a read has defined over what was there. Without memory all is as before.
    pub fn commit(&mut self, defined: Definitions) -> Result<(), NoMemory>
        ensures ok { OnOk result (self.new ≡ laid self.old defined) }
        ensures err { OnErr result (self.new ≡ self.old) }
    {
        let Definitions { types } = defined;
        self.types.reserve(types.len())?;
        fill(&mut self.types, types);
        Ok(())
    }
}

impl Definitions {
    /// No definitions.
    pub fn new(alloc: Global) -> Definitions
        ensures { result ≡ map.empty }
    {
        Definitions {
            types: BTreeMap::new(alloc),
        }
    }

    /// The type under an id.
    pub fn get(&self, id: u16) -> Option<&PvType>
        ensures { option_map (λ ty. ty.now) result ≡ map.get self.now id }
    {
        match self.types.get(&id) {
            Some(ty) => Some(ty),
            None => None,
        }
    }

    /// Puts a type under an id, in the place of the one that was there.
    pub fn define(&mut self, id: u16, ty: &Arc<PvType, Global>) -> Result<(), NoMemory>
        ensures ok { OnOk result (self.new ≡ map.insert self.old id (arc_value ty.now)) }
        ensures err { OnErr result (self.new ≡ self.old) }
    {
        let ty = Arc::try_clone(ty)?;
        self.types.insert(id, ty)?;
        Ok(())
    }
}
