//! The members of a class by their names.
ghost use Rattle.std.specs.Prelude.{◌≡◌, ◌++◌, ◌∷◌, [], IfOk, OnOk};
ghost use Rattle.py_base.specs.declared.ids.NameId.{NameId};
ghost use Rattle.class_rows.specs.Rows.{symbol_in};

use py_base::{NameId, NoMemory, SymId};
use std::alloc::Global;
use std::collections::BTreeMap;

/// The symbol of a name, and `None` exactly where it has none.
pub(crate) fn find(map: &BTreeMap<NameId, SymId>, name: NameId) -> Option<SymId>
    ensures { result ≡ symbol_in name map.now.entries }
{
    map.get(&name).copied()
}

/// Adds a symbol for a name, where it has none yet. After `NoMemory` the map is not to be used.
fn add_first(map: &mut BTreeMap<NameId, SymId>, name: NameId, symbol: SymId) -> Result<(), NoMemory>
    ensures { OnOk result ((n : NameId) → symbol_in n map.new.entries ≡ symbol_in n (map.old.entries ++ (name, symbol) ∷ [])) }
{
    if find(map, name).is_some() {
        return Ok(());
    }
    match map.insert(name, symbol) {
        Ok(_) => Ok(()),
        Err(_) => Err(NoMemory),
    }
}

/// The symbol of each name. Where a name comes twice, its first symbol counts. `NoMemory` where
/// the map could not be stored.
pub(crate) fn by_name(
    alloc: Global,
    members: &[(NameId, SymId)],
) -> Result<BTreeMap<NameId, SymId>, NoMemory>
    ensures { IfOk result (λ map. (name : NameId) → symbol_in name map.entries ≡ symbol_in name members.now) }
{
    let mut map = BTreeMap::new(alloc);
    for (name, symbol) in members {
        add_first(&mut map, *name, *symbol)?;
    }
    Ok(map)
}
