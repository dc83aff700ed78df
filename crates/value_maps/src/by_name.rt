// Maps from names.
ghost use Rattle.std.specs.Prelude.{◌≡◌, ◌++◌, ◌∷◌, [], ◌||◌, List, ℕ, OnOk, OnErr, IfOk, Some, None, true, is_some, if◌then◌else◌, bytes_eq};
ghost use Rattle.std.specs.BTreeMap.{get_by_text, IsOrdered};
ghost use Rattle.std.specs.Map.{update};
ghost use Rattle.std.specs.String.{string_cmp};
ghost use Rattle.value_maps.specs.Picked.{picked};

use std::alloc::Global;
use std::collections::BTreeMap;
use tree_model::{Mem, Text, Texts};

/// Puts a value at a name. Where memory is wanting, all is found as before.
pub fn put_value<V: Drop>(
    map: &mut BTreeMap<String, V>,
    alloc: Global,
    name: &str,
    value: V,
) -> Result<(), Mem>
    ensures ok { OnOk result ((q : List ℕ) → get_by_text map.new q
        ≡ update bytes_eq (get_by_text map.old) name.now (Some value) q) }
    ensures err { OnErr result ((q : List ℕ) → get_by_text map.new q ≡ get_by_text map.old q) }
{
    let key = String::from_str(alloc, name)?;
    map.insert(key, value)?;
    Ok(())
}

/// Takes away what is at a name.
pub fn drop_value<V: Drop>(map: &mut BTreeMap<String, V>, name: &str)
    ensures { (q : List ℕ) → get_by_text map.new q ≡ update bytes_eq (get_by_text map.old) name.now None q }
{
    map.remove(name);
}

/// A set of names.
pub type Names = BTreeMap<String, ()>;

/// Puts a name into a set.
pub fn put_name(set: &mut Names, alloc: Global, name: &str) -> Result<(), Mem>
    ensures { OnOk result ((b : List ℕ) → is_some (get_by_text set.new b)
        ≡ (bytes_eq name.now b || is_some (get_by_text set.old b))) }
{
    put_value(set, alloc, name, ())
}

/// Puts a copy of the name at the end, where it is asked for.
pub(crate) fn push_name(list: &mut Texts, alloc: Global, name: &str, asked: bool) -> Result<(), Mem>
    ensures { OnOk result (list.new ≡ list.old ++ (if asked then name.now ∷ [] else [])) }
{
    if !asked {
        return Ok(());
    }
    list.push(Text::from_str(alloc, name)?)
}

/// The names of a map, in byte order.
pub fn names_of<V>(alloc: Global, map: &BTreeMap<String, V>) -> Result<Texts, Mem>
    ensures names { IfOk result (λ made. made ≡ picked (λ there. true) map.now.entries) }
    ensures ordered { OnOk result (IsOrdered string_cmp map.now) }
{
    let mut made = Texts::new(alloc);
    for (name, _) in map {
        push_name(&mut made, alloc, name.as_str(), true)?;
    }
    Ok(made)
}
