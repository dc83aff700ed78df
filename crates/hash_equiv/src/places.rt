// The rows of each PN, by their places in the index.
ghost use Rattle.std.specs.Prelude.{◌≡◌, ◌++◌, ◌∷◌, [], List, ℕ, IfOk, OnOk, OnErr, bytes_eq, if◌then◌else◌};
ghost use Rattle.hash_equiv.specs.Index.{places_of};

use std::alloc::Global;
use std::collections::BTreeMap;
use tree_model::{ListOf, Mem};

/// The places of a PN, in their order.
pub(crate) fn places_for<'a>(of_pn: &'a BTreeMap<String, ListOf<usize>>, pn: &str) -> &'a [usize]
    ensures { result.now ≡ places_of of_pn.now pn.now }
{
    match of_pn.get(pn) {
        Some(places) => places.as_slice(),
        None => &[],
    }
}

/// Puts a place at the end of those of a PN.
pub(crate) fn put_place(
    of_pn: &mut BTreeMap<String, ListOf<usize>>,
    alloc: Global,
    pn: &str,
    place: usize,
) -> Result<(), Mem>
    ensures ok { OnOk result ((t : List ℕ) → places_of of_pn.new t ≡ places_of of_pn.old t
        ++ (if bytes_eq pn.now t then place ∷ [] else [])) }
    ensures err { OnErr result ((t : List ℕ) → places_of of_pn.new t ≡ places_of of_pn.old t) }
{
    match of_pn.get_mut(pn) {
        Some(places) => places.push(place),
        None => {
            let mut places = ListOf::new(alloc);
            places.push(place)?;
            of_pn.insert(String::from_str(alloc, pn)?, places)?;
            Ok(())
        }
    }
}
