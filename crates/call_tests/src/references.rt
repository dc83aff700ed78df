// The names that a text refers to.
use crate::pairs::Pairs;
use std::alloc::Global;
use std::test::Fail;
use tree_model::{Mem, Texts};
use var_expand::{ExpandFault, references};

/// Two names and their values.
fn two_names(alloc: Global) -> Result<Pairs, Mem> {
    let mut map = Pairs::new(alloc);
    map.push(alloc, "B", "2", "")?;
    map.push(alloc, "C", "${C}", "")?;
    Ok(map)
}

/// The names that a text refers to, over these two.
fn told(alloc: Global, text: &str) -> Result<Texts, ExpandFault> {
    let map = two_names(alloc)?;
    references(alloc, text, &map)
}

/// In byte order, each once, through references in names; an absent name is told too.
#[test]
fn names_are_told(rt: HostRuntime) -> Result<(), Fail> {
    let names = told(rt.alloc(), "${Z} ${A_${B}} ${C} ${Z}")?;
    assert_eq!(rt; names.len(), 4);
    for (name, want) in names.as_slice().iter().zip(["A_2", "B", "C", "Z"]) {
        assert_eq!(rt; name.as_str(), want);
    }
    Ok(())
}
