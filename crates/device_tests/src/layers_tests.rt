// Layers in memory.
use crate::samples::{layer_file, only};
use outside_mem::MemLayers;
use outside_traits::{Layers, ReadFault};
use std::alloc::Global;
use std::test::Fail;
use tree_model::{Mem, Text};

/// The paths with the prefix, each with a space behind it.
fn listed<L: Layers>(alloc: Global, layers: &mut L, prefix: &str) -> Result<Text, ReadFault> {
    let mut all = Text::new(alloc);
    for path in layers.list(alloc, prefix)?.as_slice() {
        all.push_str(path.as_str())?;
        all.push_str(" ")?;
    }
    Ok(all)
}

/// The length of a file.
fn length<L: Layers>(
    alloc: Global,
    layers: &mut L,
    path: &str,
    max: u64,
) -> Result<Option<usize>, ReadFault> {
    match layers.read(alloc, path, max)? {
        Some(bytes) => Ok(Some(bytes.as_slice().len())),
        None => Ok(None),
    }
}

/// Layers with a file twice and one at an unclean path, of which one call fails.
fn sample(alloc: Global, fail: u64) -> Result<MemLayers, Mem> {
    let mut files = Vec::new(alloc);
    files.push(layer_file(alloc, "recipes/b.bb", "bee")?)?;
    files.push(layer_file(alloc, "recipes/a.bb", "first")?)?;
    files.push(layer_file(alloc, "recipes/a.bb", "again!")?)?;
    files.push(layer_file(alloc, "./unclean", "never")?)?;
    files.push(layer_file(alloc, "recipes.txt", "")?)?;
    MemLayers::new(alloc, files, only(alloc, fail)?)
}

#[test]
fn layers_list(rt: HostRuntime) -> Result<(), Fail> {
    let alloc = rt.alloc();
    let mut layers = sample(alloc, 0)?;
    let lists = [
        ("", "recipes.txt recipes/a.bb recipes/b.bb "),
        ("recipes/", "recipes/a.bb recipes/b.bb "),
        ("recipes/b", "recipes/b.bb "),
        ("recipes/a.bb/", ""),
        (".", ""),
    ];
    for (prefix, want) in lists {
        let found = listed(alloc, &mut layers, prefix)?;
        assert_eq!(rt; found.as_str(), want);
    }
    Ok(())
}

#[test]
fn layers_read(rt: HostRuntime) -> Result<(), Fail> {
    let alloc = rt.alloc();
    let mut layers = sample(alloc, 7)?;
    let reads = [
        ("recipes/a.bb", 5, Ok(Some(5))),
        ("recipes/a.bb", 4, Err(ReadFault::TooLong)),
        ("recipes.txt", 0, Ok(Some(0))),
        ("recipes", 9, Ok(None)),
        ("./unclean", 9, Ok(None)),
        ("unclean", 9, Ok(None)),
        ("recipes/a.bb", 5, Err(ReadFault::Failed)),
        ("recipes/a.bb", 5, Ok(Some(5))),
    ];
    for (path, max, want) in reads {
        let found = length(alloc, &mut layers, path, max);
        assert_eq!(rt; found, want);
    }
    Ok(())
}
