// Trees on a disk in memory.
ghost use Rattle.std.specs.Prelude.{◌≡◌, All, IfOk, codes, true};
ghost use Rattle.tree_model.specs.Path.{IsClean, inside};

use crate::spent;
use anyhow::{Result, bail};
use outside_mem::MemDisk;
use outside_traits::{put_tree, read_tree};
use std::alloc::Global;
use std::time::CpuClock;
use tree_model::{Bytes, Entry, Mem, Size, Text, Tree, is_clean};

/// Files in folders of 64.
fn files(alloc: Global, entries: u32) -> Result<Vec<(Text, Entry)>> {
    let mut list = Vec::new(alloc);
    for number in 0..entries {
        let path = format!(in alloc; "usr/lib{}/x{number}.c", number / 64)?;
        let Ok(bytes) = Bytes::from_slice(alloc, b"some bytes") else {
            bail!("out of memory");
        };
        list.push((Text::from_string(path), Entry::File { exec: false, bytes }))?;
    }
    Ok(list)
}

/// The path of a place in the folder `work`.
fn joined(alloc: Global, path: &str) -> Result<Text, Mem>
    ensures { IfOk result (λ whole. whole ≡ inside (codes "work") path.now) }
{
    let mut whole = Text::from_str(alloc, "work/")?;
    whole.push_str(path)?;
    Ok(whole)
}

/// Whether each path of the tree is clean behind the folder.
fn fits(alloc: Global, tree: &Tree) -> Result<bool, Mem>
    ensures { IfOk result (λ fits. fits ≡ true → All (λ e. IsClean (inside (codes "work") e.0)) tree.now) }
{
    for (path, _) in tree.entries() {
        if !is_clean(joined(alloc, path.as_str())?.as_str()) {
            return Ok(false);
        }
    }
    Ok(true)
}

fn put(rt: &HostRuntime, disk: &mut MemDisk, tree: &Tree, timed: bool) -> Result<()> {
    let Ok(true) = fits(rt.alloc(), tree) else {
        bail!("a path that isn't clean");
    };
    let start = rt.process_cpu_time()?;
    if put_tree(rt.alloc(), disk, "work", tree).is_err() {
        bail!("out of memory");
    }
    let took = spent(rt, start)?;
    println!(rt; "put: {} entries", disk.held().len())?;
    if timed {
        println!(rt; "putting: {took} us")?;
    }
    Ok(())
}

fn read(rt: &HostRuntime, disk: &mut MemDisk, timed: bool) -> Result<()> {
    let max = Size {
        entries: 1 << 20,
        largest: 1 << 20,
        bytes: 1 << 40,
    };
    let start = rt.process_cpu_time()?;
    let Ok(Some(tree)) = read_tree(rt.alloc(), disk, "work", max) else {
        bail!("not read");
    };
    let took = spent(rt, start)?;
    println!(rt; "read: {} entries", tree.entries().len())?;
    if timed {
        println!(rt; "reading: {took} us")?;
    }
    Ok(())
}

/// A tree of so many entries is put to a folder of an empty disk, put there once more, and read.
pub fn measure(rt: &HostRuntime, entries: u32, timed: bool) -> Result<()> {
    let Ok(tree) = Tree::from_entries(files(rt.alloc(), entries)?) else {
        bail!("no tree");
    };
    let Ok(mut disk) = MemDisk::new(rt.alloc(), Vec::new(rt.alloc())) else {
        bail!("no disk");
    };
    put(rt, &mut disk, &tree, timed)?;
    put(rt, &mut disk, &tree, timed)?;
    read(rt, &mut disk, timed)
}
