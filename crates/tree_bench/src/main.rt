//! Measures trees and digests.
//!
//! The words are the number of entries (1 to 1,048,576) and of MiB (1 to 1,024). A tree with that many entries is laid over
//! one of the same size: where all paths are the same, where half of them are, where none is. Then so many bytes are
//! digested by `Hash::of`, and by the plain loop of `sha2`. It prints what came of it; where a third word `time` stands, also
//! the microseconds of each.
#![tactic(auto)]

ghost use Rattle.std.specs.Prelude.{◌≤◌};

use anyhow::{Result, bail};
use sha2::{Digest, Sha256};
use std::alloc::Global;
use std::env;
use std::time::Instant;
use tree_model::{Bytes, Entry, Hash, Text, Tree, TreeFault};

/// A tree of files in folders of 64.
fn tree_of(alloc: Global, entries: usize, skip: usize) -> Result<Tree> {
    let mut list = Vec::new(alloc);
    for number in 0..entries {
        let at = number.saturating_add(skip);
        let path = format!(in alloc; "usr/lib{}/x{at}.c", at / 64)?;
        let bytes = match Bytes::from_slice(alloc, b"some bytes") {
            Ok(bytes) => bytes,
            Err(_) => bail!("out of memory"),
        };
        list.push((Text::from_string(path), Entry::File { exec: false, bytes }))?;
    }
    match Tree::from_entries(list) {
        Ok(tree) => Ok(tree),
        Err(TreeFault::Memory) => bail!("out of memory"),
        Err(TreeFault::BadPath { path }) => bail!("{} is no path of a tree", path.as_str()),
    }
}

/// Lays a tree over one whose paths are those of the later one but for the first ones.
fn overlay(rt: &HostRuntime, entries: usize, skip: usize, timed: bool) -> Result<()> {
    let alloc = rt.alloc();
    let later = tree_of(alloc, entries, 0)?;
    let mut tree = tree_of(alloc, entries, skip)?;
    let start = Instant::now(rt)?;
    if tree.overlay(alloc, &later).is_err() {
        bail!("out of memory");
    }
    let took = start.elapsed(rt)?.as_micros();
    println!(rt; "overlay: {} entries", tree.entries().len())?;
    if timed {
        println!(rt; "overlay {skip}: {took} us")?;
    }
    Ok(())
}

fn hash(rt: &HostRuntime, bytes: &[u8], timed: bool) -> Result<()> {
    let start = Instant::now(rt)?;
    let hash = Hash::of(bytes);
    let took = start.elapsed(rt)?.as_micros();
    match hash.text(rt.alloc()) {
        Ok(text) => println!(rt; "digest: {}", text.as_str())?,
        Err(_) => bail!("out of memory"),
    }
    if timed {
        println!(rt; "Hash::of: {took} us")?;
    }
    Ok(())
}

fn plain_loop(rt: &HostRuntime, bytes: &[u8], timed: bool) -> Result<()> {
    let start = Instant::now(rt)?;
    let mut hasher = Sha256::new();
    for piece in bytes.chunks(65536) {
        hasher.update(piece);
    }
    let digest = hasher.finalize();
    let took = start.elapsed(rt)?.as_micros();
    println!(rt; "loop: {}", digest[0])?;
    if timed {
        println!(rt; "sha2 loop: {took} us")?;
    }
    Ok(())
}

fn number(word: Option<&String>, default: usize, most: usize) -> usize
    ensures { result ≤ most }
{
    let read = word.and_then(|word| word.parse::<usize>().ok());
    read.unwrap_or(default).min(most)
}

fn main(rt: HostRuntime) -> Result<()> {
    let words: Vec<String> = env::args(&rt)?.collect(rt.alloc())?;
    let entries = number(words.get(1), 16_384, 1 << 20);
    let size = number(words.get(2), 64, 1024);
    let timed = words.get(3).is_some_and(|word| word.as_str() == "time");
    for skip in [0, entries / 2, entries] {
        overlay(&rt, entries, skip, timed)?;
    }
    let bytes = vec![in rt.alloc(); b'a'; size * 1_048_576]?;
    hash(&rt, &bytes, timed)?;
    plain_loop(&rt, &bytes, timed)
}
