// How the paths begin that the patterns of BBFILES match.
ghost use Rattle.std.specs.Prelude.{◌≡◌, ◌≤◌, List, ℕ, true, IfOk, OnOk, length, take};
ghost use Rattle.meta_model.specs.Text.{begins_with};
ghost use Rattle.load_model.specs.Patterns.{matches};
ghost use Rattle.layer_conf.specs.Globs.{begun_by, is_wild, matches_any};

use std::alloc::Global;
use tree_model::{Mem, Text};

/// Whether a byte of a pattern stands for others.
fn is_wild(byte: u8) -> bool
    ensures { result ≡ is_wild byte }
{
    byte == b'*' || byte == b'?'
}

/// How many bytes a pattern has before its first wildcard. What it matches begins with these.
fn plain_length(pattern: &[u8]) -> usize
    ensures within { result ≤ length pattern.now }
    ensures begins { (path : List ℕ) → matches pattern.now path ≡ true → begins_with (take result pattern.now) path ≡ true }
{
    for i in 0..pattern.len() {
        if is_wild(pattern[i]) {
            return i;
        }
    }
    pattern.len()
}

/// What a pattern has before its first wildcard. What it matches begins so.
fn head_of(glob: &str) -> &str
    ensures { (path : List ℕ) → matches glob.now path ≡ true → begins_with result.now path ≡ true }
{
    match glob.get(..plain_length(glob.as_bytes())) {
        Some(head) => head,
        None => "",
    }
}

/// Whether a path begins with one of these heads.
fn is_begun(heads: &[Text], path: &str) -> bool
    ensures { result ≡ begun_by heads.now path.now }
{
    for head in heads {
        if path.as_bytes().starts_with(head.as_str().as_bytes()) {
            return true;
        }
    }
    false
}

/// Puts the head of a pattern at the end, unless it begins with one of the others.
fn push_head(alloc: Global, heads: &mut Vec<Text>, glob: &str) -> Result<(), Mem>
    ensures kept { OnOk result ((path : List ℕ) → begun_by heads.old.items path ≡ true → begun_by heads.new.items path ≡ true) }
    ensures begun { OnOk result ((path : List ℕ) → matches glob.now path ≡ true → begun_by heads.new.items path ≡ true) }
{
    let head = head_of(glob);
    if is_begun(heads.as_slice(), head) {
        return Ok(());
    }
    Ok(heads.push(Text::from_str(alloc, head)?)?)
}

/// Heads, one of which begins each path that one of these patterns matches.
pub(crate) fn heads_of(alloc: Global, globs: &[Text]) -> Result<Vec<Text>, Mem>
    ensures { IfOk result (λ made. (path : List ℕ) → matches_any globs.now path ≡ true → begun_by made.items path ≡ true) }
{
    let mut made = Vec::new(alloc);
    for glob in globs {
        push_head(alloc, &mut made, glob.as_str())?;
    }
    Ok(made)
}
