// Laws of trees, each the contract of a function that only reads.
ghost use Rattle.std.specs.Prelude.{◌≡◌, ◌↔◌, [], All, List, ℕ, option_map};
ghost use Rattle.sha2.specs.Sha256.{sha256};
ghost use Rattle.tree_model.specs.Folder.{IsPick, picked, placed, renamed};
ghost use Rattle.tree_model.specs.Manifest.{content_of, kind_of, manifest_lines};
ghost use Rattle.tree_model.specs.Overlay.{IsMet, IsOverlay, KeepsFiles, overlaid};
ghost use Rattle.tree_model.specs.Size.{entry_length};
ghost use Rattle.tree_model.specs.Tree.{entry_at};

use crate::tree::Tree;

/// Two trees laid over each other give one tree only.
pub fn overlay_is_one_tree(earlier: &Tree, later: &Tree, one: &Tree, other: &Tree)
    requires one { IsOverlay earlier.now later.now one.now }
    requires other { IsOverlay earlier.now later.now other.now }
    ensures { one.now ≡ other.now }
{
    let (_earlier, _later) = (earlier.entries(), later.entries());
    let (_one, _other) = (one.entries(), other.entries());
}

/// What a tree laid over another gives, as a function of the two.
pub fn overlay_is_overlaid(earlier: &Tree, later: &Tree, both: &Tree)
    requires { IsOverlay earlier.now later.now both.now }
    ensures { both.now ≡ overlaid earlier.now later.now }
{
    let (_earlier, _later) = (earlier.entries(), later.entries());
    let _both = both.entries();
}

/// What a tree holds under a folder, as a function of the two.
pub fn pick_is_picked(folder: &str, tree: &Tree, part: &Tree)
    requires { IsPick folder.now tree.now part.now }
    ensures { part.now ≡ picked folder.now tree.now }
{
    let (_entries, _part) = (tree.entries(), part.entries());
}

/// A tree laid over itself is itself.
pub fn overlay_with_itself(tree: &Tree)
    ensures { IsOverlay tree.now tree.now tree.now }
{
    let _entries = tree.entries();
}

/// The empty tree changes nothing, above or below.
pub fn overlay_with_the_empty_tree(tree: &Tree)
    ensures over { IsOverlay tree.now [] tree.now }
    ensures under { IsOverlay [] tree.now tree.now }
{
    let _entries = tree.entries();
}

/// Of three trees laid over each other it can matter which two are joined first: where the second one's file `a` removes the
/// first one's `a/c`, and the third one's `a/b` removes `a`, then `a/c` is there in the end if the later two were joined
/// first, and isn't if the earlier two were. It doesn't matter just where all that the second removes of the first, the
/// second and third joined remove too; so it never does where the third puts nothing below a path of the second.
pub fn overlay_is_associative(
    first: &Tree,
    second: &Tree,
    third: &Tree,
    earlier: &Tree,
    later: &Tree,
    one: &Tree,
    other: &Tree,
)
    requires earlier { IsOverlay first.now second.now earlier.now }
    requires later { IsOverlay second.now third.now later.now }
    requires one { IsOverlay earlier.now third.now one.now }
    requires other { IsOverlay first.now later.now other.now }
    ensures just_where { (one.now ≡ other.now) ↔ All (λ e. IsMet second.now e.0 → IsMet later.now e.0) first.now }
    ensures nothing_below { KeepsFiles second.now third.now → one.now ≡ other.now }
{
    let (_first, _second) = (first.entries(), second.entries());
    let (_third, _earlier) = (third.entries(), earlier.entries());
    let (_later, _one) = (later.entries(), one.entries());
    let _other = other.entries();
}

/// A tree that was placed in a folder is picked back from it.
pub fn pick_after_place(tree: &Tree, folder: &str, put: &Tree, picked: &Tree)
    requires put { put.now ≡ renamed (placed folder.now) tree.now }
    requires picked { IsPick folder.now put.now picked.now }
    ensures { picked.now ≡ tree.now }
{
    let (_entries, _folder) = (tree.entries(), folder.len());
    let (_put, _picked) = (put.entries(), picked.entries());
}

/// Trees with one manifest hold the same by it: at each path an entry of the same kind, of the same length and with the
/// same digest, or nothing both.
pub fn trees_of_equal_manifests(one: &Tree, other: &Tree)
    requires { manifest_lines one.now ≡ manifest_lines other.now }
    ensures kinds { (path : List ℕ) → option_map kind_of (entry_at one.now path)
        ≡ option_map kind_of (entry_at other.now path) }
    ensures lengths { (path : List ℕ) → option_map entry_length (entry_at one.now path)
        ≡ option_map entry_length (entry_at other.now path) }
    ensures digests { (path : List ℕ) → option_map (λ e. sha256 (content_of e)) (entry_at one.now path)
        ≡ option_map (λ e. sha256 (content_of e)) (entry_at other.now path) }
{
    let (_one, _other) = (one.entries(), other.entries());
}
