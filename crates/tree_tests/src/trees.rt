// Trees by the calls that make and change them.
use crate::build::{entries_of, expect, expect_text, file, is_refused_at, shown, tree_of};
use std::alloc::Global;
use std::process::Abort;
use tree_model::{Entry, Size, Text, Tree, TreeFault, is_below, is_clean};

/// Paths and contents of files.
type Files = &'static [(&'static str, &'static str)];

const BADLY_SORTED: Files = &[
    ("a0", "1"),
    ("a/b", "2"),
    ("a.b", "3"),
    ("a-b", "4"),
    ("a/a", "5"),
];

const FOLDERS: Files = &[("a/b", "1"), ("a/c/d", "2"), ("a-b", "3"), ("e", "4")];

/// What is done with a tree.
enum Step {
    /// It is copied.
    Copy,
    /// The tree of these files is laid over it.
    Lay(Files),
    /// What stands in a folder is picked.
    Pick(&'static str),
    /// It is put into a folder.
    Place(&'static str),
    /// What stands at a path is taken out.
    Take(&'static str),
}

/// Files, what is done with their tree, and the tree that it gives, shown.
type Row = (Files, &'static [Step], &'static str);

/// Does a step.
fn take_step(alloc: Global, tree: &mut Tree, step: &Step) -> Result<(), TreeFault> {
    match step {
        Step::Copy => *tree = tree.copy()?,
        Step::Lay(files) => lay_over(alloc, tree, files)?,
        Step::Pick(folder) => *tree = tree.pick(alloc, folder)?,
        Step::Place(folder) => *tree = tree.place(alloc, folder)?,
        Step::Take(path) => {
            let _ = tree.take(path);
        }
    }
    Ok(())
}

/// Lays the tree of these files over a tree.
fn lay_over(alloc: Global, tree: &mut Tree, later: Files) -> Result<(), TreeFault> {
    let later = tree_of(alloc, later)?;
    Ok(tree.overlay(alloc, &later)?)
}

/// The tree of the files behind these steps.
fn stepped(alloc: Global, files: Files, steps: &[Step]) -> Result<Tree, TreeFault> {
    let mut tree = tree_of(alloc, files)?;
    for step in steps {
        take_step(alloc, &mut tree, step)?;
    }
    Ok(tree)
}

/// Asserts that it is the one that is wanted.
fn expect_tree(rt: &impl Abort, alloc: Global, row: &Row) -> Result<(), TreeFault> {
    let tree = stepped(alloc, row.0, row.1)?;
    let shown = shown(alloc, &tree)?;
    expect_text(rt, shown.as_str(), row.2);
    Ok(())
}

/// The same of each row.
fn expect_trees(rt: &impl Abort, alloc: Global, rows: &[Row]) -> Result<(), TreeFault> {
    for row in rows {
        expect_tree(rt, alloc, row)?;
    }
    Ok(())
}

const SORTED: &[Row] = &[
    (BADLY_SORTED, &[], "a-b:4 a.b:3 a/a:5 a/b:2 a0:1 "),
    (BADLY_SORTED, &[Step::Copy], "a-b:4 a.b:3 a/a:5 a/b:2 a0:1 "),
];

#[test]
fn paths_that_sort_badly(rt: HostRuntime) -> Result<(), TreeFault> {
    let alloc = rt.alloc();
    expect_trees(&rt, alloc, SORTED)?;
    let tree = tree_of(alloc, BADLY_SORTED)?;
    expect(&rt, tree.get("a/b").is_some());
    expect(&rt, tree.get("a").is_none());
    expect(&rt, tree.listing(alloc, "a/")?.len() == 2);
    expect(&rt, tree.listing(alloc, "")?.len() == 5);
    Ok(())
}

#[test]
fn sizes(rt: HostRuntime) -> Result<(), TreeFault> {
    let size = tree_of(rt.alloc(), BADLY_SORTED)?.size();
    let (entries, largest) = (5, 1);
    expect(&rt, size.entries == entries);
    assert!(rt;
        size.is_within(&Size {
            entries,
            largest,
            bytes: 5
        })
    );
    assert!(rt;
        !size.is_within(&Size {
            entries,
            largest,
            bytes: 4
        })
    );
    Ok(())
}

#[test]
fn what_is_no_tree(rt: HostRuntime) -> Result<(), TreeFault> {
    let alloc = rt.alloc();
    let refusals: &[(Files, &'static str)] = &[
        (&[("a0", ""), ("a", ""), ("a-b", ""), ("a/b", "")], "a"),
        (&[("x", ""), ("b", ""), ("b", "")], "b"),
        (&[("b/c/d", ""), ("b/c/d/e", ""), ("b", "")], "b"),
        (&[("c", ""), ("", "")], ""),
        (&[("a", ""), ("b//c", ""), ("/d", "")], "/d"),
        (&[("..", ""), ("a/./b", "")], ".."),
        (&[("a/", ""), ("z/..", "")], "a/"),
    ];
    for (files, bad) in refusals {
        let made = Tree::from_entries(entries_of(alloc, files)?);
        expect(&rt, is_refused_at(made, bad));
    }
    expect(&rt, is_clean("a/b-c/..d"));
    expect(&rt, !is_clean("a\0b"));
    expect(&rt, is_below("a", "a/b"));
    expect(&rt, !is_below("a", "a-b"));
    Ok(())
}

const OVERLAYS: &[Row] = &[
    (
        &[("a", "1"), ("b", "2")],
        &[Step::Lay(&[("b", "3"), ("c", "4")])],
        "a:1 b:3 c:4 ",
    ),
    (
        &[("a/b", "1"), ("a/c", "2"), ("a-b", "3"), ("a0", "4")],
        &[Step::Lay(&[("a", "5")])],
        "a:5 a-b:3 a0:4 ",
    ),
    (
        &[("a", "1"), ("a-b", "2"), ("a.b", "3")],
        &[Step::Lay(&[("a/b", "4")])],
        "a-b:2 a.b:3 a/b:4 ",
    ),
    (
        &[("a/b/c", "1"), ("d", "2")],
        &[Step::Lay(&[("a", "3"), ("a-b/c", "4"), ("d/e", "5")])],
        "a:3 a-b/c:4 d/e:5 ",
    ),
    (&[], &[Step::Lay(&[("a", "1")])], "a:1 "),
    (&[("a", "1")], &[Step::Lay(&[])], "a:1 "),
    (
        &[("a", "1"), ("b/c", "2")],
        &[Step::Lay(&[("a", "1"), ("b/c", "2")])],
        "a:1 b/c:2 ",
    ),
    (
        &[("lib/a", "1"), ("lib/b/c", "2")],
        &[Step::Lay(&[("lib/b", "3")])],
        "lib/a:1 lib/b:3 ",
    ),
    // three trees, laid over each other one after the other
    (
        &[("a/c", "1")],
        &[Step::Lay(&[("a", "2")]), Step::Lay(&[("a/b", "3")])],
        "a/b:3 ",
    ),
];

#[test]
fn overlays(rt: HostRuntime) -> Result<(), TreeFault> {
    expect_trees(&rt, rt.alloc(), OVERLAYS)
}

/// The last of the same three trees laid over the middle one first, and both over the first: an overlay is associative only
/// where no file became a folder.
#[test]
fn overlay_is_associative_only_where_no_file_became_a_folder(
    rt: HostRuntime,
) -> Result<(), TreeFault> {
    let alloc = rt.alloc();
    let later = stepped(alloc, &[("a", "2")], &[Step::Lay(&[("a/b", "3")])])?;
    let mut tree = tree_of(alloc, &[("a/c", "1")])?;
    tree.overlay(alloc, &later)?;
    let shown = shown(alloc, &tree)?;
    expect_text(&rt, shown.as_str(), "a/b:3 a/c:1 ");
    Ok(())
}

const IN_FOLDERS: &[Row] = &[
    (FOLDERS, &[Step::Pick("a")], "b:1 c/d:2 "),
    (FOLDERS, &[Step::Pick(".")], "a-b:3 a/b:1 a/c/d:2 e:4 "),
    (FOLDERS, &[Step::Pick("a/c")], "d:2 "),
    (FOLDERS, &[Step::Pick("e")], ""),
    (FOLDERS, &[Step::Pick("x")], ""),
    (
        FOLDERS,
        &[Step::Place("x/y")],
        "x/y/a-b:3 x/y/a/b:1 x/y/a/c/d:2 x/y/e:4 ",
    ),
    (FOLDERS, &[Step::Place(".")], "a-b:3 a/b:1 a/c/d:2 e:4 "),
];

#[test]
fn folders(rt: HostRuntime) -> Result<(), TreeFault> {
    expect_trees(&rt, rt.alloc(), IN_FOLDERS)
}

/// The answer for a folder that makes no clean path.
#[test]
fn no_folder(rt: HostRuntime) -> Result<(), TreeFault> {
    let tree = tree_of(rt.alloc(), FOLDERS)?;
    expect(&rt, is_refused_at(tree.place(rt.alloc(), ".."), "../a-b"));
    Ok(())
}

const TAKEN: &[Row] = &[
    (&[("a", "1"), ("b/c", "2")], &[Step::Take("a")], "b/c:2 "),
    (
        &[("a", "1"), ("b/c", "2")],
        &[Step::Take("b")],
        "a:1 b/c:2 ",
    ),
];

#[test]
fn taken_entries(rt: HostRuntime) -> Result<(), TreeFault> {
    expect_trees(&rt, rt.alloc(), TAKEN)
}

#[test]
fn copied_entries(rt: HostRuntime) -> Result<(), TreeFault> {
    let alloc = rt.alloc();
    let text = file(alloc, false, "1")?;
    expect(&rt, text.copy()? == text);
    let mut target = Text::new(alloc);
    target.push_str("b")?;
    let link = Entry::Link { target };
    expect(&rt, link.len() == 1);
    expect(&rt, link.copy()? == link);
    Ok(())
}
