// Digests and manifests against values from outside: FIPS 180-4 and `sha256sum`.
use crate::build::{expect, expect_text, file, shown_lines, tree_of};
use std::alloc::Global;
use std::process::Abort;
use tree_model::{Entry, Hash, Manifest, Text, Tree, TreeFault, manifest_of, matches};

/// One message and its digest.
fn check_vector(
    rt: &impl Abort,
    alloc: Global,
    message: &[u8],
    digits: &str,
) -> Result<(), TreeFault> {
    let hash = Hash::of(message);
    expect_text(rt, hash.text(alloc)?.as_str(), digits);
    expect(rt, hash.digits().as_slice() == digits.as_bytes());
    expect(rt, Hash::read(digits) == Some(hash));
    Ok(())
}

#[test]
fn sha256_vectors(rt: HostRuntime) -> Result<(), TreeFault> {
    let vectors: [(&[u8], &str); 4] = [
        (
            b"",
            "e3b0c44298fc1c149afbf4c8996fb92427ae41e4649b934ca495991b7852b855",
        ),
        (
            b"abc",
            "ba7816bf8f01cfea414140de5dae2223b00361a396177a9cb410ff61f20015ad",
        ),
        (
            b"abcdbcdecdefdefgefghfghighijhijkijkljklmklmnlmnomnopnopq",
            "248d6a61d20638b8e5c026930c3e6039a33ce45964ff2167f6ecedd419db06c1",
        ),
        (
            b"abcdefghbcdefghicdefghijdefghijkefghijklfghijklmghijklmnhijklmnoijklmnopjklmnopqklmnopqrlmnopqrsmnopqrstnopqrstu",
            "cf5b16a778af8380036ce59e7b0492370b249b11e8f07a51afac45037afee9d1",
        ),
    ];
    for (message, digits) in vectors {
        check_vector(&rt, rt.alloc(), message, digits)?;
    }
    Ok(())
}

#[test]
fn sha256_of_a_million(rt: HostRuntime) -> Result<(), TreeFault> {
    let million = vec![in rt.alloc(); b'a'; 1_000_000]?;
    let digits = "cdc76e5c9914fb9281a1c7e284d73e67f1809a48a497200e046d39ccc7112cd0";
    check_vector(&rt, rt.alloc(), million.as_slice(), digits)
}

#[test]
fn texts_that_are_no_digest(rt: HostRuntime) {
    let texts = [
        "",
        "e3b0c44298fc1c149afbf4c8996fb92427ae41e4649b934ca495991b7852b85",
        "e3b0c44298fc1c149afbf4c8996fb92427ae41e4649b934ca495991b7852b8555",
        "E3b0c44298fc1c149afbf4c8996fb92427ae41e4649b934ca495991b7852b855",
        "g3b0c44298fc1c149afbf4c8996fb92427ae41e4649b934ca495991b7852b855",
        " 3b0c44298fc1c149afbf4c8996fb92427ae41e4649b934ca495991b7852b855",
    ];
    for text in texts {
        expect(&rt, Hash::read(text).is_none());
    }
}

/// A tree of one file.
fn plain(alloc: Global) -> Result<Tree, TreeFault> {
    tree_of(alloc, &[("hello.txt", "hello\n")])
}

/// A link with this target.
fn link(alloc: Global, target: &str) -> Result<Entry, TreeFault> {
    Ok(Entry::Link {
        target: Text::from_str(alloc, target)?,
    })
}

/// Puts an entry behind the others.
fn push_entry(
    alloc: Global,
    list: &mut Vec<(Text, Entry)>,
    path: &str,
    entry: Entry,
) -> Result<(), TreeFault> {
    let path = Text::from_str(alloc, path)?;
    Ok(list.push((path, entry))?)
}

/// The same file, executable, and a link.
fn other_entries(alloc: Global) -> Result<Vec<(Text, Entry)>, TreeFault> {
    let mut list = Vec::new(alloc);
    push_entry(alloc, &mut list, "hello.txt", file(alloc, true, "hello\n")?)?;
    push_entry(alloc, &mut list, "link", link(alloc, "hello.txt")?)?;
    Ok(list)
}

/// Their tree.
fn other(alloc: Global) -> Result<Tree, TreeFault> {
    Tree::from_entries(other_entries(alloc)?)
}

/// The manifest of a tree, shown.
fn lines(alloc: Global, tree: &Tree) -> Result<String, TreeFault> {
    let manifest = manifest_of(alloc, tree)?;
    Ok(shown_lines(alloc, &manifest)?)
}

/// Whether one tree matches the manifest of another.
fn match_each(alloc: Global, tree: &Tree, other: &Tree) -> Result<bool, TreeFault> {
    Ok(matches(tree, &manifest_of(alloc, other)?))
}

#[test]
fn manifests(rt: HostRuntime) -> Result<(), TreeFault> {
    let alloc = rt.alloc();
    expect_text(
        &rt,
        lines(alloc, &plain(alloc)?)?.as_str(),
        "hello.txt f 6 5891b5b522d5df086d0ff0b110fbd9d21bb4fc7163af34d08286a2e846f6be03\n",
    );
    expect_text(
        &rt,
        lines(alloc, &other(alloc)?)?.as_str(),
        "hello.txt x 6 5891b5b522d5df086d0ff0b110fbd9d21bb4fc7163af34d08286a2e846f6be03\nlink l 9 734cad14909bedfafb5b273b6b0eb01fbfa639587d217f78ce9639bba41f4415\n",
    );
    expect(&rt, match_each(alloc, &plain(alloc)?, &plain(alloc)?)?);
    expect(&rt, !match_each(alloc, &other(alloc)?, &plain(alloc)?)?);
    expect(&rt, !match_each(alloc, &plain(alloc)?, &other(alloc)?)?);
    Ok(())
}

#[test]
fn an_empty_manifest(rt: HostRuntime) {
    let alloc = rt.alloc();
    expect(
        &rt,
        matches(&Tree::empty(alloc), &Manifest::from_lines(Vec::new(alloc))),
    );
}
