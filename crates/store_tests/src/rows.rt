// The rows of an index.
use hash_equiv::{EquivFault, Index};
use std::alloc::Global;
use std::test::Fail;
use store_model::{EquivRow, SigText};
use tree_model::{EntryKind, Hash, Manifest, ManifestLine, Mem, Text};

/// A digest of one byte, 32 times.
fn hash(byte: u8) -> Hash {
    Hash { bytes: [byte; 32] }
}

/// A manifest of one file `out`, whose digest has this byte.
fn manifest(alloc: Global, byte: u8) -> Result<Manifest, Mem> {
    let mut lines = Vec::new(alloc);
    lines.push(ManifestLine {
        path: Text::from_str(alloc, "out")?,
        kind: EntryKind::File,
        length: 3,
        hash: hash(byte),
    })?;
    Ok(Manifest::from_lines(lines))
}

/// Adds a row of the task `p:do_b` of this name, with a signature and an output told by one byte each.
fn add(alloc: Global, index: &mut Index, name: u8, sig: u8, output: u8) -> Result<(), EquivFault> {
    let row = EquivRow {
        name: hash(name),
        pn: Text::from_str(alloc, "p")?,
        task: Text::from_str(alloc, "do_b")?,
        sig: SigText::new(Vec::new(alloc), &[sig])?,
        manifest: manifest(alloc, output)?,
        unihash: hash(name),
    };
    index.add(alloc, row)
}

/// The unihash of the first row of that task with this output.
fn first(alloc: Global, index: &Index, output: u8) -> Result<Option<Hash>, Mem> {
    let manifest = manifest(alloc, output)?;
    Ok(index.first_for("p", "do_b", manifest.lines()))
}

/// A row, the same again, one of its name with another signature, one with another output alone: the index keeps the first.
#[test]
fn rows_of_one_name(rt: HostRuntime) -> Result<(), Fail> {
    let mut index = Index::new(rt.alloc());
    assert!(rt; add(rt.alloc(), &mut index, 1, 10, 20).is_ok());
    assert!(rt; add(rt.alloc(), &mut index, 1, 10, 20).is_ok());
    let collision = add(rt.alloc(), &mut index, 1, 11, 20);
    assert!(rt; matches!(collision, Err(EquivFault::Collision { .. })));
    let unsteady = add(rt.alloc(), &mut index, 1, 10, 21);
    assert!(rt; matches!(unsteady, Err(EquivFault::Unsteady { .. })));
    assert!(rt; first(rt.alloc(), &index, 20)? == Some(hash(1)));
    assert!(rt; first(rt.alloc(), &index, 21)?.is_none());
    Ok(())
}
