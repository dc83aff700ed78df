// Copies of manifests, and of rows for faults that carry one of the index.
ghost use Rattle.std.specs.Prelude.{◌≡◌, IfOk};

use std::alloc::Global;
use store_model::EquivRow;
use tree_model::{Manifest, ManifestLine, Mem};

/// The same line again.
fn copy_line(line: &ManifestLine) -> Result<ManifestLine, Mem>
    ensures { IfOk result (λ made. made ≡ line.now) }
{
    Ok(ManifestLine {
        path: line.path.copy()?,
        kind: line.kind,
        length: line.length,
        hash: line.hash,
    })
}

/// The same manifest again.
pub fn copy_manifest(alloc: Global, manifest: &Manifest) -> Result<Manifest, Mem>
    ensures { IfOk result (λ made. made ≡ manifest.now) }
{
    let mut lines = Vec::new(alloc);
    for line in manifest.lines() {
        lines.push(copy_line(line)?)?;
    }
    Ok(Manifest::from_lines(lines))
}

/// The same row again.
pub(crate) fn copy_row(alloc: Global, row: &EquivRow) -> Result<EquivRow, Mem>
    ensures { IfOk result (λ made. made ≡ row.now) }
{
    Ok(EquivRow {
        name: row.name,
        pn: row.pn.copy()?,
        task: row.task.copy()?,
        sig: row.sig.copy()?,
        manifest: copy_manifest(alloc, &row.manifest)?,
        unihash: row.unihash,
    })
}
