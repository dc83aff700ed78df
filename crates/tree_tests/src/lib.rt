//! Tests of texts, trees, digests and manifests, and the bytes of one manifest.
#![tactic(auto)]

ghost use Rattle.std.specs.Prelude.{◌≡◌, length};
ghost use Rattle.tree_model.specs.Bytes.{manifest_bytes};
ghost use Rattle.tree_tests.specs.Rows.{hello_bytes, hello_lines};

#[cfg(test)]
mod build;
#[cfg(test)]
mod digests;
#[cfg(test)]
mod trees;

/// The bytes of the manifest of a tree with one file `hello.txt` that holds `hello` and a newline.
pub fn hello_manifest()
    ensures bytes { manifest_bytes hello_lines ≡ hello_bytes }
    ensures size { length hello_bytes ≡ 85 }
{}
