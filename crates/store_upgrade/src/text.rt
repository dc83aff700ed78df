// The text of an old record's signature, among the bytes that spell the record.
ghost use Rattle.std.specs.Prelude.{◌≡◌, ◌≢◌, ◌+◌, ◌++◌, ◌<◌, ◌≤◌, ◌^◌, IfNone, IfOk, IfSome, codes, length, slice_index, List, ℕ};
ghost use Rattle.tree_model.specs.Bytes.{framed, manifest_bytes};
ghost use Rattle.store_move.specs.First.{SpellsFirst, first_bytes, first_name};

use sig_gen::encode_manifest;
use std::alloc::Global;
use store_model::StoredSig;
use tree_model::{Hash, Mem};

/// How many bytes stand behind the text of the signature: the comma that ends it, the manifest, and the framed text of the unihash.
fn length_behind(alloc: Global, stored: &StoredSig) -> Result<usize, Mem>
    ensures { IfOk result (λ n. n ≡ length (manifest_bytes stored.now.manifest) + 69) }
{
    let manifest = encode_manifest(alloc, &stored.manifest)?;
    match manifest.as_slice().len().checked_add(69) {
        Some(length) => Ok(length),
        None => Err(Mem),
    }
}

/// The place of the first colon.
fn colon_in(bytes: &[u8]) -> usize
    ensures within { result ≤ length bytes.now }
    ensures before { (k : ℕ) → k < result → slice_index bytes.now k ≢ 58 }
    ensures found { result < length bytes.now → slice_index bytes.now result ≡ 58 }
{
    for (i, byte) in bytes.iter().enumerate() {
        if *byte == b':' {
            return i;
        }
    }
    bytes.len()
}

/// What is framed at the front of bytes, behind which so many bytes stand: from behind the colon to the comma.
fn framed_in(bytes: &[u8], behind: usize) -> &[u8]
    ensures { (text tail : List ℕ) → bytes.now ≡ framed text ++ tail → length tail + 1 ≡ behind → 0 < length text → length text < 2 ^ 64 → result.now ≡ text }
{
    let start = colon_in(bytes) + 1;
    if start > bytes.len() || behind > bytes.len() - start {
        return bytes;
    }
    &bytes[start..bytes.len() - behind]
}

/// What stands behind the framed word of the first format's records.
fn behind_word(bytes: &[u8]) -> Option<&[u8]>
    ensures some { IfSome result (λ rest. bytes.now ≡ codes "6:bbrec1," ++ rest.now) }
    ensures none { IfNone result ((rest : List ℕ) → bytes.now ≡ codes "6:bbrec1," ++ rest → ⊥) }
{
    bytes.strip_prefix(b"6:bbrec1,")
}

/// The text of the signature among the bytes that spell a record in the first format, behind which so many bytes stand.
fn text_of<'a>(bytes: &'a [u8], stored: &StoredSig, behind: usize) -> &'a [u8]
    requires spells { SpellsFirst bytes.now stored.now }
    requires behind { behind ≡ length (manifest_bytes stored.now.manifest) + 69 }
    ensures { result.now ≡ first_bytes stored.now.sig }
{
    match behind_word(bytes) {
        Some(rest) => framed_in(rest, behind),
        None => bytes,
    }
}

/// The name that a record has in the first format, by the bytes that spell it there.
///
/// Own rule: it is the SHA-256 of its signature's bytes.
pub(crate) fn name_in(alloc: Global, bytes: &[u8], stored: &StoredSig) -> Result<Hash, Mem>
    requires { SpellsFirst bytes.now stored.now }
    ensures { IfOk result (λ name. name ≡ first_name stored.now.sig) }
{
    let behind = length_behind(alloc, stored)?;
    Ok(Hash::of(text_of(bytes, stored, behind)))
}
