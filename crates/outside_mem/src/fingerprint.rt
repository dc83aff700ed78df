// The digest of a script and of what it runs over.
ghost use Rattle.std.specs.Prelude.{◌≡◌, ◌++◌, ◌∷◌, [], List, ℕ, map};
ghost use Rattle.std.specs.List.{flat_map};
ghost use Rattle.sha2.specs.Hashers.{Holds256};
ghost use Rattle.tree_model.specs.Bytes.{framed, framed_number, kind_letter, line_bytes, manifest_bytes};
ghost use Rattle.tree_model.specs.Manifest.{line_of, manifest_lines};
ghost use Rattle.outside_mem.specs.Fingerprint.{fingerprint};

use itoa::Buffer;
use sha2::{Digest, Sha256};
use tree_model::{Entry, EntryKind, Hash, Text, Tree};

/// The digest of the framed script, behind it the bytes of the manifest of what is laid. It takes no memory, and reads
/// each byte once.
pub(crate) fn fingerprint_of(script: &str, laid: &Tree) -> Hash
    ensures { result ≡ fingerprint script.now laid.now }
{
    let mut hasher = Sha256::new();
    feed_framed(&mut hasher, script.as_bytes());
    feed_manifest(&mut hasher, laid.entries());
    Hash {
        bytes: hasher.finalize(),
    }
}

fn feed_manifest(hasher: &mut Sha256, entries: &[(Text, Entry)])
    ensures { (m : List ℕ) → Holds256 hasher.old m → Holds256 hasher.new
        (m ++ manifest_bytes (manifest_lines entries.now)) }
{
    feed_number(hasher, entries.len());
    feed_lines(hasher, entries);
}

fn feed_lines(hasher: &mut Sha256, entries: &[(Text, Entry)])
    ensures { (m : List ℕ) → Holds256 hasher.old m → Holds256 hasher.new
        (m ++ flat_map line_bytes (map line_of entries.now)) }
{
    for entry in entries {
        feed_line(hasher, entry);
    }
}

fn feed_line(hasher: &mut Sha256, entry: &(Text, Entry))
    ensures { (m : List ℕ) → Holds256 hasher.old m → Holds256 hasher.new (m ++ line_bytes (line_of entry.now)) }
{
    feed_framed(hasher, entry.0.as_str().as_bytes());
    hasher.update([letter_of(entry.1.kind())].as_slice());
    feed_number(hasher, entry.1.len());
    feed_framed(hasher, entry.1.hash().digits().as_slice());
}

fn feed_framed(hasher: &mut Sha256, text: &[u8])
    ensures { (m : List ℕ) → Holds256 hasher.old m → Holds256 hasher.new (m ++ framed text.now) }
{
    hasher.update(Buffer::new().format(text.len()).as_bytes());
    hasher.update(b":");
    hasher.update(text);
    hasher.update(b",");
}

fn feed_number(hasher: &mut Sha256, number: usize)
    ensures { (m : List ℕ) → Holds256 hasher.old m → Holds256 hasher.new (m ++ framed_number number) }
{
    hasher.update(Buffer::new().format(number).as_bytes());
    hasher.update(b";");
}

fn letter_of(kind: EntryKind) -> u8
    ensures { result ≡ kind_letter kind }
{
    match kind {
        EntryKind::File => b'f',
        EntryKind::Exec => b'x',
        EntryKind::Link => b'l',
    }
}
