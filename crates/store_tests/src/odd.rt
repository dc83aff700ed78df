// Disks that hold whatever.
ghost use Rattle.std.specs.Prelude.{IfOk};
ghost use Rattle.outside_mem.specs.Told.{story_of};
ghost use Rattle.outside_traits.specs.Story.{IsFresh};

use crate::asked::{opened, opened_beside};
use crate::samples::file;
use outside_mem::MemDisk;
use std::alloc::Global;
use std::test::Fail;
use tree_model::{Entry, Text};

/// The paths of two keys, and the keys: of no lines, and of one.
const NO_LINES: &str = "key/f1ab6b1fa3e07be02cdd3816ad1c1c0f6a540c262e4c805f208a901850e5dde0";

const NO_LINES_KEY: &[u8] = b"0;";

const ONE_LINE: &str = "key/d6c06e8e6df7906ba96e515dfb3beb4b1faead98e8525279bb761d1b516bb233";

const ONE_LINE_KEY: &[u8] = b"1;1:x,-";

/// The path of a record.
const NAME: &str = "rec2/fccf7280f0b71673fdc34066a31774a00c46b9403b23b5a246c7a940da0a7145";

/// The record there: of a task that gave nothing.
const RECORD: &[u8] =
    b"6:bbrec2,89:6:bbsig2,1:p,1:a,64:f1ab6b1fa3e07be02cdd3816ad1c1c0f6a540c262e4c805f208a901850e5dde0,0;0;,0;64:fccf7280f0b71673fdc34066a31774a00c46b9403b23b5a246c7a940da0a7145,";

/// It without its last byte.
const CUT_RECORD: &[u8] =
    b"6:bbrec2,89:6:bbsig2,1:p,1:a,64:f1ab6b1fa3e07be02cdd3816ad1c1c0f6a540c262e4c805f208a901850e5dde0,0;0;,0;64:fccf7280f0b71673fdc34066a31774a00c46b9403b23b5a246c7a940da0a7145";

/// It with the name of the next record as its unihash.
const TURNED: &[u8] =
    b"6:bbrec2,89:6:bbsig2,1:p,1:a,64:f1ab6b1fa3e07be02cdd3816ad1c1c0f6a540c262e4c805f208a901850e5dde0,0;0;,0;64:3499454fc2f9b43ffb296820a444b494c44716b4d484a1d408c18f0bdff47305,";

/// The path of the record of another signature of that task.
const OTHER: &str = "rec2/3499454fc2f9b43ffb296820a444b494c44716b4d484a1d408c18f0bdff47305";

/// The record there, which has the output and the unihash of the first one.
const SHARES: &[u8] =
    b"6:bbrec2,89:6:bbsig2,1:p,1:a,64:d6c06e8e6df7906ba96e515dfb3beb4b1faead98e8525279bb761d1b516bb233,0;0;,0;64:fccf7280f0b71673fdc34066a31774a00c46b9403b23b5a246c7a940da0a7145,";

/// One with that unihash, and another output.
const DIFFERS: &[u8] =
    b"6:bbrec2,89:6:bbsig2,1:p,1:a,64:d6c06e8e6df7906ba96e515dfb3beb4b1faead98e8525279bb761d1b516bb233,0;0;,1;1:f,f0;64:e3b0c44298fc1c149afbf4c8996fb92427ae41e4649b934ca495991b7852b855,64:fccf7280f0b71673fdc34066a31774a00c46b9403b23b5a246c7a940da0a7145,";

/// The path of the record of another task.
const BESIDE: &str = "rec2/63fb3a058418c109422929c4ecc017e438c5deaae1b065fc1d4594c53b2b8090";

/// The record there, which has the output and the unihash of the first one.
const ASIDE: &[u8] =
    b"6:bbrec2,89:6:bbsig2,1:p,1:c,64:f1ab6b1fa3e07be02cdd3816ad1c1c0f6a540c262e4c805f208a901850e5dde0,0;0;,0;64:fccf7280f0b71673fdc34066a31774a00c46b9403b23b5a246c7a940da0a7145,";

/// The path of the record of a task that needs the first one.
const ABOVE: &str = "rec2/8ff9c07b7ec30c4b393a9737115ad1337de6a3dda609ed55934183535921deb1";

/// The record there.
const NEEDS: &[u8] =
    b"6:bbrec2,165:6:bbsig2,1:p,1:d,64:f1ab6b1fa3e07be02cdd3816ad1c1c0f6a540c262e4c805f208a901850e5dde0,0;1;1:p,1:a,64:fccf7280f0b71673fdc34066a31774a00c46b9403b23b5a246c7a940da0a7145,,0;64:8ff9c07b7ec30c4b393a9737115ad1337de6a3dda609ed55934183535921deb1,";

/// The text of a stamp.
const DIGEST: &[u8] = b"fccf7280f0b71673fdc34066a31774a00c46b9403b23b5a246c7a940da0a7145\n";

/// It without the end of its line, with a digit less, and with a capital one.
const CUT_DIGEST: &[u8] = b"fccf7280f0b71673fdc34066a31774a00c46b9403b23b5a246c7a940da0a7145";

const SHORT_DIGEST: &[u8] = b"fccf7280f0b71673fdc34066a31774a00c46b9403b23b5a246c7a940da0a714\n";

const CAPITAL_DIGEST: &[u8] = b"Accf7280f0b71673fdc34066a31774a00c46b9403b23b5a246c7a940da0a7145\n";

/// A file and, where it has a path, another one; and how many of them opening leaves.
type Row = (
    &'static str,
    &'static [u8],
    &'static str,
    &'static [u8],
    usize,
);

const RECORDS: [Row; 15] = [
    (NAME, RECORD, "", b"", 1),
    (NAME, RECORD, ABOVE, NEEDS, 2),
    // a dependency that isn't there, or isn't believed
    (ABOVE, NEEDS, "", b"", 0),
    (NAME, CUT_RECORD, ABOVE, NEEDS, 0),
    // the unihash of a record of the same task and output; of one that isn't there, has another output, or is of another task
    (NAME, RECORD, OTHER, SHARES, 2),
    (OTHER, SHARES, "", b"", 0),
    (NAME, RECORD, OTHER, DIFFERS, 1),
    (NAME, RECORD, BESIDE, ASIDE, 1),
    // two records that have one another's name as unihash
    (NAME, TURNED, OTHER, SHARES, 0),
    // another record, and none at all
    (NAME, NEEDS, ABOVE, RECORD, 0),
    (NAME, b"", "", b"", 0),
    // a name that isn't its digest, and names that are none
    (ABOVE, RECORD, NAME, RECORD, 1),
    ("rec2/hello", RECORD, "", b"", 0),
    ("rec2/a/b", RECORD, "rec2/a/c", b"", 0),
    ("rec2", RECORD, "", b"", 0),
];

const OTHERS: [Row; 12] = [
    // what is under `stamp/` stays, be it a stamp or not
    ("stamp/p/t", DIGEST, "stamp/p/u", b"hello\n", 2),
    ("stamp/p", DIGEST, "", b"", 1),
    ("stamp/p/t/u", DIGEST, "", b"", 1),
    ("stamp/p/t", CUT_DIGEST, "", b"", 1),
    ("stamp/p/t", SHORT_DIGEST, "stamp/p/u", CAPITAL_DIGEST, 2),
    // where something stands above a work folder, too
    ("stamp/p/a", DIGEST, "work/p", b"", 2),
    ("stamp/p/a", DIGEST, "work", b"", 2),
    (NAME, RECORD, "stamp/p/a", DIGEST, 2),
    // but at `stamp` itself
    ("stamp", DIGEST, "", b"", 0),
    // temporary files, and all else
    ("tmp/rec2/x", RECORD, "tmp/stamp/p/t", DIGEST, 0),
    ("work/p/t/u", b"", "obj/x", b"", 2),
    // what stands where the first format has its records, and the file that says the format, are none of an opening's
    ("rec/hello", RECORD, "format", b"2\n", 2),
];

/// With no other key beside them: how many of these, keys too, opening leaves.
const KEYS: [Row; 8] = [
    // a record whose key isn't there
    (NAME, RECORD, "", b"", 0),
    (NAME, RECORD, ONE_LINE, ONE_LINE_KEY, 1),
    // one that has its key
    (NAME, RECORD, NO_LINES, NO_LINES_KEY, 2),
    // a key of other bytes stays, and its record isn't believed
    (NAME, RECORD, NO_LINES, ONE_LINE_KEY, 1),
    // keys without records stay
    (NO_LINES, NO_LINES_KEY, ONE_LINE, ONE_LINE_KEY, 2),
    // names that are none, and what stands in the way
    ("key/hello", NO_LINES_KEY, "", b"", 0),
    ("key/a/b", NO_LINES_KEY, "", b"", 0),
    ("key", NO_LINES_KEY, "", b"", 0),
];

/// A file and, where it has a path, another one.
fn files_of(
    alloc: Global,
    path: &str,
    bytes: &[u8],
    other: &str,
    more: &[u8],
) -> Result<Vec<(Text, Entry)>, Fail> {
    let mut files = Vec::new(alloc);
    files.push(file(alloc, path, bytes)?)?;
    if !other.is_empty() {
        files.push(file(alloc, other, more)?)?;
    }
    Ok(files)
}

/// The two keys.
fn two_keys(alloc: Global) -> Result<Vec<(Text, Entry)>, Fail> {
    files_of(alloc, ONE_LINE, ONE_LINE_KEY, NO_LINES, NO_LINES_KEY)
}

/// How many files are held, but for keys.
fn besides_keys(held: &[(Text, Entry)]) -> usize {
    held.iter()
        .filter(|one| !one.0.as_str().starts_with("key/"))
        .count()
}

/// A disk with a file and, where it has a path, another one; and with the two keys.
fn disk_of(
    alloc: Global,
    path: &str,
    bytes: &[u8],
    other: &str,
    more: &[u8],
) -> Result<MemDisk, Fail>
    ensures { IfOk result (λ disk. IsFresh (story_of disk)) }
{
    let mut files = files_of(alloc, path, bytes, other, more)?;
    files.append(&mut two_keys(alloc)?)?;
    match MemDisk::new(alloc, files) {
        Ok(disk) => Ok(disk),
        Err(_) => Err(Fail::from("no disk")),
    }
}

/// How many files opening leaves of one and, where it has a path, another one, beside the two keys.
fn left(alloc: Global, path: &str, bytes: &[u8], other: &str, more: &[u8]) -> Result<usize, Fail> {
    let disk = disk_of(alloc, path, bytes, other, more)?;
    Ok(besides_keys(opened(alloc, disk)?.into_disk().held()))
}

/// Whether opening leaves as many files as each row says.
fn are_left(alloc: Global, rows: &[Row]) -> Result<bool, Fail> {
    for (path, bytes, other, more, want) in rows {
        if left(alloc, path, bytes, other, more)? != *want {
            return Ok(false);
        }
    }
    Ok(true)
}

/// The same, where it is known ahead what the files `known` say.
fn left_beside(
    alloc: Global,
    path: &str,
    bytes: &[u8],
    other: &str,
    more: &[u8],
    known: Vec<(Text, Entry)>,
) -> Result<usize, Fail> {
    let disk = disk_of(alloc, path, bytes, other, more)?;
    let store = opened_beside(alloc, disk, known, two_keys(alloc)?)?;
    Ok(besides_keys(store.into_disk().held()))
}

/// Whether opening leaves as many files as each row says, whatever is known ahead: what the row's own files say, what one record alone
/// says, or what files at the row's paths say that all have that record's bytes.
fn are_left_beside_known(alloc: Global, rows: &[Row]) -> Result<bool, Fail> {
    for (path, bytes, other, more, want) in rows {
        let own = files_of(alloc, path, bytes, other, more)?;
        let one = files_of(alloc, NAME, RECORD, "", b"")?;
        let changed = files_of(alloc, path, RECORD, other, RECORD)?;
        for known in [own, one, changed] {
            if left_beside(alloc, path, bytes, other, more, known)? != *want {
                return Ok(false);
            }
        }
    }
    Ok(true)
}

/// What stands under `rec2/` goes, but for records that are believed.
#[test]
fn odd_records_go(rt: HostRuntime) -> Result<(), Fail> {
    assert!(rt; are_left(rt.alloc(), &RECORDS)?);
    Ok(())
}

/// No more and no less where it is known ahead what some files say, be it these or others.
#[test]
fn known_files_change_nothing(rt: HostRuntime) -> Result<(), Fail> {
    assert!(rt; are_left_beside_known(rt.alloc(), &RECORDS)?);
    Ok(())
}

/// How many files opening leaves of a file and, where it has a path, another one.
fn left_alone(
    alloc: Global,
    path: &str,
    bytes: &[u8],
    other: &str,
    more: &[u8],
) -> Result<usize, Fail> {
    match MemDisk::new(alloc, files_of(alloc, path, bytes, other, more)?) {
        Ok(disk) => Ok(opened(alloc, disk)?.into_disk().held().len()),
        Err(_) => Err(Fail::from("no disk")),
    }
}

/// A record counts with its key alone; keys stay, and what stands in their way goes.
#[test]
fn odd_keys_go(rt: HostRuntime) -> Result<(), Fail> {
    for (path, bytes, other, more, want) in KEYS {
        assert_eq!(rt; left_alone(rt.alloc(), path, bytes, other, more)?, want);
    }
    Ok(())
}

/// How many files opening leaves of the stamp of a task that gave nothing by its record, with that record and a file at this path.
fn left_of_blocked(alloc: Global, path: &str) -> Result<usize, Fail> {
    let mut files = files_of(alloc, NAME, RECORD, "stamp/p/a", DIGEST)?;
    files.push(file(alloc, path, b"")?)?;
    files.append(&mut two_keys(alloc)?)?;
    match MemDisk::new(alloc, files) {
        Ok(disk) => Ok(besides_keys(opened(alloc, disk)?.into_disk().held())),
        Err(_) => Err(Fail::from("no disk")),
    }
}

/// A stamp of a task that gave nothing goes where no folder can be at its work folder, and else stays.
#[test]
fn blocked_stamps_go(rt: HostRuntime) -> Result<(), Fail> {
    for (path, want) in [("work", 2), ("work/p", 2), ("work/p/a", 3), ("work/q", 3)] {
        assert_eq!(rt; left_of_blocked(rt.alloc(), path)?, want);
    }
    Ok(())
}

/// What stands under `stamp/` stays, all under `tmp/` goes, and what stands at `stamp` itself.
#[test]
fn other_odd_files_go(rt: HostRuntime) -> Result<(), Fail> {
    assert!(rt; are_left(rt.alloc(), &OTHERS)?);
    Ok(())
}
