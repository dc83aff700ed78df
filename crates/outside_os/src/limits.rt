// What is too long for the formats of a disk, which its size tells before a byte is read.
use host_files::FileFacts;
use std::alloc::Global;
use std::io;
use tree_model::{Bytes, Entry};

/// Where the records stand.
pub const RECORDS: &str = "rec2/";

/// Where the keys stand.
pub const KEYS: &str = "key/";

/// Where records of the first format stand.
const FIRST_RECORDS: &str = "rec/";

/// Where the stamps stand.
const STAMPS: &str = "stamp/";

/// More bytes than a record or a key has: a task's key is no longer than those of a plan together, 268,435,456 bytes, and what a record
/// has is shorter by far; one of the first format has the key too.
const MOST_OF_RECORD: u64 = 1_073_741_824;

/// The bytes of a stamp: a digest's digits and a newline.
const MOST_OF_STAMP: u64 = 65;

/// The most bytes of a file of an output or an object.
const MOST_OF_OUTPUT: u64 = 16_777_216;

/// Whether a file with these facts has more bytes than what stands at this path of a disk may have.
pub fn is_beyond(path: &str, facts: &FileFacts) -> bool {
    facts.is_file() && facts.length > most_at(path)
}

/// The most bytes of what stands at a path of a disk.
fn most_at(path: &str) -> u64 {
    if is_record(path) {
        MOST_OF_RECORD
    } else if path.starts_with(STAMPS) {
        MOST_OF_STAMP
    } else {
        MOST_OF_OUTPUT
    }
}

/// Whether a record or a key may stand at a path of a disk.
fn is_record(path: &str) -> bool {
    path.starts_with(RECORDS) || path.starts_with(KEYS) || path.starts_with(FIRST_RECORDS)
}

/// What counts in place of an entry at a path that can't be one of the store's: a file that is none either. No record, no key and no stamp
/// is empty, and no output has a file of one byte more than the most.
pub fn no_entry_of_the_store(alloc: Global, path: &str) -> io::Result<Entry> {
    let bytes = if is_record(path) || path.starts_with(STAMPS) {
        Vec::new(alloc)
    } else {
        vec![in alloc; 0; MOST_OF_OUTPUT as usize + 1]?
    };
    Ok(Entry::File {
        exec: false,
        bytes: Bytes::from_vec(bytes),
    })
}
