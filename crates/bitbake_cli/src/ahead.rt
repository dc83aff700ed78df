// What a run reads in a thread of its own while the metadata is read.
use answer_model::Mode;
use build_store::{Ahead, Known};
use command_words::{mode_of, read_words};
use outside_os::ReadAhead;
use std::alloc::{AllocError, Global};
use std::io;
use tree_model::Text;

/// Whether these words ask for a run.
pub fn is_run(rt: &HostRuntime, words: &[Text]) -> bool {
    match read_words(rt.alloc(), words) {
        Ok(request) => mode_of(&request) == Mode::Run,
        Err(_) => false,
    }
}

/// The name of the configuration of which a word is a target; none where it has no such form. That of the default one is empty.
fn config_of(word: &str) -> Option<&str> {
    let (name, _) = word.strip_prefix("mc:")?.split_once(':')?;
    Some(name)
}

/// Whether a target is one of the default configuration, so that its store will be read.
pub fn reads_default(rt: &HostRuntime, words: &[Text]) -> bool {
    match read_words(rt.alloc(), words) {
        Ok(request) => {
            for target in request.targets.as_slice() {
                if config_of(target.as_str()).is_none_or(str::is_empty) {
                    return true;
                }
            }
            request.targets.as_slice().is_empty()
        }
        Err(_) => false,
    }
}

/// The names of the configurations that words name.
pub fn configs_in(alloc: Global, words: &[Text]) -> Result<Vec<Text>, AllocError> {
    let mut names = Vec::new(alloc);
    for word in words {
        if let Some(name) = config_of(word.as_str()) {
            if !name.is_empty() {
                names.push(Text::from_string(String::from_str(alloc, name)?))?;
            }
        }
    }
    Ok(names)
}

/// Whether these words ask for the targets' tasks to run whatever is there.
pub fn is_forced(rt: &HostRuntime, words: &[Text]) -> bool {
    match read_words(rt.alloc(), words) {
        Ok(request) => request.force,
        Err(_) => false,
    }
}

/// The bytes of a piece of room. For a larger one the C library asks the system by itself, and gives it back at once.
const PIECE: u64 = 114_688;

/// The most bytes of room that are taken beforehand.
const MOST_ROOM: u64 = 50_331_648;

/// About how many bytes are taken of a file beside twice its own.
const ROOM_OF_FILE: u64 = 512;

/// Takes room in large pieces, and gives it back to this thread: one that isn't the first gets it page by page else, with a call to the system for each. Want
/// of memory is met where the room is needed.
fn take_room(alloc: Global, bytes: u64) {
    let mut pieces = Vec::new(alloc);
    for _ in 0..bytes.min(MOST_ROOM) / PIECE {
        let Ok(piece) = Vec::<u8>::with_capacity(alloc, PIECE as usize) else {
            return;
        };
        if pieces.push(piece).is_err() {
            return;
        }
    }
}

/// Takes the room for what is worked out of the files that were read.
fn take_room_for(alloc: Global, reading: &ReadAhead) {
    let (count, bytes) = reading.size();
    let beside = (count as u64).saturating_mul(ROOM_OF_FILE);
    take_room(alloc, bytes.saturating_mul(2).saturating_add(beside));
}

/// Works out what the files say that were read ahead, where those under `rec2/` and under `key/` were.
fn known_of(rt: &HostRuntime, reading: &ReadAhead) -> io::Result<Option<Known>> {
    take_room_for(rt.alloc(), reading);
    let Some(records) = reading.records(rt.alloc())? else {
        return Ok(None);
    };
    match reading.keys(rt.alloc())? {
        Some(keys) => Ok(Known::of_files(rt.alloc(), records, keys).ok()),
        None => Ok(None),
    }
}

/// Reads what opening a store will ask of the disk, and works out what the files under `rec2/` and `key/` say. What fails is left to the run.
pub fn read_ahead(rt: &HostRuntime, reading: &ReadAhead, ahead: &Ahead) {
    reading.read(rt);
    if let Ok(Some(known)) = known_of(rt, reading) {
        ahead.put(known);
    }
}
