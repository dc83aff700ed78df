// The modes of this program alone, whose words go to no top call.
use crate::about::tell_about;
use crate::faults::{tell_fault, tell_passed};
use crate::help::HELP;
use crate::tell;
use bb_report::{fault_text, write_all};
use meta_model::Status;
use outside_os::{FolderLayers, StdSink};
use std::alloc::{AllocError, Global};
use std::{env, io};
use tree_model::Text;

/// A mode of this program alone.
#[derive(Clone, Copy, Drop)]
pub enum OwnMode {
    /// Prints the options.
    Help,

    /// Prints which commit the program is of.
    Version,

    /// Prints what is remarked on the metadata.
    Lint,

    /// Prints what a run would do, and why.
    Why,

    /// Prints the graph of the targets' tasks.
    Graph,
}

/// The word that asks what a run would do.
pub const WHY: &[&str] = &["--why"];

/// Behind it each word is a target.
const TARGETS_FOLLOW: &str = "--";

/// Whether the word is one of these.
fn is_one_of(word: &str, wanted: &[&str]) -> bool {
    for one in wanted {
        if word == *one {
            return true;
        }
    }
    false
}

/// Whether a word in front of `--` is one of these.
fn has_word(words: &[Text], wanted: &[&str]) -> bool {
    for word in words {
        if word.as_str() == TARGETS_FOLLOW {
            return false;
        }
        if is_one_of(word.as_str(), wanted) {
            return true;
        }
    }
    false
}

/// Whether no word but those that are wanted begins with a hyphen.
fn has_no_other(words: &[Text], wanted: &str) -> bool {
    for word in words {
        if word.as_str() != wanted && word.as_str().starts_with('-') {
            return false;
        }
    }
    true
}

/// The mode of this program alone that the words ask for, the first of: help, wherever its word stands; the version, too; remarks, which go with
/// targets alone; what a run would do; the graph.
pub fn own_mode(words: &[Text]) -> Option<OwnMode> {
    if has_word(words, &["-h", "--help"]) {
        Some(OwnMode::Help)
    } else if has_word(words, &["--version"]) {
        Some(OwnMode::Version)
    } else if has_word(words, &["--lint"]) && has_no_other(words, "--lint") {
        Some(OwnMode::Lint)
    } else if has_word(words, WHY) {
        Some(OwnMode::Why)
    } else if has_word(words, &["-g", "--graphviz"]) {
        Some(OwnMode::Graph)
    } else {
        None
    }
}

/// Behind each of these comes a value.
const VALUE_FOLLOWS: &[&str] = &["-c", "--cmd", "--sample"];

/// The words without the first of these options that is no value of another one; behind `--` all stay.
pub fn other_words(alloc: Global, words: &[Text], own: &[&str]) -> Result<Vec<Text>, AllocError> {
    let mut others = Vec::new(alloc);
    let mut own_may_come = true;
    let mut is_value = false;
    for word in words {
        own_may_come = own_may_come && (is_value || word.as_str() != TARGETS_FOLLOW);
        if own_may_come && !is_value && is_one_of(word.as_str(), own) {
            own_may_come = false;
        } else {
            is_value = is_one_of(word.as_str(), VALUE_FOLLOWS);
            others.push(Text::from_string(String::from_str(alloc, word.as_str())?))?;
        }
    }
    Ok(others)
}

/// A status with the line that is printed of it.
pub fn refused(alloc: Global, status: Status) -> (Status, Text) {
    match fault_text(alloc, &status) {
        Ok(text) => (status, text),
        Err(_) => (Status::OutOfMemory, Text::new(alloc)),
    }
}

/// Prints a text, and gives the status, which is that of a fault of standard output where it couldn't be written. Standard error says what that
/// says of itself.
fn print_text(rt: &HostRuntime, answered: Status, text: &str) -> io::Result<Status> {
    let mut sink = StdSink::new(rt.clone()?);
    let status = match write_all(&mut sink, text.as_bytes()) {
        Ok(()) => answered,
        Err(_) => Status::WriteFault,
    };
    tell(rt, "output", sink.first_fault());
    Ok(status)
}

/// Prints what a mode answers that has read these layers, says on standard error what there is to say of it, and gives the status.
pub fn print_answer(
    rt: &HostRuntime,
    answered: Status,
    text: &Text,
    layers: &FolderLayers<HostRuntime>,
) -> io::Result<Status> {
    let status = print_text(rt, answered, text.as_str())?;
    tell_fault(rt, &status);
    tell_about(rt, &status);
    tell_passed(rt, &status, layers);
    tell(rt, "layers", layers.first_fault());
    Ok(status)
}

/// Prints the line of a status that isn't Ok, and gives the status: that of want of memory, or of a fault of standard output, where it can't be printed.
pub fn print_refused(rt: &HostRuntime, status: Status) -> io::Result<Status> {
    let (status, text) = refused(rt.alloc(), status);
    print_text(rt, status, text.as_str())
}

/// Prints the options, and gives the exit status.
pub fn run_help(rt: &HostRuntime) -> io::Result<u8> {
    Ok(print_text(rt, Status::Ok, HELP)?.code())
}

/// What names the program's commit and kit, as what starts the program sets it.
const VERSION: &str = "BITBAKE_VERSION";

/// What the caller's variable has; nothing where it isn't there, or isn't UTF-8.
fn variable(rt: &HostRuntime, wanted: &str) -> Option<String> {
    if let Ok(variables) = env::vars(rt) {
        for (name, value) in variables {
            if name.as_str() == wanted {
                return Some(value);
            }
        }
    }
    None
}

/// Prints which commit the program is of, and gives the exit status.
pub fn run_version(rt: &HostRuntime) -> io::Result<u8> {
    let named = match variable(rt, VERSION) {
        Some(value) => value,
        None => String::from_str(rt.alloc(), "commit and kit unknown")?,
    };
    let mut text = String::from_str(rt.alloc(), "bitbake for shell tasks, ")?;
    text.push_str(named.as_str())?;
    text.push('\n')?;
    Ok(print_text(rt, Status::Ok, text.as_str())?.code())
}
