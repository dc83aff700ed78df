// In what two signatures of a task differ.

use crate::diff::{is_long, put_diff};
use crate::told::Told;
use meta_model::{Key, KeyLine, Resolved};
use std::alloc::{AllocError, Global};
use store_model::{DepLine, SigRecord};
use tree_model::{Hash, ListOf, Text};

/// The line of a name, in lines that ascend by names.
fn line_of<'k>(key: &'k Key, name: &str) -> Option<&'k KeyLine> {
    let lines = key.lines.as_slice();
    match lines.binary_search_by(|line| line.name.as_str().cmp(name)) {
        Ok(at) => lines.get(at),
        Err(_) => None,
    }
}

/// What belongs to a name in a list of pairs.
fn value_in<'k>(pairs: &'k ListOf<(Text, Text)>, name: &str) -> Option<&'k str> {
    for pair in pairs.as_slice() {
        if pair.0.as_str() == name {
            return Some(pair.1.as_str());
        }
    }
    None
}

/// The lines of a text; none where there is no text.
fn lines_of(alloc: Global, text: Option<&str>) -> Result<Vec<&str>, AllocError> {
    let mut lines = Vec::new(alloc);
    if let Some(text) = text {
        for line in text.split('\n') {
            lines.push(line)?;
        }
    }
    Ok(lines)
}

/// Puts a text between quotes, or that there is none.
fn put_value(words: &mut String, text: Option<&str>) -> Result<(), AllocError> {
    match text {
        Some(text) => write!(words, "\"{text}\""),
        None => words.push_str("nothing"),
    }
}

/// Puts that a text became another one, or came, or went. `name` says what it is the text of.
fn put_text(
    alloc: Global,
    told: &mut Told,
    name: &str,
    was: Option<&str>,
    now: Option<&str>,
) -> Result<(), AllocError> {
    told.begin()?;
    told.note_root(alloc, name, " changed")?;
    if was.is_some_and(is_long) || now.is_some_and(is_long) {
        write!(&mut told.words, "{name} changed, as below")?;
        let was = lines_of(alloc, was)?;
        let now = lines_of(alloc, now)?;
        return put_diff(&mut told.below, name, &was, &now);
    }
    write!(&mut told.words, "{name}: ")?;
    put_value(&mut told.words, was)?;
    told.words.push_str(" -> ")?;
    put_value(&mut told.words, now)
}

/// The text of a value, where there is one.
fn text_of(value: Option<&Resolved>) -> Option<&str> {
    match value {
        Some(value) => Some(value.text.as_str()),
        None => None,
    }
}

/// The value of a line, where it has one.
fn value_of(line: Option<&KeyLine>) -> Option<&Resolved> {
    match line {
        Some(line) => line.value.as_ref(),
        None => None,
    }
}

/// Whether two lists of removed words are the same.
fn same_removes(was: &Resolved, now: &Resolved) -> bool {
    let was = was.removes.as_slice();
    let now = now.removes.as_slice();
    if was.len() != now.len() {
        return false;
    }
    for (one, other) in was.iter().zip(now) {
        if one.as_str() != other.as_str() {
            return false;
        }
    }
    true
}

/// Puts a flag that isn't as it was.
fn put_flag(
    alloc: Global,
    told: &mut Told,
    name: &str,
    flag: &str,
    was: Option<&str>,
    now: Option<&str>,
) -> Result<(), AllocError> {
    if was == now {
        return Ok(());
    }
    let full = format!(in alloc; "{name}[{flag}]")?;
    put_text(alloc, told, full.as_str(), was, now)
}

/// Puts in what the flags of a value differ.
fn put_flags(
    alloc: Global,
    told: &mut Told,
    name: &str,
    was: &Resolved,
    now: &Resolved,
) -> Result<(), AllocError> {
    for flag in now.flags.as_slice() {
        let before = value_in(&was.flags, flag.0.as_str());
        put_flag(
            alloc,
            told,
            name,
            flag.0.as_str(),
            before,
            Some(flag.1.as_str()),
        )?;
    }
    for flag in was.flags.as_slice() {
        if value_in(&now.flags, flag.0.as_str()).is_none() {
            put_flag(
                alloc,
                told,
                name,
                flag.0.as_str(),
                Some(flag.1.as_str()),
                None,
            )?;
        }
    }
    Ok(())
}

/// Puts in what two values differ besides their texts.
fn put_rest(
    alloc: Global,
    told: &mut Told,
    name: &str,
    was: &Resolved,
    now: &Resolved,
) -> Result<(), AllocError> {
    if !same_removes(was, now) {
        told.put(alloc, name, ":remove changed", true)?;
    }
    put_flags(alloc, told, name, was, now)
}

/// Puts in what the line of a name differs.
fn put_line(
    alloc: Global,
    told: &mut Told,
    name: &str,
    was: Option<&KeyLine>,
    now: Option<&KeyLine>,
) -> Result<(), AllocError> {
    let was = value_of(was);
    let now = value_of(now);
    if text_of(was) != text_of(now) {
        put_text(alloc, told, name, text_of(was), text_of(now))?;
    }
    match (was, now) {
        (Some(was), Some(now)) => put_rest(alloc, told, name, was, now),
        _ => Ok(()),
    }
}

/// Puts in what two keys differ.
fn put_keys(alloc: Global, told: &mut Told, was: &Key, now: &Key) -> Result<(), AllocError> {
    for line in now.lines.as_slice() {
        let name = line.name.as_str();
        put_line(alloc, told, name, line_of(was, name), Some(line))?;
    }
    for line in was.lines.as_slice() {
        let name = line.name.as_str();
        if line_of(now, name).is_none() {
            put_line(alloc, told, name, Some(line), None)?;
        }
    }
    Ok(())
}

/// The digest of a file, in files that ascend by names.
fn file_of<'f>(files: &'f ListOf<(Text, Hash)>, name: &str) -> Option<&'f Hash> {
    let files = files.as_slice();
    match files.binary_search_by(|file| file.0.as_str().cmp(name)) {
        Ok(at) => match files.get(at) {
            Some(file) => Some(&file.1),
            None => None,
        },
        Err(_) => None,
    }
}

/// Puts in what the input files differ.
fn put_files(
    alloc: Global,
    told: &mut Told,
    was: &ListOf<(Text, Hash)>,
    now: &ListOf<(Text, Hash)>,
) -> Result<(), AllocError> {
    for file in now.as_slice() {
        let name = file.0.as_str();
        match file_of(was, name) {
            None => told.put(alloc, name, " came", true)?,
            Some(digest) if digest.bytes != file.1.bytes => told.put(
                alloc, name, " changed", true,
            )?,
            Some(_) => {}
        }
    }
    for file in was.as_slice() {
        if file_of(now, file.0.as_str()).is_none() {
            told.put(alloc, file.0.as_str(), " went", true)?;
        }
    }
    Ok(())
}

/// Whether a line names this needed task.
fn is_of(dep: &DepLine, pn: &str, task: &str) -> bool {
    dep.task.as_str() == task && dep.pn.as_str() == pn
}

/// What is named of a task that a signature needs, with its place. It is looked for from a place on, and then before it: two signatures of a task name
/// mostly the same ones in one order.
fn dep_of<'d>(
    deps: &'d [DepLine],
    from: usize,
    pn: &str,
    task: &str,
) -> Option<(usize, &'d DepLine)> {
    for place in from..deps.len() {
        if is_of(&deps[place], pn, task) {
            return Some((place, &deps[place]));
        }
    }
    for place in 0..from.min(deps.len()) {
        if is_of(&deps[place], pn, task) {
            return Some((place, &deps[place]));
        }
    }
    None
}

/// Puts what is so of a needed task.
fn put_dep(
    alloc: Global,
    told: &mut Told,
    dep: &DepLine,
    how: &str,
    is_own: bool,
) -> Result<(), AllocError> {
    let name = format!(in alloc; "{}:{}", dep.pn.as_str(), dep.task.as_str())?;
    told.put(alloc, name.as_str(), how, is_own)
}

/// Puts in which needed tasks are new, and which gave another output.
fn put_new_deps(
    alloc: Global,
    told: &mut Told,
    was: &[DepLine],
    now: &[DepLine],
) -> Result<(), AllocError> {
    let mut next = 0usize;
    for dep in now {
        match dep_of(was, next, dep.pn.as_str(), dep.task.as_str()) {
            None => put_dep(alloc, told, dep, " is needed now", true)?,
            Some((place, before)) => {
                next = place.saturating_add(1);
                if before.name.bytes != dep.name.bytes {
                    put_dep(alloc, told, dep, " gives another output", false)?;
                }
            }
        }
    }
    Ok(())
}

/// Puts in which needed tasks are gone.
fn put_gone_deps(
    alloc: Global,
    told: &mut Told,
    was: &[DepLine],
    now: &[DepLine],
) -> Result<(), AllocError> {
    let mut next = 0usize;
    for dep in was {
        match dep_of(now, next, dep.pn.as_str(), dep.task.as_str()) {
            None => put_dep(alloc, told, dep, " is needed no more", true)?,
            Some((place, _)) => next = place.saturating_add(1),
        }
    }
    Ok(())
}

/// In what a task's signature differs from an earlier one of it: the lines of its key, its input files, the tasks that it needs and what they gave.
pub(crate) fn differences(
    alloc: Global,
    was: &SigRecord,
    now: &SigRecord,
) -> Result<Told, AllocError> {
    let mut told = Told::nothing(alloc);
    put_keys(alloc, &mut told, &was.key, &now.key)?;
    put_files(alloc, &mut told, &was.files, &now.files)?;
    put_new_deps(alloc, &mut told, was.deps.as_slice(), now.deps.as_slice())?;
    put_gone_deps(alloc, &mut told, was.deps.as_slice(), now.deps.as_slice())?;
    Ok(told)
}
