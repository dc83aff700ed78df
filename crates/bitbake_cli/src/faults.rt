// What is wrong where a run ends with a fault of the metadata, a limit, or a task that gave something else than before, as standard
// error tells it.
use crate::places::{layer_reason, reason_at};
use crate::records::tell_records;
use crate::sentences::{SENTENCES, Sentence};
use meta_model::Status;
use outside_os::FolderLayers;
use std::alloc::{AllocError, Global};
use std::io;
use tree_model::{ManifestLine, Text};

/// A fault without its sentence: the file or an empty text, the number of the line or 0, the kind, and its texts.
#[derive(Clone, Copy)]
struct Fault<'a> {
    file: &'a str,
    line: u32,
    kind: &'a str,
    texts: &'a [Text],
}

/// Says what is wrong and what to do, in one sentence, where the status is one that `docs/faults.tsv` has a row for. Where there
/// is no memory for it, or it can't be written, the status says it alone.
pub fn tell_fault(rt: &HostRuntime, status: &Status) {
    let sentence = match status {
        Status::Metadata {
            file,
            line,
            kind,
            detail,
        } => sentence_for(
            rt.alloc(),
            &Fault {
                file: file.as_str(),
                line: *line,
                kind: kind.as_str(),
                texts: detail.as_slice(),
            },
        ),
        Status::Limit { kind } => told_of(rt.alloc(), kind.as_str(), &[]),
        Status::Unsteady {
            pn,
            task,
            held,
            given,
        } => told_unsteady(
            rt.alloc(),
            pn.as_str(),
            task.as_str(),
            first_other(held.lines(), given.lines()),
        ),
        _ => return,
    };
    if let Ok(Some(sentence)) = sentence {
        let _ = eprintln!(rt; "{}", sentence.as_str());
    }
    tell_more(rt, status);
}

/// Says what is wrong with a further fault of the metadata, in one line.
pub fn tell_further(rt: &HostRuntime, status: &Status) {
    let Status::Metadata {
        file,
        line,
        kind,
        detail,
    } = status
    else {
        return;
    };
    let fault = Fault {
        file: file.as_str(),
        line: *line,
        kind: kind.as_str(),
        texts: detail.as_slice(),
    };
    if let Ok(Some(sentence)) = short_sentence_for(rt.alloc(), &fault) {
        let _ = eprintln!(rt; "{}", sentence.as_str());
    }
}

/// Says what the layers passed over: names that aren't UTF-8 and links that lead to no folder where one was to be listed, and where
/// nothing provides a name also the links to folders that a listing met and didn't enter.
pub fn tell_passed(rt: &HostRuntime, status: &Status, layers: &FolderLayers<HostRuntime>) {
    for remark in layers.remarks() {
        let _ = eprintln!(rt; "bitbake: layers: {}", remark.as_str());
    }
    let Status::Metadata { kind, .. } = status else {
        return;
    };
    if kind.as_str() == "NothingProvides" {
        for link in layers.links() {
            let _ = eprintln!(rt; "bitbake: layers: {}", link.as_str());
        }
    }
}

/// Says what the real files tell besides: why a file counts as missing, and which record tells what a task gave before.
fn tell_more(rt: &HostRuntime, status: &Status) {
    match status {
        Status::Metadata {
            file,
            line: _,
            kind,
            detail,
        } => {
            if let Some(text) = detail.as_slice().first()
                && let Ok(Some(reason)) = reason_for(
                    rt,
                    file.as_str(),
                    kind.as_str(),
                    text.as_str(),
                )
            {
                let _ = eprintln!(rt; "bitbake: layers: {}", reason.as_str());
            }
        }
        Status::Unsteady {
            pn,
            task,
            held,
            given: _,
        } => tell_records(rt, pn.as_str(), task.as_str(), held),
        _ => {}
    }
}

/// Why what a fault of this kind names counts as missing, as far as the real files tell.
fn reason_for(rt: &HostRuntime, file: &str, kind: &str, text: &str) -> io::Result<Option<String>> {
    match kind {
        "NoSuchLayer" => layer_reason(rt, text),
        "MissingClass" => reason_at(
            rt,
            format!(in rt.alloc(); "classes/{text}.bbclass")?.as_str(),
        ),
        "MissingFile" => reason_at(rt, text),
        "MissingRequired" => match reason_at(rt, text)? {
            Some(reason) => Ok(Some(reason)),
            None => match file.rsplit_once('/') {
                Some((folder, _)) => reason_at(
                    rt,
                    format!(in rt.alloc(); "{folder}/{text}")?.as_str(),
                ),
                None => Ok(None),
            },
        },
        _ => Ok(None),
    }
}

/// The sentence of a kind without a place.
fn told_of(alloc: Global, kind: &str, texts: &[Text]) -> Result<Option<String>, AllocError> {
    sentence_for(
        alloc,
        &Fault {
            file: "",
            line: 0,
            kind,
            texts,
        },
    )
}

/// The sentence of a task that gave something else at this path than before.
fn told_unsteady(
    alloc: Global,
    pn: &str,
    task: &str,
    path: &str,
) -> Result<Option<String>, AllocError> {
    let id = Text::from_string(format!(in alloc; "{pn}:{task}")?);
    let path = Text::from_string(String::from_str(alloc, path)?);
    told_of(alloc, "unsteady", &[id, path])
}

/// The first path at which two manifests differ, or an empty text.
fn first_other<'a>(held: &'a [ManifestLine], given: &'a [ManifestLine]) -> &'a str {
    for (before, now) in held.iter().zip(given) {
        let path = before.path.as_str().min(now.path.as_str());
        if before.path != now.path || before.kind != now.kind || before.hash != now.hash {
            // (the lesser of two paths stands in one of them alone)
            return path;
        }
    }
    let longer = if held.len() > given.len() {
        held
    } else {
        given
    };
    match longer.get(held.len().min(given.len())) {
        Some(line) => line.path.as_str(),
        None => "",
    }
}

/// The sentence of a fault, with its place in front.
fn sentence_for(alloc: Global, fault: &Fault<'_>) -> Result<Option<String>, AllocError> {
    let Some(sentence) = sentence_of(fault) else {
        return Ok(None);
    };
    let mut made = place_of(alloc, fault)?;
    push_filled(&mut made, sentence.wrong, fault.texts)?;
    made.push_str("; ")?;
    push_filled(&mut made, sentence.mend, fault.texts)?;
    Ok(Some(made))
}

/// What is wrong alone, with its place in front.
fn short_sentence_for(alloc: Global, fault: &Fault<'_>) -> Result<Option<String>, AllocError> {
    let Some(sentence) = sentence_of(fault) else {
        return Ok(None);
    };
    let mut made = place_of(alloc, fault)?;
    push_filled(&mut made, sentence.wrong, fault.texts)?;
    Ok(Some(made))
}

/// The row of the table for a fault.
fn sentence_of(fault: &Fault<'_>) -> Option<&'static Sentence> {
    SENTENCES.iter().find(|row| fits(row, fault))
}

/// Whether a row of the table is for this fault.
fn fits(row: &Sentence, fault: &Fault<'_>) -> bool {
    match row.kind.split_once(", ") {
        None => row.kind == fault.kind,
        Some((kind, "no file")) => kind == fault.kind && fault.file.is_empty(),
        Some((kind, _)) => kind == fault.kind && has_no_text(fault.texts),
    }
}

/// Whether the first text is there and empty.
fn has_no_text(texts: &[Text]) -> bool {
    match texts.first() {
        Some(text) => text.as_str().is_empty(),
        None => false,
    }
}

/// The place of a fault as editors read it, or the program's name where no file is at fault.
fn place_of(alloc: Global, fault: &Fault<'_>) -> Result<String, AllocError> {
    let file = fault.file;
    match fault.line {
        _ if file.is_empty() => String::from_str(alloc, "bitbake: "),
        0 => format!(in alloc; "{file}: "),
        line => format!(in alloc; "{file}:{line}: "),
    }
}

/// Puts a sentence at the end, each mark in it replaced by what it stands for.
fn push_filled(made: &mut String, sentence: &str, texts: &[Text]) -> Result<(), AllocError> {
    for part in sentence.split('<') {
        match part.split_once('>') {
            Some((mark, rest)) => {
                push_marked(made, mark, texts)?;
                made.push_str(rest)?;
            }
            None => made.push_str(part)?,
        }
    }
    Ok(())
}

/// Puts the text of a mark at the end, or with `..` behind its number all texts from there on.
fn push_marked(made: &mut String, mark: &str, texts: &[Text]) -> Result<(), AllocError> {
    let texts = if mark.starts_with('2') {
        texts.get(1..).unwrap_or(&[])
    } else {
        texts
    };
    if mark.ends_with("..") {
        return push_all(made, texts);
    }
    match texts.first() {
        Some(text) => made.push_str(text.as_str()),
        None => Ok(()),
    }
}

/// Puts texts at the end, with commas between them.
fn push_all(made: &mut String, texts: &[Text]) -> Result<(), AllocError> {
    let mut before = "";
    for text in texts {
        made.push_str(before)?;
        made.push_str(text.as_str())?;
        before = ", ";
    }
    Ok(())
}
