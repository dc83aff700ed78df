// The mode that says what is remarked on the metadata, and how many lines show a remark in a run.
use crate::about::tell_no_project;
use crate::own_modes::{other_words, print_answer, refused};
use meta_model::Status;
use outside_os::FolderLayers;
use recipe_lint::{Watched, lint, remarks_text};
use std::alloc::{AllocError, Global};
use std::{env, io};
use tree_model::Text;

/// The word that asks for the mode.
const LINT: &str = "--lint";

/// The names of the caller's variables; none where one isn't UTF-8.
fn environment_of(rt: &HostRuntime) -> Result<Vec<Text>, AllocError> {
    let mut names = Vec::new(rt.alloc());
    if let Ok(variables) = env::vars(rt) {
        for (name, _) in variables {
            names.push(Text::from_string(name))?;
        }
    }
    Ok(names)
}

/// How the mode ends, and what it prints: the remarks, or the line of a fault as a run would print it.
fn answer(
    alloc: Global,
    layers: &mut Watched<FolderLayers<HostRuntime>>,
    targets: &[Text],
    environment: &[Text],
) -> (Status, Text) {
    match lint(alloc, layers, targets, environment) {
        Ok(remarks) => match remarks_text(alloc, remarks.as_slice()) {
            Ok(text) => (Status::Ok, text),
            Err(_) => refused(alloc, Status::OutOfMemory),
        },
        Err(status) => refused(alloc, status),
    }
}

/// Prints the remarks on the metadata of the current folder, with targets among the words those on the files that these are read from,
/// and gives the exit status.
pub fn run_lint(rt: &HostRuntime, words: &[Text]) -> io::Result<u8> {
    let targets = other_words(rt.alloc(), words, &[LINT])?;
    let environment = environment_of(rt)?;
    let mut layers = Watched::new(rt.alloc(), FolderLayers::new(rt.clone()?));
    let (answered, text) = answer(rt.alloc(), &mut layers, &targets, &environment);
    let status = print_answer(rt, answered, &text, &layers.inner)?;
    if matches!(status, Status::Ok) {
        tell_no_project(rt);
    }
    Ok(status.code())
}

/// Says how many lines of the metadata show a remark by themselves, where any do.
pub fn tell_count(rt: &HostRuntime, count: u64) {
    let _ = match count {
        0 => return,
        1 => eprintln!(rt;
            "bitbake: lint: 1 remark on a line of the metadata; bitbake --lint shows it, and what no line shows alone"
        ),
        _ => eprintln!(rt;
            "bitbake: lint: {count} remarks on lines of the metadata; bitbake --lint shows them, and what no line shows alone"
        ),
    };
}
