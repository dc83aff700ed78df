// What is said of a fault of the metadata behind its sentence: who asks for what isn't there, what a line looks like, which other recipes
// are at fault, and that a folder is no project.
use crate::faults::tell_further;
use meta_model::Status;
use outside_os::FolderLayers;
use recipe_lint::{Asker, Watched, looks_like, refused_recipes, who_asks};
use std::fs;
use std::io::ErrorKind;
use std::rt::Files;
use tree_model::Text;

/// The most further faults that are told.
const MOST_TOLD: usize = 20;

/// Says what there is to say of a fault behind its sentence. What can't be read anew is left out.
pub fn tell_about(rt: &HostRuntime, status: &Status) {
    let Status::Metadata {
        file,
        line,
        kind,
        detail,
    } = status
    else {
        return;
    };
    match kind.as_str() {
        "NothingProvides" => {
            tell_askers(rt, kind.as_str(), detail.as_slice());
            tell_no_project(rt);
        }
        "SeveralProvide" | "NoSuchTask" | "TaskCycle" => {
            tell_askers(rt, kind.as_str(), detail.as_slice());
        }
        "BadLine" => tell_mistake(rt, file.as_str(), *line),
        _ => {}
    }
    tell_others(rt, status);
}

/// Says who asks for what a refusal of the graph speaks of.
fn tell_askers(rt: &HostRuntime, kind: &str, texts: &[Text]) {
    let Ok(again) = rt.clone() else {
        return;
    };
    let mut layers = Watched::new(rt.alloc(), FolderLayers::new(again));
    let Ok(found) = who_asks(rt.alloc(), &mut layers, kind, texts) else {
        return;
    };
    for asker in &found.list {
        tell_asker(rt, asker);
    }
    if found.others > 0 {
        let _ = eprintln!(rt; "bitbake: {} more ask for it", found.others);
    }
}

/// Says of one who asks.
fn tell_asker(rt: &HostRuntime, asker: &Asker) {
    let (file, line, words) = (asker.file.as_str(), asker.line, asker.words.as_str());
    let _ = if line == 0 {
        eprintln!(rt; "{file}: {words}")
    } else {
        eprintln!(rt; "{file}:{line}: {words}")
    };
}

/// Whether nothing stands at a path.
fn is_absent(rt: &HostRuntime, path: &str) -> bool {
    match fs::symlink_metadata(rt, path) {
        Ok(_) => false,
        Err(error) => matches!(error.kind(), ErrorKind::NotFound),
    }
}

/// Says that the current folder is no project, where it has neither a configuration nor recipes.
pub fn tell_no_project(rt: &HostRuntime) {
    if is_absent(rt, "conf") && is_absent(rt, "recipes") {
        let _ = eprintln!(rt;
            "bitbake: this folder is no project: it has neither conf/ nor recipes/; go to the folder that has one of them"
        );
    }
}

/// Says what a line looks like that is no statement.
fn tell_mistake(rt: &HostRuntime, file: &str, line: u32) {
    let Ok(bytes) = fs::read(rt, file) else {
        return;
    };
    match looks_like(file, bytes.as_slice(), line) {
        "" => {}
        words => {
            let _ = eprintln!(rt; "{file}:{line}: {words}");
        }
    }
}

/// Says what is wrong with further recipes.
fn tell_others(rt: &HostRuntime, status: &Status) {
    let Ok(again) = rt.clone() else {
        return;
    };
    let mut layers = FolderLayers::new(again);
    let Ok(others) = refused_recipes(rt.alloc(), &mut layers, status) else {
        return;
    };
    for other in others.iter().take(MOST_TOLD) {
        tell_further(rt, other);
    }
    let more = others.len().saturating_sub(MOST_TOLD);
    if more > 0 {
        let _ = eprintln!(rt; "bitbake: {more} more faults of recipes");
    }
}
