// What is told of one task.

use std::alloc::{AllocError, Global};

/// Why a task ran, in words.
#[derive(Drop)]
pub(crate) struct Told {
    /// The reasons, with `; ` between them.
    pub(crate) words: String,

    /// Lines that stand below, each indented and ended: how long texts differ.
    pub(crate) below: String,

    /// The first reason that is the task's own, in few words.
    pub(crate) root: Option<String>,
}

/// Why a task ran that differs in nothing from what is recorded of it, or of which nothing is.
#[derive(Clone, Copy, Drop)]
pub(crate) enum Without {
    /// Nothing tells of an earlier run of it.
    New,

    /// The option `-f` asked for it.
    Forced,

    /// It runs in each run that needs it.
    Always,

    /// What it gave isn't there as it was.
    Gone,
}

/// The words for each of these.
fn words_of(without: Without) -> &'static str {
    match without {
        Without::New => "nothing tells of an earlier run of it",
        Without::Forced => "it was asked for with -f",
        Without::Always => "it runs in each run (nostamp)",
        Without::Gone => "its output is gone, or was changed by hand",
    }
}

/// Why a task ran whose signature tells nothing of it.
pub(crate) fn reason_without(alloc: Global, without: Without) -> Result<Told, AllocError> {
    let words = words_of(without);
    Ok(Told {
        words: String::from_str(alloc, words)?,
        below: String::new(alloc),
        root: Some(String::from_str(alloc, words)?),
    })
}

impl Told {
    /// Nothing so far.
    pub(crate) fn nothing(alloc: Global) -> Told {
        Told {
            words: String::new(alloc),
            below: String::new(alloc),
            root: None,
        }
    }

    /// Whether there is no reason.
    pub(crate) fn is_empty(&self) -> bool {
        self.words.as_str().is_empty()
    }

    /// Begins a reason, behind those before it.
    pub(crate) fn begin(&mut self) -> Result<(), AllocError> {
        if self.words.as_str().is_empty() {
            return Ok(());
        }
        self.words.push_str("; ")
    }

    /// Puts a reason of two parts. Where it is the task's own and the first such, it is the root.
    pub(crate) fn put(
        &mut self,
        alloc: Global,
        what: &str,
        how: &str,
        is_own: bool,
    ) -> Result<(), AllocError> {
        self.begin()?;
        write!(&mut self.words, "{what}{how}")?;
        if is_own {
            self.note_root(alloc, what, how)?;
        }
        Ok(())
    }

    /// Makes a reason the root, where there is none.
    pub(crate) fn note_root(
        &mut self,
        alloc: Global,
        what: &str,
        how: &str,
    ) -> Result<(), AllocError> {
        if self.root.is_none() {
            self.root = Some(format!(in alloc; "{what}{how}")?);
        }
        Ok(())
    }
}
