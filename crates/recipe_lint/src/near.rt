// The name that was meant by one that isn't known.

use std::alloc::Global;
use strsim::osa_distance;
use tree_model::Mem;

/// The nearest so far of the names that a word may have meant.
#[derive(Drop)]
pub(crate) struct Near<'w, 'a> {
    word: &'w str,
    best: &'a str,
    edits: usize,
}

/// How many letters have to be put in, left out, changed or swapped so that a word isn't near: more than one, and of a long word more
/// than two. The front `do_` doesn't count.
fn far_from(word: &str) -> usize {
    match word.strip_prefix("do_").unwrap_or(word).len() {
        0..3 => 0,
        3..6 => 2,
        _ => 3,
    }
}

impl<'w, 'a> Near<'w, 'a> {
    /// Nothing is near to the word so far.
    pub(crate) fn to(word: &'w str) -> Near<'w, 'a> {
        Near {
            word,
            best: "",
            edits: far_from(word),
        }
    }

    /// Looks at another name.
    pub(crate) fn look(&mut self, alloc: Global, name: &'a str) -> Result<(), Mem> {
        if name.len().abs_diff(self.word.len()) >= self.edits {
            return Ok(());
        }
        let edits = osa_distance(alloc, self.word, name)?;
        if edits > 0 && edits < self.edits {
            self.edits = edits;
            self.best = name;
        }
        Ok(())
    }

    /// The nearest, or an empty text.
    pub(crate) fn best(&self) -> &'a str {
        self.best
    }
}
