// The remarks that were made so far.

use crate::files::Place;
use crate::kind::RemarkKind;
use crate::remark::Remark;
use meta_model::is_among;
use std::alloc::Global;
use std::collections::BTreeMap;
use std::collections::btree_map::Entry;
use tree_model::{Mem, Texts};
use value_maps::Names;

/// The recipes of which a remark is made: the first, or an empty text, and how many others.
#[derive(Drop)]
struct Recipes {
    first: String,
    others: usize,
}

/// The remarks that were made so far, each once, with the recipes that it was made of; and the kinds that are switched off.
#[derive(Drop)]
pub(crate) struct Notes {
    found: BTreeMap<Remark, Recipes>,
    skip: Texts,
}

/// A remark with its recipes in its words.
fn with_recipes(alloc: Global, remark: Remark, recipes: &Recipes) -> Result<Remark, Mem> {
    let first = recipes.first.as_str();
    let others = recipes.others;
    let mut made = remark;
    let told = match others {
        _ if first.is_empty() => return Ok(made),
        0 => format!(in alloc; " ({first})")?,
        1 => format!(in alloc; " ({first} and 1 other)")?,
        _ => format!(in alloc; " ({first} and {others} others)")?,
    };
    made.words.push_str(told.as_str())?;
    Ok(made)
}

/// Whether a remark is on one of these files.
fn is_on(remark: &Remark, files: &Option<Names>) -> bool {
    match files {
        Some(files) => files.get(remark.file.as_str()).is_some(),
        None => true,
    }
}

impl Notes {
    /// No remarks yet; those of the kinds that these words name won't be taken.
    pub(crate) fn new(alloc: Global, skip: Texts) -> Notes {
        Notes {
            found: BTreeMap::new(alloc),
            skip,
        }
    }

    /// Takes a remark on a line, of a recipe or, where the text is empty, of none.
    pub(crate) fn add(
        &mut self,
        alloc: Global,
        place: &Place<'_>,
        kind: RemarkKind,
        words: String,
        recipe: &str,
    ) -> Result<(), Mem> {
        if is_among(kind.name(), self.skip.as_slice()) {
            return Ok(());
        }
        let remark = Remark {
            file: String::from_str(alloc, place.file)?,
            line: place.line,
            kind,
            words,
        };
        let first = String::from_str(alloc, recipe)?;
        match self.found.entry(remark)? {
            Entry::Occupied(mut there) => {
                let recipes = there.get_mut();
                recipes.others = recipes.others.saturating_add(1);
            }
            Entry::Vacant(there) => {
                there.insert(Recipes { first, others: 0 });
            }
        }
        Ok(())
    }

    /// The remarks on these files, or without any on all, in their order.
    pub(crate) fn finish(self, alloc: Global, files: &Option<Names>) -> Result<Vec<Remark>, Mem> {
        let Notes { found, skip: _ } = self;
        let mut made = Vec::new(alloc);
        for (remark, recipes) in found {
            if is_on(&remark, files) {
                made.push(with_recipes(alloc, remark, &recipes)?)?;
            }
        }
        made.sort()?;
        Ok(made)
    }
}
