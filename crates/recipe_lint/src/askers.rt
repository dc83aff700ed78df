// Who asks for what a refusal of the graph speaks of.
ghost use Rattle.outside_traits.specs.Fault.{Counts};
ghost use Rattle.outside_traits.specs.Store.{SameFiles};
ghost use Rattle.project_reading.specs.Answered.{mode_failed};

use crate::asked::{Ask, asks_of, words_of};
use crate::files::Files;
use crate::recipes::read_some;
use crate::watched::Watched;
use layer_conf::Config;
use meta_model::{FactSet, Status};
use outside_traits::Layers;
use project_reading::{or_status, read_config, read_recipes};
use std::alloc::Global;
use tree_model::{Mem, Text, Texts};

/// The most lines that are told.
const MOST_TOLD: usize = 5;

/// A line that asks for something. Where none was found it is 0, and the file is the recipe's.
#[derive(Debug, Drop)]
pub struct Asker {
    /// The path of the file, from the project's folder.
    pub file: String,
    /// The number of the line, from 1, or 0.
    pub line: u32,
    /// The recipe, and the variable or flag.
    pub words: String,
}

/// Lines that ask for something, at most five, and how many others there are.
#[derive(Debug, Drop)]
pub struct Askers {
    /// The lines.
    pub list: Vec<Asker>,
    /// How many others.
    pub others: usize,
}

/// The line of an asker, in files that were read since the last `begin`.
fn asker_of(
    alloc: Global,
    files: &mut Files,
    facts: &FactSet,
    ask: &Ask<'_>,
    path: &str,
) -> Result<Asker, Mem> {
    let reads = files.begin(alloc);
    let words = words_of(alloc, facts, ask)?;
    match files.place_in(reads.as_slice(), ask.sought()) {
        Some(place) => Ok(Asker {
            file: String::from_str(alloc, place.file)?,
            line: place.line,
            words,
        }),
        None => Ok(Asker {
            file: String::from_str(alloc, path)?,
            line: 0,
            words,
        }),
    }
}

/// The lines of some who ask: each one's recipe is read by itself.
fn told<L: Layers>(
    alloc: Global,
    layers: &mut Watched<L>,
    config: &mut Config,
    facts: &FactSet,
    asks: &[Ask<'_>],
) -> Result<Vec<Asker>, Status>
    ensures same { SameFiles L.files layers.old.inner layers.new.inner }
    ensures cause { Counts (L.faults layers.old.inner) (L.faults layers.new.inner) (mode_failed result) }
{
    let appends = std::mem::replace(&mut config.appends, Texts::new(alloc));
    let mut made = Vec::new(alloc);
    for ask in asks {
        if let Some(recipe) = facts.recipes.as_slice().get(ask.recipe) {
            layers.files.begin(alloc);
            let one = or_status(one_text(alloc, &recipe.file))?;
            read_some(alloc, layers, config, one.as_slice(), appends.as_slice())?;
            let asker = asker_of(alloc, &mut layers.files, facts, ask, recipe.file.as_str());
            or_status(put(&mut made, asker))?;
        }
    }
    Ok(made)
}

/// A list of one text.
fn one_text(alloc: Global, text: &Text) -> Result<Texts, Mem> {
    let mut made = Texts::new(alloc);
    made.push(text.copy()?)?;
    Ok(made)
}

/// Puts an asker at the end.
fn put(list: &mut Vec<Asker>, asker: Result<Asker, Mem>) -> Result<(), Mem> {
    list.push(asker?)?;
    Ok(())
}

/// Who asks for what a refusal of this kind, with these texts, speaks of: recipes, each with the variable or the flag, and its file and
/// line. There is nobody where a word of the command line asks, or where the refusal isn't one of the graph.
///
/// The project is read anew. Refused as reading is. No call changes a file.
pub fn who_asks<L: Layers>(
    alloc: Global,
    layers: &mut Watched<L>,
    kind: &str,
    texts: &[Text],
) -> Result<Askers, Status>
    ensures same { SameFiles L.files layers.old.inner layers.new.inner }
    ensures cause { Counts (L.faults layers.old.inner) (L.faults layers.new.inner) (mode_failed result) }
{
    let mut config = read_config(alloc, layers)?;
    layers.files.share(alloc);
    let set = read_recipes(alloc, layers, &config)?;
    let mut asks = or_status(asks_of(alloc, set.facts(), kind, texts))?;
    let others = asks.len().saturating_sub(MOST_TOLD);
    asks.truncate(MOST_TOLD);
    let list = told(alloc, layers, &mut config, set.facts(), asks.as_slice())?;
    Ok(Askers { list, others })
}
