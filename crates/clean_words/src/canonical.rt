// What words ask for that may have `--clean` among them.
use crate::split::{Limit, Parted, split};
use answer_model::Request;
use command_words::{WordsFault, read_words};
use std::alloc::{AllocError, Global};
use tree_model::Text;

/// What words with `--clean` ask for.
#[derive(Drop)]
pub struct CleanWords {
    /// How many records may stay, the targets' own not counted where they are more: 0 to 1,000,000.
    pub limit: usize,

    /// Nothing is to be changed.
    pub dry: bool,

    /// The words of a run of the targets; none where there is no target.
    pub words: Vec<Text>,
}

/// What words ask for.
#[derive(Drop)]
pub enum Asks {
    /// For no clearing: `--clean` isn't among them.
    NoClearing,

    /// For `--sample`, which comes before it: the other words.
    Sample(Vec<Text>),

    /// For nothing: the command doesn't take them.
    Wrong,

    /// For a clearing.
    Clearing(CleanWords),
}

/// A target in front of the others, so that words without one are read too.
const IN_FRONT: &str = "x";

fn copied(alloc: Global, word: &str) -> Result<Text, AllocError> {
    Ok(Text::from_string(String::from_str(alloc, word)?))
}

/// The words behind a target that stands in front of them.
fn behind_one(alloc: Global, words: &[Text]) -> Result<Vec<Text>, AllocError> {
    let mut all = Vec::new(alloc);
    all.push(copied(alloc, IN_FRONT)?)?;
    for word in words {
        all.push(copied(alloc, word.as_str())?)?;
    }
    Ok(all)
}

/// The words of a run of the targets of a request, but the first.
fn run_words(alloc: Global, request: &Request) -> Result<Vec<Text>, AllocError> {
    let mut words = Vec::new(alloc);
    let targets = request.targets.as_slice();
    if targets.len() < 2 {
        return Ok(words);
    }
    if let Some(task) = &request.task {
        let text = task.as_str();
        words.push(Text::from_string(format!(in alloc; "--cmd={text}")?))?;
    }
    words.push(copied(alloc, "--")?)?;
    for place in 1..targets.len() {
        words.push(copied(alloc, targets[place].as_str())?)?;
    }
    Ok(words)
}

/// Whether a task is named, and no target of which it would be: then one was forgotten.
fn lacks_target(request: &Request) -> bool {
    request.task.is_some() && request.targets.as_slice().len() < 2
}

/// What words with this number behind `--clean` ask for, of which these are the others.
fn asked(alloc: Global, limit: usize, others: Vec<Text>) -> Result<Asks, AllocError> {
    let all = behind_one(alloc, others.as_slice())?;
    match read_words(alloc, all.as_slice()) {
        Ok(request) if request.sample.is_some() => Ok(Asks::Sample(others)),
        Ok(request) if lacks_target(&request) => Ok(Asks::Wrong),
        Ok(request) => Ok(Asks::Clearing(CleanWords {
            limit,
            dry: request.dry,
            words: run_words(alloc, &request)?,
        })),
        Err(WordsFault::Usage) => Ok(Asks::Wrong),
        Err(WordsFault::Memory) => Err(AllocError),
    }
}

/// What the words behind the program's name ask for that may have `--clean` among them.
pub fn clean_words(alloc: Global, words: &[Text]) -> Result<Asks, AllocError> {
    let Parted { limit, others } = split(alloc, words)?;
    match limit {
        Limit::NotThere => Ok(Asks::NoClearing),
        Limit::Wrong => Ok(Asks::Wrong),
        Limit::Is(limit) => asked(alloc, limit, others),
    }
}
