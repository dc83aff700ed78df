// The option `--clean` and the words beside it.
use std::alloc::{AllocError, Global};
use tree_model::Text;

/// The option that asks for a clearing.
const CLEAN: &str = "--clean";

/// The same with its value in the word.
const CLEAN_IS: &str = "--clean=";

/// Behind it each word is a target.
const TARGETS_FOLLOW: &str = "--";

/// The most records that can be asked to stay.
const MOST: u32 = 1_000_000;

/// What stands behind the first `--clean`.
#[derive(Clone, Copy)]
pub enum Limit {
    /// There is no such option.
    NotThere,
    /// No number in its range.
    Wrong,
    /// So many records.
    Is(usize),
}

/// The words in two parts.
#[derive(Drop)]
pub struct Parted {
    pub limit: Limit,

    /// All words but the first `--clean` and its value.
    pub others: Vec<Text>,
}

/// A number of records.
fn limit_of(word: &str) -> Limit {
    match word.parse::<u32>() {
        Ok(number) if number <= MOST => Limit::Is(number as usize),
        _ => Limit::Wrong,
    }
}

/// Whether the next word is this one's value: that of a long option, or of a word of letters of which the last has one.
fn has_value_behind(word: &str) -> bool {
    word == "--cmd"
        || word == "--sample"
        || (word.starts_with('-') && !word.starts_with("--") && word.ends_with('c'))
}

/// How the words go on.
#[derive(Clone, Copy, PartialEq, Eq)]
enum Next {
    /// With an option or a target.
    Word,
    /// With the value of another option.
    Value,
    /// With the number of `--clean`.
    Number,
    /// With words that are no option of this kind.
    Rest,
}

/// What comes behind a word that is no value.
fn behind(word: &str) -> Next {
    if word == TARGETS_FOLLOW {
        Next::Rest
    } else if has_value_behind(word) {
        Next::Value
    } else {
        Next::Word
    }
}

/// Takes the first `--clean` and its value out of the words.
pub fn split(alloc: Global, words: &[Text]) -> Result<Parted, AllocError> {
    let mut limit = Limit::NotThere;
    let mut others = Vec::new(alloc);
    let mut next = Next::Word;
    for word in words {
        if next == Next::Number {
            limit = limit_of(word.as_str());
            next = Next::Rest;
        } else if next == Next::Word && word.as_str() == CLEAN {
            limit = Limit::Wrong;
            next = Next::Number;
        } else if next == Next::Word && word.as_str().starts_with(CLEAN_IS) {
            limit = match word.as_str().strip_prefix(CLEAN_IS) {
                Some(number) => limit_of(number),
                None => Limit::Wrong,
            };
            next = Next::Rest;
        } else {
            others.push(Text::from_string(String::from_str(alloc, word.as_str())?))?;
            next = match next {
                Next::Word => behind(word.as_str()),
                Next::Value => Next::Word,
                rest => rest,
            };
        }
    }
    Ok(Parted { limit, others })
}
