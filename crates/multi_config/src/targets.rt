// The targets that words name.
ghost use Rattle.std.specs.Prelude.{◌≡◌, IfOk};
ghost use Rattle.std.specs.List.{list_any};
ghost use Rattle.meta_model.specs.Grammar.{task_of};
ghost use Rattle.answer_model.specs.Targets as targets;

use meta_model::{Target, split_at, task_name};
use std::alloc::Global;
use tree_model::{Mem, Text};

/// Whether a word asks for another configuration: it begins with `mc:` (BitBake User Manual, "The BitBake Command", section "Executing a Multiple
/// Configuration Build").
pub fn is_elsewhere(word: &str) -> bool
    ensures { result ≡ targets.is_elsewhere word.now }
{
    word.as_bytes().starts_with(b"mc:")
}

/// The name of a target: what stands before its first colon, or the whole word.
pub fn target_name(word: &str) -> &str
    ensures { result.now ≡ targets.target_name word.now }
{
    match split_at(word, b':') {
        Some((name, _)) => name,
        None => word,
    }
}

/// Whether one of the words asks for another configuration.
pub fn has_elsewhere(words: &[Text]) -> bool
    ensures { result ≡ list_any targets.is_elsewhere words.now }
{
    for word in words {
        if is_elsewhere(word.as_str()) {
            return true;
        }
    }
    false
}

/// The name and the task of a word, which is cut at its first colon.
fn cut_word<'a>(default: &'a str, word: &'a str) -> (&'a str, &'a str)
    ensures name { result.0.now ≡ (targets.target_of default.now word.now).name }
    ensures task { task_of result.1.now ≡ (targets.target_of default.now word.now).task }
{
    match split_at(word, b':') {
        Some((name, task)) => (name, task),
        None => (word, default),
    }
}

/// The target of a word NAME or NAME:TASK; without a colon the task is the default one.
pub fn target_of(alloc: Global, default: &str, word: &str) -> Result<Target, Mem>
    ensures { IfOk result (λ made. made ≡ targets.target_of default.now word.now) }
{
    let (name, task) = cut_word(default, word);
    Ok(Target {
        name: Text::from_str(alloc, name)?,
        task: task_name(alloc, task)?,
    })
}
