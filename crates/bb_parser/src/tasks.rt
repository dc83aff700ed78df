// The words of `addtask` and `deltask`.
ghost use Rattle.std.specs.Prelude.{◌≡◌, IfOk, count_by, position, bytes_eq};
ghost use Rattle.std.specs.Option.{option_copied};
ghost use Rattle.std.specs.List.{after_first};
ghost use Rattle.meta_model.specs.Grammar.{tasks, is_part, up_to_part, part, task_parts, task_names};
ghost use Rattle.bb_parser.specs.Tasks.{is_task_name, tasks_in_part, first_tasks};

use meta_model::{Statement, is_shell_name, task_name};
use std::alloc::Global;
use tree_model::{Mem, Text, Texts};

/// The most bytes that the name of a task has.
const MOST_BYTES: usize = 255;

/// Whether a text can be the name of a task.
pub fn can_be_task(name: &[u8]) -> bool
    ensures { result ≡ is_task_name name.now }
{
    is_shell_name(name) && name.len() <= MOST_BYTES
}

/// The names of the tasks that the words mean, where each can be a task's.
fn tasks_of(alloc: Global, words: &[Text]) -> Result<Option<Texts>, Mem>
    ensures { IfOk result (λ names. names ≡ tasks words.now) }
{
    let mut names = Texts::new(alloc);
    for word in words {
        let name = task_name(alloc, word.as_str())?;
        if !can_be_task(name.as_str().as_bytes()) {
            return Ok(None);
        }
        names.push(name)?;
    }
    Ok(Some(names))
}

/// Whether a text is like these bytes.
fn is_word(text: &Text, word: &[u8]) -> bool
    ensures { result ≡ bytes_eq text.now word.now }
{
    text.as_str().as_bytes() == word
}

/// Whether the word begins a part.
fn begins_part(word: &Text) -> bool
    ensures { result ≡ is_part word.now }
{
    is_word(word, b"after") || is_word(word, b"before")
}

/// The place of the first word that begins a part.
fn part_at(words: &[Text]) -> Option<usize>
    ensures { result ≡ position is_part words.now }
{
    words.iter().position(|word| begins_part(word))
}

/// The words up to the first that begins a part.
fn words_to_part(words: &[Text]) -> &[Text]
    ensures { result.now ≡ up_to_part words.now }
{
    match part_at(words) {
        Some(end) => &words[..end],
        None => words,
    }
}

/// The place of the first word like this.
fn word_at(words: &[Text], word: &[u8]) -> Option<usize>
    ensures { result ≡ position (λ w. bytes_eq w word.now) words.now }
{
    words.iter().position(|w| is_word(w, word))
}

/// What stands behind the first word like this, or nothing.
fn words_behind_word<'a>(words: &'a [Text], word: &[u8]) -> &'a [Text]
    ensures { result.now ≡ after_first (λ w. bytes_eq w word.now) words.now }
{
    match word_at(words, word) {
        Some(at) => &words[at + 1..],
        None => &words[words.len()..],
    }
}

/// How often a word stands there.
fn times_of_word(words: &[Text], word: &[u8]) -> usize
    ensures { result ≡ count_by (λ w. bytes_eq w word.now) words.now }
{
    words.iter().filter(|w| is_word(w, word)).count()
}

/// The words of the part that a word begins.
fn words_of_part<'a>(words: &'a [Text], word: &[u8]) -> Option<&'a [Text]>
    ensures { option_copied result ≡ part word.now words.now }
{
    let found = words_to_part(words_behind_word(words, word));
    let times = times_of_word(words, word);
    if times == 0 || (times == 1 && !found.is_empty()) {
        Some(found)
    } else {
        None
    }
}

/// The tasks of a part.
fn tasks_of_part(alloc: Global, words: &[Text], word: &[u8]) -> Result<Option<Texts>, Mem>
    ensures { IfOk result (λ names. names ≡ tasks_in_part word.now words.now) }
{
    match words_of_part(words, word) {
        Some(found) => tasks_of(alloc, found),
        None => Ok(None),
    }
}

/// The tasks that `addtask` names.
fn tasks_in_front(alloc: Global, words: &[Text]) -> Result<Option<Texts>, Mem>
    ensures { IfOk result (λ names. names ≡ first_tasks words.now) }
{
    let found = words_to_part(words);
    if found.is_empty() {
        Ok(None)
    } else {
        tasks_of(alloc, found)
    }
}

/// The statement of the words behind `addtask`.
pub fn added_tasks(alloc: Global, words: &[Text]) -> Result<Option<Statement>, Mem>
    ensures { IfOk result (λ statement. statement ≡ task_parts words.now) }
{
    let Some(names) = tasks_in_front(alloc, words)? else {
        return Ok(None);
    };
    let Some(after) = tasks_of_part(alloc, words, b"after")? else {
        return Ok(None);
    };
    let Some(before) = tasks_of_part(alloc, words, b"before")? else {
        return Ok(None);
    };
    Ok(Some(Statement::AddTask {
        names,
        after,
        before,
    }))
}

/// The statement of the words behind `deltask`.
pub fn deleted_tasks(alloc: Global, words: &[Text]) -> Result<Option<Statement>, Mem>
    ensures { IfOk result (λ statement. statement ≡ task_names words.now) }
{
    match tasks_of(alloc, words)? {
        Some(names) => Ok(Some(Statement::DelTask { names })),
        None => Ok(None),
    }
}
