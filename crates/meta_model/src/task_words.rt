// Names of references, shell names, and the tasks that words mean.
ghost use Rattle.std.specs.Prelude.{◌≡◌, ◌==◌, ◌||◌, IfOk};
ghost use Rattle.std.specs.List.{list_all};
ghost use Rattle.std.specs.Char.{is_ascii_alphanumeric};
ghost use Rattle.meta_model.specs.Names.{is_name_character};
ghost use Rattle.meta_model.specs.Text.{is_shell_name};
ghost use Rattle.meta_model.specs.Grammar.{task_of};

use std::alloc::Global;
use tree_model::{Mem, Text};

/// Whether a byte may stand in the name of a reference.
fn is_name_byte(byte: &u8) -> bool
    ensures { result ≡ is_name_character byte.now }
{
    byte.is_ascii_alphanumeric() || b"-_+./~:".contains(byte)
}

/// Whether all bytes may stand in the name of a reference: letters, digits and `- _ + . / ~ :` (own rule).
pub fn are_name_bytes(bytes: &[u8]) -> bool
    ensures { result ≡ list_all is_name_character bytes.now }
{
    bytes.iter().all(is_name_byte)
}

/// Whether each character is a letter, a digit or `_`.
fn are_in_shell_name(name: &[u8]) -> bool
    ensures { result ≡ list_all (λ d. is_ascii_alphanumeric d || d == 95) name.now }
{
    name.iter().all(|c| c.is_ascii_alphanumeric() || *c == b'_')
}

/// Whether a text is a shell name: a letter or `_`, then letters, digits and `_`.
pub fn is_shell_name(name: &[u8]) -> bool
    ensures { result ≡ is_shell_name name.now }
{
    if name.is_empty() {
        return false;
    }
    (name[0].is_ascii_alphabetic() || name[0] == b'_') && are_in_shell_name(&name[1..])
}

/// The name of the task that a word means: the word, with `do_` put in front where it is missing.
pub fn task_name(alloc: Global, word: &str) -> Result<Text, Mem>
    ensures { IfOk result (λ name. name ≡ task_of word.now) }
{
    if word.as_bytes().starts_with(b"do_") {
        return Text::from_str(alloc, word);
    }
    let mut name = Text::from_str(alloc, "do_")?;
    name.push_str(word)?;
    Ok(name)
}
