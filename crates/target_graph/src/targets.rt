// The targets that words name.
ghost use Rattle.std.specs.Prelude.{◌≡◌, true, false, Ok, IfOk, IfErr};
ghost use Rattle.project_reading.specs.Answered.{IsRefusedAs, mode_failed};
ghost use Rattle.answer_model.specs.Answers.{is_refusal};
ghost use Rattle.answer_model.specs.RunAsked as asked;

use meta_model::{Status, Target};
use multi_config::{is_elsewhere, target_of};
use project_reading::{nothing_provides, or_status};
use std::alloc::Global;
use tree_model::{ListOf, Text};

/// The target of a word. One that begins with `mc:` is refused, which asks for another configuration: words with one such are split into parts.
fn target_in(alloc: Global, default: &str, word: &str) -> Result<Target, Status>
    ensures ok { IfOk result (λ made. asked.target_in default.now word.now ≡ Ok made) }
    ensures err { IfErr result (λ status. IsRefusedAs status (asked.target_in default.now word.now)) }
    ensures refusal { IfErr result (λ status. is_refusal status ≡ true) }
    ensures no_failure { mode_failed result ≡ false }
{
    if is_elsewhere(word) {
        return Err(nothing_provides(alloc, word));
    }
    or_status(target_of(alloc, default, word))
}

/// The targets of words, in their order.
pub(crate) fn targets_of(
    alloc: Global,
    default: &str,
    words: &[Text],
) -> Result<ListOf<Target>, Status>
    ensures ok { IfOk result (λ made. asked.targets_of default.now words.now ≡ Ok made) }
    ensures err { IfErr result (λ status. IsRefusedAs status (asked.targets_of default.now words.now)) }
    ensures refusal { IfErr result (λ status. is_refusal status ≡ true) }
    ensures no_failure { mode_failed result ≡ false }
{
    let mut made = ListOf::new(alloc);
    for word in words {
        let target = target_in(alloc, default, word.as_str())?;
        or_status(made.push(target))?;
    }
    Ok(made)
}
