// The runs of letters, digits and `_` in a text that may be functions.
ghost use Rattle.std.specs.Prelude.{◌≡◌, ◌++◌, ◌||◌, ◌∷◌, ◌==◌, ◌<◌, ◌+◌, ◌^◌, not, IfOk, IfSome, OnOk, List, ℕ, [], position, length};
ghost use Rattle.std.specs.Char.{is_ascii_alphanumeric};
ghost use Rattle.meta_model.specs.Text.{non_empty};
ghost use Rattle.task_model.specs.Leads.{functions_of, runs};
ghost use Rattle.var_deps.specs.Seen.{seen_with};
ghost use Rattle.var_deps.specs.Runs.{separates, IsRun};

use crate::seen::Seen;
use std::alloc::Global;
use tree_model::{Mem, Text, Texts};

/// Whether a byte is no letter, no digit and no `_`.
fn separates(byte: &u8) -> bool
    ensures { result ≡ separates byte.now }
{
    !(byte.is_ascii_alphanumeric() || *byte == b'_')
}

/// The place of the first byte that is in no run.
fn end_of(bytes: &[u8]) -> Option<usize>
    ensures first { result ≡ position separates bytes.now }
    ensures within { IfSome result (λ i. i < length bytes.now) }
    ensures room { IfSome result (λ i. i + 1 < 2 ^ 64) }
{
    bytes.iter().position(separates)
}

/// Puts a run at the end, unless it is empty, or known without a look-up to be no function.
fn push_run(list: &mut Texts, alloc: Global, seen: &Seen, run: &[u8]) -> Result<(), Mem>
    requires { IsRun run.now }
    ensures { OnOk result ((more : List (List ℕ)) → functions_of (seen_with seen.now.store.now seen.now.task)
        (list.new ++ more) ≡ functions_of (seen_with seen.now.store.now seen.now.task)
        (list.old ++ (non_empty (run.now ∷ []) ++ more))) }
{
    if run.is_empty() {
        return Ok(());
    }
    match str::from_utf8(run) {
        Ok(text) => push_named(list, alloc, seen, text),
        Err(_) => Err(Mem),
    }
}

/// Puts a name at the end, unless it is known without a look-up to be no function.
fn push_named(list: &mut Texts, alloc: Global, seen: &Seen, name: &str) -> Result<(), Mem>
    ensures { OnOk result ((more : List (List ℕ)) → functions_of (seen_with seen.now.store.now seen.now.task)
        (list.new ++ more) ≡ functions_of (seen_with seen.now.store.now seen.now.task)
        (list.old ++ name.now ∷ more)) }
{
    if seen.is_no_function(name) {
        return Ok(());
    }
    list.push(Text::from_str(alloc, name)?)?;
    Ok(())
}

/// The longest runs of letters, digits and `_` in a text, in their order, without some that are no functions.
pub(crate) fn runs(alloc: Global, seen: &Seen, text: &str) -> Result<Texts, Mem>
    ensures { IfOk result (λ made. functions_of (seen_with seen.now.store.now seen.now.task) made
        ≡ functions_of (seen_with seen.now.store.now seen.now.task) (runs text.now)) }
{
    let mut list = Texts::new(alloc);
    let mut rest = text.as_bytes();
    while let Some(end) = end_of(rest) {
        push_run(&mut list, alloc, seen, &rest[..end])?;
        rest = &rest[end + 1..];
    }
    push_run(&mut list, alloc, seen, rest)?;
    Ok(list)
}
