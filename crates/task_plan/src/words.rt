// The words of `[file-checksums]`.
ghost use Rattle.std.specs.Prelude.{◌≡◌, [], false, unwrap_or, IfOk, IfErr, Ok, option_copied};
ghost use Rattle.meta_model.specs.Active.{expand};
ghost use Rattle.meta_model.specs.Base.{flag as flag_of};
ghost use Rattle.datastore.specs.Faults.{IsDataFault};
ghost use Rattle.plan_model.specs.Inputs.{input_word as word_meant};
ghost use Rattle.task_plan.specs.Faults.{IsPlanFault, plan_failed};
ghost use Rattle.task_plan.specs.Steps.{checksum_words as words_meant};

use crate::fault::{PlanFault, data_told};
use datastore::{DataFault, Datastore};
use path_words::{has_ending, without_ending};
use recipe_facts::flag_words;
use std::alloc::Global;
use tree_model::{Text, Texts};

/// The file that a word names: `:True` at its end is dropped, and one that ends with `:False` is passed over.
pub(crate) fn input_word(word: &str) -> Option<&str>
    ensures { option_copied result ≡ word_meant word.now }
{
    if has_ending(":False", word) {
        None
    } else {
        Some(without_ending(":True", word))
    }
}

/// The expanded text of a flag, empty where it isn't set.
pub(crate) fn flag_text(
    alloc: Global,
    store: &Datastore,
    name: &str,
    flag: &str,
) -> Result<Text, DataFault>
    ensures ok { IfOk result (λ made. expand store.now (unwrap_or (flag_of store.now name.now flag.now) []) ≡ Ok made) }
    ensures err { IfErr result (λ fault. IsDataFault fault
        (expand store.now (unwrap_or (flag_of store.now name.now flag.now) []))) }
{
    let told = match store.flag(name, flag) {
        Some(text) => text,
        None => "",
    };
    store.expand(alloc, told)
}

/// The words of a task's flag.
pub(crate) fn checksum_words(
    alloc: Global,
    file: &str,
    store: &Datastore,
    task: &str,
) -> Result<Texts, PlanFault>
    ensures ok { IfOk result (λ made. words_meant file.now store.now task.now ≡ Ok made) }
    ensures err { IfErr result (λ fault. IsPlanFault fault (words_meant file.now store.now task.now)) }
    ensures not_read { plan_failed result ≡ false }
{
    match flag_words(alloc, store, task, "file-checksums") {
        Ok(words) => Ok(words),
        Err(fault) => Err(data_told(alloc, file, fault)),
    }
}
