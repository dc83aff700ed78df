// The input files of a task.
ghost use Rattle.std.specs.Prelude.{◌≡◌, ◌≤◌, ◌∷◌, [], List, ℕ, false, IfOk, IfErr, IfSome, IfNone, OnOk, Ok, Some};
ghost use Rattle.tree_model.specs.declared.entry.Entry.TheVariants.{File as Plain};
ghost use Rattle.tree_model.specs.Overlay.{overlaid};
ghost use Rattle.tree_model.specs.Path.{IsClean};
ghost use Rattle.outside_traits.specs.Fault.{Counts};
ghost use Rattle.outside_traits.specs.Store.{SameFiles};
ghost use Rattle.load_model.specs.Paths as paths;
ghost use Rattle.plan_model.specs.Sound.{IsOnePart};
ghost use Rattle.plan_model.specs.Inputs as meant;
ghost use Rattle.plan_model.specs.Plans as plans;
ghost use Rattle.task_plan.specs.Faults.{IsPlanFault, plan_failed};
ghost use Rattle.task_plan.specs.Meant.{inputs_meant};
ghost use Rattle.task_plan.specs.Steps.{word_taken};

use crate::fault::{PlanFault, missing, too_large};
use crate::words::{checksum_words, input_word};
use datastore::Datastore;
use outside_traits::{Layers, ReadFault};
use path_words::{file_name, path_named};
use std::alloc::Global;
use tree_model::{Bytes, Entry, Mem, Text, Tree, is_clean};

/// The most bytes of an input file (own rule).
const MOST_OF_INPUT: u64 = 16_777_216;

/// The most bytes of all input files of a plan (own rule).
const MOST_OF_INPUTS: u64 = 268_435_456;

/// The input files of a task so far, by their names, and the bytes of all input files of the plan so far.
#[derive(Drop)]
pub(crate) struct Inputs {
    pub(crate) tree: Tree,
    pub(crate) bytes: u64,
}

/// A path, where it is clean.
fn if_clean(path: Text) -> Option<Text>
    ensures some { IfSome result (λ same. (same ≡ path) × IsClean path) }
    ensures none { IfNone result (IsClean path → ⊥) }
{
    if is_clean(path.as_str()) {
        Some(path)
    } else {
        None
    }
}

/// The path that a word names, where a file can stand there: files stand at clean paths alone.
fn path_of(alloc: Global, word: &str) -> Result<Option<Text>, Mem>
    ensures some { IfOk result (λ found. IfSome found (λ path. (paths.path_named word.now ≡ Some path)
        × IsClean path)) }
    ensures none { IfOk result (λ found. IfNone found ((path : List ℕ) → paths.path_named word.now ≡ Some path
        → IsClean path → ⊥)) }
{
    match path_named(alloc, word)? {
        Some(path) => Ok(if_clean(path)),
        None => Ok(None),
    }
}

/// The bytes of the file at a path. The file is read once.
fn bytes_at<L: Layers>(
    alloc: Global,
    layers: &mut L,
    file: &str,
    word: &str,
    path: &str,
) -> Result<Bytes, PlanFault>
    ensures ok { IfOk result (λ bytes. L.tells → meant.input_there file.now word.now path.now
        (L.files layers.old path.now) ≡ Ok (paths.file_name path.now, Plain false bytes)) }
    ensures err { IfErr result (λ fault. L.tells → IsPlanFault fault
        (meant.input_there file.now word.now path.now (L.files layers.old path.now))) }
    ensures same { SameFiles L.files layers.old layers.new }
    ensures cause { Counts (L.faults layers.old) (L.faults layers.new) (plan_failed result) }
{
    match layers.read(alloc, path, MOST_OF_INPUT) {
        Ok(Some(bytes)) => Ok(bytes),
        Ok(None) => Err(missing(alloc, file, word)),
        Err(ReadFault::TooLong) => Err(too_large(alloc, path)),
        Err(ReadFault::Failed) => Err(PlanFault::Read),
        Err(ReadFault::Memory) => Err(PlanFault::Memory),
    }
}

/// A file's bytes under the last part of its path.
fn named(alloc: Global, path: &str, bytes: Bytes) -> Result<(Text, Bytes), Mem>
    ensures name { IfOk result (λ made. made.0 ≡ paths.file_name path.now) }
    ensures bytes { IfOk result (λ made. made.1 ≡ bytes) }
{
    Ok((Text::from_str(alloc, file_name(path))?, bytes))
}

/// The file at a clean path, under the last part of its path.
fn file_at<L: Layers>(
    alloc: Global,
    layers: &mut L,
    file: &str,
    word: &str,
    path: &str,
) -> Result<(Text, Bytes), PlanFault>
    requires { IsClean path.now }
    ensures part { IfOk result (λ made. IsOnePart made.0) }
    ensures ok { IfOk result (λ made. L.tells → meant.input_there file.now word.now path.now
        (L.files layers.old path.now) ≡ Ok (made.0, Plain false made.1)) }
    ensures err { IfErr result (λ fault. L.tells → IsPlanFault fault
        (meant.input_there file.now word.now path.now (L.files layers.old path.now))) }
    ensures same { SameFiles L.files layers.old layers.new }
    ensures cause { Counts (L.faults layers.old) (L.faults layers.new) (plan_failed result) }
{
    match bytes_at(alloc, layers, file, word, path) {
        Ok(bytes) => match named(alloc, path, bytes) {
            Ok(made) => Ok(made),
            Err(_) => Err(PlanFault::Memory),
        },
        Err(fault) => Err(fault),
    }
}

/// The file that a word names, under the last part of its path.
fn input_of<L: Layers>(
    alloc: Global,
    layers: &mut L,
    file: &str,
    word: &str,
) -> Result<(Text, Bytes), PlanFault>
    ensures part { IfOk result (λ made. IsOnePart made.0) }
    ensures ok { IfOk result (λ made. L.tells → meant.input_of (L.files layers.old) file.now word.now
        ≡ Ok (made.0, Plain false made.1)) }
    ensures err { IfErr result (λ fault. L.tells → IsPlanFault fault
        (meant.input_of (L.files layers.old) file.now word.now)) }
    ensures same { SameFiles L.files layers.old layers.new }
    ensures cause { Counts (L.faults layers.old) (L.faults layers.new) (plan_failed result) }
{
    match path_of(alloc, word) {
        Ok(Some(path)) => file_at(alloc, layers, file, word, path.as_str()),
        Ok(None) => Err(missing(alloc, file, word)),
        Err(_) => Err(PlanFault::Memory),
    }
}

/// The tree of one file, which can't be run.
fn tree_of(alloc: Global, name: &str, bytes: Bytes) -> Result<Tree, Mem>
    requires { IsOnePart name.now }
    ensures { IfOk result (λ tree. tree ≡ (name.now, Plain false bytes) ∷ []) }
{
    let mut tree = Tree::empty(alloc);
    tree.put(alloc, name, Entry::File { exec: false, bytes })?;
    let _one = tree.entries();
    Ok(tree)
}

/// Lays a tree over another.
fn lay_over(tree: &mut Tree, alloc: Global, later: &Tree) -> Result<(), Mem>
    ensures { OnOk result (tree.new ≡ overlaid tree.old later.now) }
{
    // Both are trees.
    let (_earlier, _later) = (tree.entries(), later.entries());
    tree.overlay(alloc, later)
}

/// Lays a file over a tree.
fn lay_file(tree: &mut Tree, alloc: Global, name: &str, bytes: Bytes) -> Result<(), Mem>
    requires { IsOnePart name.now }
    ensures { OnOk result (tree.new ≡ overlaid tree.old ((name.now, Plain false bytes) ∷ [])) }
{
    let later = tree_of(alloc, name, bytes)?;
    lay_over(tree, alloc, &later)
}

/// One input file more, unless all together are too large with it.
fn with_input(inputs: &mut Inputs, alloc: Global, name: &str, bytes: Bytes) -> Result<(), PlanFault>
    requires { IsOnePart name.now }
    ensures ok { OnOk result (meant.within_limit (meant.with_input (inputs_meant inputs.old)
        (name.now, Plain false bytes)) ≡ Ok (inputs_meant inputs.new)) }
    ensures err { IfErr result (λ fault. IsPlanFault fault
        (meant.within_limit (meant.with_input (inputs_meant inputs.old) (name.now, Plain false bytes)))) }
    ensures not_read { plan_failed result ≡ false }
{
    let sum = inputs.bytes.saturating_add(bytes.as_slice().len() as u64);
    if sum > MOST_OF_INPUTS {
        return Err(PlanFault::PlanBytes);
    }
    lay_file(&mut inputs.tree, alloc, name, bytes)?;
    inputs.bytes = sum;
    Ok(())
}

/// The file that a word names, behind others.
fn one_more<L: Layers>(
    inputs: &mut Inputs,
    alloc: Global,
    layers: &mut L,
    file: &str,
    word: &str,
) -> Result<(), PlanFault>
    ensures ok { OnOk result (L.tells → meant.one_more (L.files layers.old) file.now (inputs_meant inputs.old)
        word.now ≡ Ok (inputs_meant inputs.new)) }
    ensures err { IfErr result (λ fault. L.tells → IsPlanFault fault
        (meant.one_more (L.files layers.old) file.now (inputs_meant inputs.old) word.now)) }
    ensures same { SameFiles L.files layers.old layers.new }
    ensures cause { Counts (L.faults layers.old) (L.faults layers.new) (plan_failed result) }
{
    match input_of(alloc, layers, file, word) {
        Ok((name, bytes)) => with_input(inputs, alloc, name.as_str(), bytes),
        Err(fault) => Err(fault),
    }
}

/// The file of one word of `[file-checksums]`, unless it is passed over.
fn take_word<L: Layers>(
    inputs: &mut Inputs,
    alloc: Global,
    layers: &mut L,
    file: &str,
    word: &str,
) -> Result<(), PlanFault>
    ensures ok { OnOk result (L.tells → word_taken (L.files layers.old) file.now (inputs_meant inputs.old) word.now
        ≡ Ok (inputs_meant inputs.new)) }
    ensures err { IfErr result (λ fault. L.tells → IsPlanFault fault
        (word_taken (L.files layers.old) file.now (inputs_meant inputs.old) word.now)) }
    ensures same { SameFiles L.files layers.old layers.new }
    ensures cause { Counts (L.faults layers.old) (L.faults layers.new) (plan_failed result) }
{
    match input_word(word) {
        Some(named) => one_more(inputs, alloc, layers, file, named),
        None => Ok(()),
    }
}

/// The files of words of `[file-checksums]`, in their order.
fn take_words<L: Layers>(
    inputs: &mut Inputs,
    alloc: Global,
    layers: &mut L,
    file: &str,
    words: &[Text],
) -> Result<(), PlanFault>
    ensures ok { OnOk result (L.tells → meant.inputs_of (L.files layers.old) file.now (inputs_meant inputs.old)
        (meant.input_words words.now) ≡ Ok (inputs_meant inputs.new)) }
    ensures err { IfErr result (λ fault. L.tells → IsPlanFault fault
        (meant.inputs_of (L.files layers.old) file.now (inputs_meant inputs.old) (meant.input_words words.now))) }
    ensures same { SameFiles L.files layers.old layers.new }
    ensures cause { Counts (L.faults layers.old) (L.faults layers.new) (plan_failed result) }
{
    for word in words {
        take_word(inputs, alloc, layers, file, word.as_str())?;
    }
    Ok(())
}

/// The files of some words, behind so many bytes of other tasks' files.
fn files_of<L: Layers>(
    alloc: Global,
    layers: &mut L,
    file: &str,
    words: &[Text],
    bytes: u64,
) -> Result<Inputs, PlanFault>
    ensures ok { IfOk result (λ made. L.tells → meant.inputs_of (L.files layers.old) file.now
        (record { tree = []; bytes = bytes }) (meant.input_words words.now) ≡ Ok (inputs_meant made)) }
    ensures err { IfErr result (λ fault. L.tells → IsPlanFault fault
        (meant.inputs_of (L.files layers.old) file.now (record { tree = []; bytes = bytes })
        (meant.input_words words.now))) }
    ensures same { SameFiles L.files layers.old layers.new }
    ensures cause { Counts (L.faults layers.old) (L.faults layers.new) (plan_failed result) }
{
    let mut inputs = Inputs {
        tree: Tree::empty(alloc),
        bytes,
    };
    match take_words(&mut inputs, alloc, layers, file, words) {
        Ok(()) => Ok(inputs),
        Err(fault) => Err(fault),
    }
}

/// The input files that `[file-checksums]` of a task names, behind so many bytes of other tasks' files.
pub(crate) fn task_inputs<L: Layers>(
    alloc: Global,
    layers: &mut L,
    file: &str,
    store: &Datastore,
    task: &str,
    bytes: u64,
) -> Result<Inputs, PlanFault>
    ensures ok { IfOk result (λ made. L.tells → plans.task_inputs (L.files layers.old) file.now store.now task.now
        bytes ≡ Ok (inputs_meant made)) }
    ensures err { IfErr result (λ fault. L.tells → IsPlanFault fault
        (plans.task_inputs (L.files layers.old) file.now store.now task.now bytes)) }
    ensures same { SameFiles L.files layers.old layers.new }
    ensures cause { Counts (L.faults layers.old) (L.faults layers.new) (plan_failed result) }
{
    match checksum_words(alloc, file, store, task) {
        Ok(words) => files_of(alloc, layers, file, words.as_slice(), bytes),
        Err(fault) => Err(fault),
    }
}
