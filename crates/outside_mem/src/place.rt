// What is done on a bench in memory.
ghost use Rattle.std.specs.Prelude.{◌≡◌, ◌++◌, ◌∷◌, [], IsSome, OnErr, OnOk, None, Some, true, false};
ghost use Rattle.tree_model.specs.Path.{IsClean};
ghost use Rattle.outside_traits.specs.Bench.{Adds, Entries, IsTaken, IsVacant, run_on};

use outside_traits::Taken;
use std::alloc::Global;
use std::marker::Model;
use std::mem;
use tree_model::{Entry, Mem, Size, Text, Tree};

/// What is laid on a bench, whether it was cleared since its last run, the output of that run, and all runs so far.
/// Contracts see it as a `Workplace`.
#[derive(Drop)]
pub(crate) struct Place {
    laid: Tree,
    cleared: bool,
    output: Option<Tree>,
    runs: Vec<(Text, Tree)>,
}

impl Model for Place {
    ghost use Rattle.outside_traits.specs.Bench.{Workplace};

    ghost Value = { Workplace };

    ghost view = { λ p. record { laid = p.laid; cleared = p.cleared; output = p.output; runs = p.runs.items } };
}

impl Place {
    /// Nothing is laid and nothing ran. It takes no memory.
    pub(crate) fn new(alloc: Global) -> Place
        ensures { result ≡ record { laid = []; cleared = true; output = None; runs = [] } }
    {
        Place {
            laid: Tree::empty(alloc),
            cleared: true,
            output: None,
            runs: Vec::new(alloc),
        }
    }

    /// What is laid.
    pub(crate) fn laid(&self) -> &Tree
        ensures { result.now ≡ self.now.laid }
    {
        &self.laid
    }

    /// Takes away what is laid, and what the last run left.
    pub(crate) fn clear(&mut self, alloc: Global)
        ensures { self.new ≡ record { laid = []; cleared = true; output = None; runs = self.old.runs } }
    {
        self.laid = Tree::empty(alloc);
        self.cleared = true;
        self.output = None;
    }

    /// Lays a copy of the entry at the path.
    pub(crate) fn put(&mut self, alloc: Global, path: &str, entry: &Entry) -> Result<(), Mem>
        requires clean { IsClean path.now }
        requires vacant { IsVacant self.old.laid path.now }
        ensures laid { OnOk result (Adds path.now entry.now self.old.laid self.new.laid) }
        ensures rest { OnOk result ((self.new.cleared ≡ self.old.cleared) × (self.new.output ≡ self.old.output)
            × (self.new.runs ≡ self.old.runs)) }
        ensures err { OnErr result (self.new ≡ self.old) }
    {
        lay(alloc, &mut self.laid, path, entry)
    }

    /// Adds a run of the script over what is laid, which is laid no longer, with its output.
    pub(crate) fn keep_run(
        &mut self,
        alloc: Global,
        script: &str,
        output: Option<Tree>,
    ) -> Result<(), Mem>
        ensures ok { OnOk result
            (self.new ≡ record { laid = []; cleared = false; output = output; runs = run_on self.old script.now }) }
        ensures err { OnErr result (self.new ≡ self.old) }
    {
        note_run(&mut self.runs, alloc, script, &mut self.laid)?;
        self.cleared = false;
        self.output = output;
        Ok(())
    }

    /// The output of the last run, where it is within the limit.
    pub(crate) fn take(&mut self, max: &Size) -> Taken
        requires { IsSome self.old.output }
        ensures taken { (output : Entries) × (self.old.output ≡ Some output) × IsTaken output max.now result }
        ensures runs { self.new.runs ≡ self.old.runs }
    {
        let Some(tree) = self.output.take() else {
            unreachable!()
        };
        if !tree.size().is_within(max) {
            return Taken::TooLarge;
        }
        Taken::Tree(tree)
    }
}

/// Lays a copy of the entry at the path.
fn lay(alloc: Global, laid: &mut Tree, path: &str, entry: &Entry) -> Result<(), Mem>
    requires clean { IsClean path.now }
    requires vacant { IsVacant laid.old path.now }
    ensures ok { OnOk result (Adds path.now entry.now laid.old laid.new) }
    ensures err { OnErr result (laid.new ≡ laid.old) }
{
    laid.put(alloc, path, entry.copy()?)?;
    // What is laid is a tree.
    let _ = laid.entries();
    Ok(())
}

/// Adds a run of the script over what is laid, which is laid no longer.
fn note_run(
    runs: &mut Vec<(Text, Tree)>,
    alloc: Global,
    script: &str,
    laid: &mut Tree,
) -> Result<(), Mem>
    ensures ok { OnOk result (runs.new.items ≡ runs.old.items ++ (script.now, laid.old) ∷ []) }
    ensures gone { OnOk result (laid.new ≡ []) }
    ensures runs { OnErr result (runs.new.items ≡ runs.old.items) }
    ensures laid { OnErr result (laid.new ≡ laid.old) }
{
    let script = Text::from_str(alloc, script)?;
    let tree = mem::replace(laid, Tree::empty(alloc));
    match runs.push((script, tree)) {
        Ok(()) => Ok(()),
        Err(full) => {
            let (_, tree) = full.value;
            *laid = tree;
            Err(Mem)
        }
    }
}
