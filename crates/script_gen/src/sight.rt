// What a task's script is made from, and a store as a task sees it.
ghost use Rattle.std.specs.Prelude.{◌≡◌, List, ℕ, Option, false, option_copied, true};
ghost use Rattle.task_model.specs.Views.{has_flag};
ghost use Rattle.task_model.specs.Scripts.{known};

use datastore::Datastore;
use meta_model::Resolved;
use std::alloc::Global;
use tree_model::{Mem, Text, Texts};
use var_deps::found_by;
use var_expand::{ExpandFault, Lookup};

/// What names have for a task, and the flags of the task.
pub(crate) trait Sight: Lookup {
    /// The flags of the task, unexpanded.
    ghost flags: { Self → List ℕ → Option (List ℕ) };

    /// A flag of the task, unexpanded.
    fn flag(&self, name: &str) -> Option<&str>
        ensures { option_copied result ≡ flags self.now name.now };

    /// Whether it is known without a look-up that a name has no value with the flag.
    fn lacks(&self, name: &str, flag: &str) -> bool
        ensures { result ≡ true → has_flag flag.now (known ((Self.finds self.now).at name.now)) ≡ false };
}

/// A store as a task sees it.
#[derive(Drop)]
pub(crate) struct OfStore<'a> {
    pub(crate) store: &'a Datastore,
    pub(crate) task: &'a str,
}

impl Lookup for OfStore<'_> {
    ghost use Rattle.meta_model.specs.Active.{find_in};
    ghost use Rattle.task_model.specs.Views.{seen_by};

    ghost finds = { λ s. seen_by s.task.now (find_in s.store.now) };

    fn find(&self, alloc: Global, name: &str) -> Result<Option<Resolved>, ExpandFault> {
        found_by(alloc, self.store, self.task, name)
    }

    fn known(&self, _alloc: Global, _name: &str, _wanted: &[Text]) -> Result<Option<Texts>, Mem> {
        Ok(None)
    }
}

impl Sight for OfStore<'_> {
    ghost use Rattle.task_model.specs.Scripts.{store_flags};

    ghost flags = { λ s. store_flags s.store.now s.task.now };

    fn flag(&self, name: &str) -> Option<&str> {
        self.store.flag(self.task, name)
    }

    fn lacks(&self, name: &str, flag: &str) -> bool {
        match self.store.flag(name, flag) {
            Some(_) => false,
            None => true,
        }
    }
}
