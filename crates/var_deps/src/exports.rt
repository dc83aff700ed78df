// The exported names of a store, and what they lead to.
ghost use Rattle.std.specs.Prelude.{◌≡◌, None, IfOk};
ghost use Rattle.task_model.specs.Leads.{exported};
ghost use Rattle.var_deps.specs.Exports.{AreExports};
ghost use Rattle.var_deps.specs.Kept.{IsRight, IsSame, shared_view};

use crate::led::{Led, push_all, without};
use crate::table::Shared;
use name_walk::reach;
use std::alloc::Global;
use tree_model::{Mem, Text, Texts};

/// The exported names of a store, and all that they lead to.
#[derive(Drop)]
pub(crate) struct Exports {
    /// The names with the flag `export`, in byte order.
    pub(crate) all: Texts,
    /// Those that the keys of tasks start with, and whether some are left out.
    pub(crate) start: Led,
    /// Those that keys start with and all that they lead to, directly or through others, in byte order, for who sees the store
    /// as it is.
    pub(crate) reached: Vec<Text>,
}

/// What the exported names of a store lead to, which is seen as it is.
pub(crate) fn exports_of(alloc: Global, shared: &mut Shared, all: Texts) -> Result<Exports, Mem>
    requires right { IsRight shared.old }
    requires plain { shared.old.seen.task ≡ None }
    requires all { all ≡ exported (shared_view shared.old) }
    ensures right { IsRight shared.new }
    ensures same { IsSame shared.old shared.new }
    ensures exports { IfOk result (λ made. AreExports shared.old.seen.store.now shared.old.ignored made) }
{
    let mut names = Vec::new(alloc);
    push_all(&mut names, all.as_slice())?;
    let start = without(alloc, names, shared.ignored.as_slice(), &[])?;
    let mut todo = Vec::new(alloc);
    push_all(&mut todo, start.names.as_slice())?;
    let reached = reach(alloc, shared, &[], todo)?;
    Ok(Exports {
        all,
        start,
        reached,
    })
}
