// What the configuration says of recipes.
ghost use Rattle.std.specs.Prelude.{◌≡◌, IfOk, IfErr, Ok};
ghost use Rattle.datastore.specs.Faults.{IsDataFault};
ghost use Rattle.meta_model.specs.Frozen as frozen;
ghost use Rattle.load_model.specs.Facts as facts;
ghost use Rattle.recipe_facts.specs.Wished.{wished};
ghost use Rattle.load_model.specs.Facts.{wishes_over};

use crate::asked::words_of;
use crate::values::family;
use datastore::{DataFault, Datastore};
use std::alloc::Global;
use tree_model::{ListOf, Text, Texts};

/// What the configuration says of recipes.
#[derive(Debug, Drop)]
pub struct Wishes {
    /// The names that count as provided from outside: the words of ASSUME_PROVIDED.
    pub assumed: Texts,
    /// Names, in byte order, with the PN that is preferred for each: PREFERRED_PROVIDER_x.
    pub providers: ListOf<(Text, Text)>,
    /// PNs, in byte order, with the version that is preferred for each: PREFERRED_VERSION_x.
    pub versions: ListOf<(Text, Text)>,
}

/// The same of a store whose names are moved.
fn wishes_told(alloc: Global, store: &Datastore) -> Result<Wishes, DataFault>
    ensures ok { IfOk result (λ made. wishes_over store.now ≡ Ok (wished made)) }
    ensures err { IfErr result (λ fault. IsDataFault fault (wishes_over store.now)) }
{
    Ok(Wishes {
        assumed: words_of(alloc, store, "ASSUME_PROVIDED")?,
        providers: family(alloc, store, "PREFERRED_PROVIDER_")?,
        versions: family(alloc, store, "PREFERRED_VERSION_")?,
    })
}

/// A store with the names of another moved.
fn frozen_of(alloc: Global, config: &Datastore) -> Result<Datastore, DataFault>
    ensures ok { IfOk result (λ made. frozen.frozen config.now ≡ Ok made) }
    ensures err { IfErr result (λ fault. IsDataFault fault (frozen.frozen config.now)) }
{
    config.copy(alloc)?.freeze(alloc)
}

/// What the configuration says of recipes, once its names are moved (own rule). The configuration stays as it is.
///
/// It is refused where a name can't be moved or one of the values is refused.
pub fn wishes_of(alloc: Global, config: &Datastore) -> Result<Wishes, DataFault>
    ensures ok { IfOk result (λ made. facts.wishes config.now ≡ Ok (wished made)) }
    ensures err { IfErr result (λ fault. IsDataFault fault (facts.wishes config.now)) }
{
    let mut store = frozen_of(alloc, config)?;
    store.settle(alloc)?;
    wishes_told(alloc, &store)
}
