// What a recipe says of its packages.
ghost use Rattle.std.specs.Prelude.{◌≡◌, ◌++◌, IfOk, IfErr, Ok, codes};
ghost use Rattle.datastore.specs.Faults.{IsDataFault};
ghost use Rattle.load_model.specs.Layers as layers;
ghost use Rattle.load_model.specs.Facts as facts;
ghost use Rattle.recipe_facts.specs.Recipe.{packages_of};

use crate::asked::{needed_words, words_of};
use datastore::{DataFault, Datastore};
use meta_model::Package;
use std::alloc::Global;
use tree_model::{ListOf, Mem, Text, Texts};

/// The form of a name for a package.
fn form(alloc: Global, name: &str, owner: &str) -> Result<Text, Mem>
    ensures { IfOk result (λ made. made ≡ facts.form name.now owner.now) }
{
    let mut made = Text::from_str(alloc, name)?;
    made.push_str(":")?;
    made.push_str(owner)?;
    Ok(made)
}

/// Some texts, and others behind them.
fn with_all(first: &Texts, others: &Texts) -> Result<Texts, Mem>
    ensures { IfOk result (λ made. made ≡ first.now ++ others.now) }
{
    let mut made = first.copy()?;
    for text in others.as_slice() {
        made.push(text.copy()?)?;
    }
    Ok(made)
}

/// The words of RPROVIDES for a package.
fn provided_for(alloc: Global, store: &Datastore, name: &str) -> Result<Texts, DataFault>
    ensures ok { IfOk result (λ made. layers.words_of store.now (facts.form (codes "RPROVIDES") name.now) ≡ Ok made) }
    ensures err { IfErr result (λ fault. IsDataFault fault
        (layers.words_of store.now (facts.form (codes "RPROVIDES") name.now))) }
{
    let own = form(alloc, "RPROVIDES", name)?;
    words_of(alloc, store, own.as_str())
}

/// The words of RDEPENDS for a package, without text in parentheses.
fn needed_for(alloc: Global, store: &Datastore, name: &str) -> Result<Texts, DataFault>
    ensures ok { IfOk result (λ made. facts.needed_words store.now (facts.form (codes "RDEPENDS") name.now) ≡ Ok made) }
    ensures err { IfErr result (λ fault. IsDataFault fault
        (facts.needed_words store.now (facts.form (codes "RDEPENDS") name.now))) }
{
    let own = form(alloc, "RDEPENDS", name)?;
    needed_words(alloc, store, own.as_str())
}

/// A package with the words for all packages, and behind them those for this one.
fn package_made(
    alloc: Global,
    name: &str,
    needed: &Texts,
    needs: &Texts,
    provided: &Texts,
    provides: &Texts,
) -> Result<Package, Mem>
    ensures { IfOk result (λ made. made ≡ record {
      name = name.now;
      rdepends = needed.now ++ needs.now;
      rprovides = provided.now ++ provides.now;
    }) }
{
    let name = Text::from_str(alloc, name)?;
    let rdepends = with_all(needed, needs)?;
    let rprovides = with_all(provided, provides)?;
    Ok(Package {
        name,
        rdepends,
        rprovides,
    })
}

/// What a recipe says for a package: the words for all its packages, and behind them those for this one ("Variables Glossary",
/// RDEPENDS and RPROVIDES).
fn package_facts(
    alloc: Global,
    store: &Datastore,
    provided: &Texts,
    needed: &Texts,
    name: &str,
) -> Result<Package, DataFault>
    ensures ok { IfOk result (λ made. facts.package_facts store.now provided.now needed.now name.now ≡ Ok made) }
    ensures err { IfErr result (λ fault. IsDataFault fault
        (facts.package_facts store.now provided.now needed.now name.now)) }
{
    let provides = provided_for(alloc, store, name)?;
    let needs = needed_for(alloc, store, name)?;
    Ok(package_made(alloc, name, needed, &needs, provided, &provides)?)
}

/// What a recipe says for each of these packages.
fn all_packages(
    alloc: Global,
    store: &Datastore,
    provided: &Texts,
    needed: &Texts,
    names: &[Text],
) -> Result<ListOf<Package>, DataFault>
    ensures ok { IfOk result (λ made. facts.all_packages store.now provided.now needed.now names.now ≡ Ok made) }
    ensures err { IfErr result (λ fault. IsDataFault fault
        (facts.all_packages store.now provided.now needed.now names.now)) }
{
    let mut made = ListOf::new(alloc);
    for name in names {
        made.push(package_facts(alloc, store, provided, needed, name.as_str())?)?;
    }
    Ok(made)
}

/// What a recipe says of these packages. Where it names none, the words for all packages stand for one without a name (own rule).
fn recipe_packages(
    alloc: Global,
    store: &Datastore,
    provided: &Texts,
    needed: &Texts,
    names: &[Text],
) -> Result<ListOf<Package>, DataFault>
    ensures ok { IfOk result (λ made. facts.recipe_packages store.now provided.now needed.now names.now ≡ Ok made) }
    ensures err { IfErr result (λ fault. IsDataFault fault
        (facts.recipe_packages store.now provided.now needed.now names.now)) }
{
    if !names.is_empty() {
        return all_packages(alloc, store, provided, needed, names);
    }
    let mut made = ListOf::new(alloc);
    made.push(Package {
        name: Text::new(alloc),
        rdepends: needed.copy()?,
        rprovides: provided.copy()?,
    })?;
    Ok(made)
}

/// What a recipe says of its packages, the words of PACKAGES.
pub(crate) fn packages_of(alloc: Global, store: &Datastore) -> Result<ListOf<Package>, DataFault>
    ensures ok { IfOk result (λ made. packages_of store.now ≡ Ok made) }
    ensures err { IfErr result (λ fault. IsDataFault fault (packages_of store.now)) }
{
    let names = words_of(alloc, store, "PACKAGES")?;
    let provided = words_of(alloc, store, "RPROVIDES")?;
    let needed = needed_words(alloc, store, "RDEPENDS")?;
    recipe_packages(alloc, store, &provided, &needed, names.as_slice())
}
