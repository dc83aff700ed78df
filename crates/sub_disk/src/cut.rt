// Paths of a folder, with its prefix and without.
ghost use Rattle.std.specs.Prelude.{◌≡◌, ◌++◌, All, IfOk, map};
ghost use Rattle.tree_model.specs.Path.{BeginsWith};
ghost use Rattle.outside_traits.specs.Fault.{disk_failed};
ghost use Rattle.sub_disk.specs.Sub.{Cuts, is_lost};

use outside_traits::DiskFault;
use std::alloc::Global;
use tree_model::{Mem, Text, Texts};

/// The path of a place in the folder.
pub(crate) fn joined(alloc: Global, prefix: &str, path: &str) -> Result<Text, Mem>
    ensures { IfOk result (λ whole. whole ≡ prefix.now ++ path.now) }
{
    let mut whole = Text::from_str(alloc, prefix)?;
    whole.push_str(path)?;
    Ok(whole)
}

/// What stands behind the prefix; the whole path where it doesn't begin with it.
fn rest_behind(alloc: Global, prefix: &str, path: &str) -> Result<Text, Mem>
    ensures { BeginsWith prefix.now path.now → IfOk result (λ rest. path.now ≡ prefix.now ++ rest) }
{
    match path.strip_prefix(prefix) {
        Some(rest) => Text::from_str(alloc, rest),
        None => Text::from_str(alloc, path),
    }
}

/// What stands behind the prefix in each path.
fn rests_behind(alloc: Global, prefix: &str, paths: &[Text]) -> Result<Texts, Mem>
    ensures { All (λ path. BeginsWith prefix.now path) paths.now → IfOk result (λ names.
        map (λ name. prefix.now ++ name) names ≡ paths.now) }
{
    let mut names = Vec::with_capacity(alloc, paths.len())?;
    for path in paths {
        names.push(rest_behind(alloc, prefix, path.as_str())?)?;
    }
    Ok(Texts::from_vec(names))
}

/// A list of the other disk as one of the folder.
pub(crate) fn cut_list(
    alloc: Global,
    prefix: &str,
    listed: &Result<Texts, DiskFault>,
) -> Result<Texts, DiskFault>
    ensures cuts { IfOk listed.now (λ paths. All (λ path. BeginsWith prefix.now path) paths)
        → Cuts prefix.now listed.now result }
    ensures fault { disk_failed result ≡ disk_failed listed.now }
{
    match listed {
        Ok(paths) => Ok(rests_behind(alloc, prefix, paths.as_slice())?),
        Err(fault) => Err(*fault),
    }
}

/// Whether memory was wanting for the names of a list that the other disk answered.
pub(crate) fn is_list_lost(
    listed: &Result<Texts, DiskFault>,
    names: &Result<Texts, DiskFault>,
) -> bool
    ensures { result ≡ is_lost listed.now names.now }
{
    listed.is_ok() && names.is_err()
}
