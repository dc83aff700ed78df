// Trees under a folder's name.
ghost use Rattle.std.specs.Prelude.{◌≡◌, ◌++◌, ◌∷◌, [], All, IfErr, IfOk, OnOk, map};
ghost use Rattle.std.specs.Option.{option_copied, option_to_list};
ghost use Rattle.tree_model.specs.Folder.{IsRenameRefusal, entries_below, entry_behind, renamed, rest_of};
ghost use Rattle.tree_model.specs.Path.{IsClean, inside};

use crate::entry::Entry;
use crate::path::is_clean;
use crate::text::{Mem, Text};
use crate::tree::TreeFault;
use std::alloc::Global;

/// The entries under the folder, without its name.
pub(crate) fn entries_under(
    alloc: Global,
    entries: &[(Text, Entry)],
    folder: &str,
) -> Result<Vec<(Text, Entry)>, Mem>
    ensures { IfOk result (λ made. made.items ≡ entries_below folder.now entries.now) }
{
    let prefix = with_slash(alloc, folder)?;
    let mut made = Vec::new(alloc);
    for entry in entries {
        put_rest(alloc, &mut made, prefix.as_str(), entry)?;
    }
    Ok(made)
}

/// Puts the entry, without the prefix of its path, at the end, if its path has the prefix.
fn put_rest(
    alloc: Global,
    made: &mut Vec<(Text, Entry)>,
    prefix: &str,
    entry: &(Text, Entry),
) -> Result<(), Mem>
    ensures { OnOk result (made.new.items ≡ made.old.items ++ option_to_list (entry_behind prefix.now entry.now)) }
{
    if let Some(rest) = rest_behind(prefix, entry.0.as_str()) {
        made.push((Text::from_str(alloc, rest)?, entry.1.copy()?))?;
    }
    Ok(())
}

fn with_slash(alloc: Global, folder: &str) -> Result<Text, Mem>
    ensures { IfOk result (λ made. made ≡ folder.now ++ 47 ∷ []) }
{
    let mut made = Text::from_str(alloc, folder)?;
    made.push_str("/")?;
    Ok(made)
}

fn rest_behind<'a>(prefix: &str, path: &'a str) -> Option<&'a str>
    ensures { option_copied result ≡ rest_of prefix.now path.now }
{
    path.strip_prefix(prefix)
}

/// The entries with the folder's name in front. A path that would not be clean is refused: the first such.
pub(crate) fn entries_inside(
    alloc: Global,
    entries: &[(Text, Entry)],
    folder: &str,
) -> Result<Vec<(Text, Entry)>, TreeFault>
    ensures ok { IfOk result (λ made. made.items ≡ renamed (inside folder.now) entries.now) }
    ensures clean { IfOk result (λ made. All (λ e. IsClean e.0) made.items) }
    ensures refused { IfErr result (λ fault. IsRenameRefusal (inside folder.now) entries.now fault) }
{
    let mut made = Vec::with_capacity(alloc, entries.len())?;
    for entry in entries {
        let path = path_inside(alloc, folder, entry.0.as_str())?;
        if !is_clean(path.as_str()) {
            return Err(TreeFault::BadPath { path });
        }
        made.push((path, entry.1.copy()?))?;
    }
    Ok(made)
}

fn path_inside(alloc: Global, folder: &str, path: &str) -> Result<Text, Mem>
    ensures { IfOk result (λ made. made ≡ inside folder.now path.now) }
{
    let mut made = with_slash(alloc, folder)?;
    made.push_str(path)?;
    Ok(made)
}
