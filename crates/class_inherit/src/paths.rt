// Paths of files and of classes.
ghost use Rattle.std.specs.Prelude.{◌≡◌, ◌∷◌, ◌++◌, IfOk};
ghost use Rattle.load_model.specs.Paths.{slash, path_named};
ghost use Rattle.load_model.specs.Loading.{class_of, class_path};

use path_words::{file_name, path_named};
use std::alloc::Global;
use tree_model::{Mem, Text};

/// The class that a file of its own is: its name without `.bbclass`.
pub(crate) fn class_of(path: &str) -> &str
    ensures { result.now ≡ class_of path.now }
{
    let name = file_name(path);
    match name.strip_suffix(".bbclass") {
        Some(front) => front,
        None => name,
    }
}

/// The path that a text names in a folder. None where it names nothing.
pub(crate) fn path_in(alloc: Global, folder: &str, text: &str) -> Result<Option<Text>, Mem>
    ensures { IfOk result (λ made. made ≡ path_named (folder.now ++ slash ∷ text.now)) }
{
    let mut path = Text::from_str(alloc, folder)?;
    path.push_str("/")?;
    path.push_str(text)?;
    path_named(alloc, path.as_str())
}

/// The path of a class below the folders that are searched.
pub(crate) fn class_path(alloc: Global, name: &str) -> Result<Text, Mem>
    ensures { IfOk result (λ made. made ≡ class_path name.now) }
{
    let mut path = Text::from_str(alloc, "classes/")?;
    path.push_str(name)?;
    path.push_str(".bbclass")?;
    Ok(path)
}
