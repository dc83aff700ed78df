// Whether the input files of a task are such as a sound plan has.
ghost use Rattle.std.specs.Prelude.{◌≡◌, ◌↔◌, IsTrue, All};
ghost use Rattle.tree_model.specs.Manifest.{kind_of};
ghost use Rattle.tree_model.specs.Path.{IsClean};
ghost use Rattle.store_model.specs.Valid.{IsPlain};
ghost use Rattle.plan_model.specs.Sound.{IsOnePart};
ghost use Rattle.target_plan.specs.Checked.{AreSoundFiles};

use tree_model::{Entry, EntryKind, Tree};

/// Whether a clean path has one part.
fn is_one_part(path: &str) -> bool
    requires { IsClean path.now }
    ensures { IsTrue result ↔ IsOnePart path.now }
{
    !path.as_bytes().contains(&b'/')
}

/// Whether each file stands at a path of one part.
fn are_parts(files: &Tree) -> bool
    ensures { IsTrue result ↔ All (λ e. IsOnePart e.0) files.now }
{
    let entries = files.entries();
    entries.iter().all(|entry| is_one_part(entry.0.as_str()))
}

/// Whether it is a file that can't be executed.
fn is_plain(entry: &Entry) -> bool
    ensures { IsTrue result ↔ (kind_of entry.now ≡ EntryKind.File) }
{
    matches!(entry.kind(), EntryKind::File)
}

/// Whether each file is one that can't be executed.
fn are_plain(files: &Tree) -> bool
    ensures { IsTrue result ↔ All IsPlain files.now }
{
    files.entries().iter().all(|entry| is_plain(&entry.1))
}

/// Whether the files are plain, at paths of one part.
pub(crate) fn are_sound_files(files: &Tree) -> bool
    ensures { IsTrue result ↔ AreSoundFiles files.now }
{
    let _entries = files.entries();
    are_plain(files) && are_parts(files)
}
