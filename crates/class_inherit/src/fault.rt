// Why files can't be loaded.
ghost use Rattle.std.specs.Prelude.{◌≡◌, is_some, true, false, Some};
ghost use Rattle.std.specs.Option.{option_map};
ghost use Rattle.load_model.specs.LoadRefusal.{no_value};
ghost use Rattle.datastore.specs.Faults.{data_refusal};
ghost use Rattle.class_inherit.specs.Faults.{cause_of, where_is, is_memory, is_read, IsSaid, IsOutOfMemory, IsUntold};

use datastore::DataFault;
use meta_model::SyntaxFault;
use std::alloc::Global;
use thiserror::Error;
use tree_model::Text;

/// What is wrong where files can't be loaded. The causes are own rules.
#[derive(Debug, Drop, Error)]
pub enum LoadKind {
    /// No file stands where a required one is named; it is the word that names it, or the path that was asked for.
    #[error("there is no file {}", .path.as_str())]
    MissingRequired { path: Text },
    /// No class of this name is found.
    #[error("there is no class {}", .name.as_str())]
    MissingClass { name: Text },
    /// A file would be read within 32 others.
    #[error("more than 32 files are nested")]
    IncludeDepth,
    /// The layers failed; their count of faults rose.
    #[error("the layers can't be read")]
    Read,
    /// The file has this first fault.
    #[error("{0:?}")]
    Parse(SyntaxFault),
    /// A text or a name can't be expanded; it is never want of memory.
    #[error("{0:?}")]
    Data(DataFault),
    /// The file has more than 1,048,576 bytes.
    #[error("the file has more than 1,048,576 bytes")]
    FileBytes,
    /// Memory ran out.
    #[error("out of memory")]
    Memory,
}

/// Why files aren't loaded. It is shown as `FILE:LINE: KIND`.
#[derive(Debug, Drop, Error)]
#[error("{}:{line}: {kind}", .file.as_str())]
pub struct LoadFault {
    /// The path of the file at fault, or the empty text where no file is.
    pub file: Text,
    /// The number of the line at fault, from 1; 0 where no line is.
    pub line: u32,
    /// What is wrong.
    pub kind: LoadKind,
}

impl LoadFault {
    /// Whether it is want of memory.
    pub fn is_memory(&self) -> bool
        ensures { result ≡ is_memory self.now.kind }
    {
        match &self.kind {
            LoadKind::MissingRequired { .. } | LoadKind::MissingClass { .. } => false,
            LoadKind::IncludeDepth | LoadKind::Read | LoadKind::FileBytes => false,
            LoadKind::Parse(_) | LoadKind::Data(_) => false,
            LoadKind::Memory => true,
        }
    }
}

/// A place of the input: a file and a line of it, or the empty path and 0.
#[derive(Debug, Drop)]
pub(crate) struct Place<'a> {
    pub(crate) file: &'a str,
    pub(crate) line: u32,
}

/// Memory ran out.
pub fn out_of_memory(alloc: Global) -> LoadFault
    ensures { IsOutOfMemory result }
{
    LoadFault {
        file: Text::new(alloc),
        line: 0,
        kind: LoadKind::Memory,
    }
}

/// The layers failed.
pub(crate) fn layers_failed(alloc: Global) -> LoadFault
    ensures untold { IsUntold result }
    ensures read { is_read result.kind ≡ true }
{
    LoadFault {
        file: Text::new(alloc),
        line: 0,
        kind: LoadKind::Read,
    }
}

/// A fault at a place.
pub(crate) fn refused(alloc: Global, place: &Place, kind: LoadKind) -> LoadFault
    requires { is_some (cause_of kind) ≡ true }
    ensures said { IsSaid result (where_is place.now) (cause_of kind) }
    ensures not_read { is_read result.kind ≡ false }
{
    match Text::from_str(alloc, place.file) {
        Ok(file) => LoadFault {
            file,
            line: place.line,
            kind,
        },
        Err(_) => out_of_memory(alloc),
    }
}

/// A fault of a store at a place.
pub(crate) fn refused_value(alloc: Global, place: &Place, fault: DataFault) -> LoadFault
    ensures said { IsSaid result (where_is place.now) (option_map no_value (data_refusal fault)) }
    ensures not_read { is_read result.kind ≡ false }
{
    if fault.is_memory() {
        out_of_memory(alloc)
    } else {
        refused(alloc, place, LoadKind::Data(fault))
    }
}
