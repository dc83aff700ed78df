// Why there is no configuration.
ghost use Rattle.std.specs.Prelude.{◌≡◌, false, Some, None};
ghost use Rattle.std.specs.Option.{option_map};
ghost use Rattle.load_model.specs.Layers as meant;
ghost use Rattle.class_inherit.specs.Faults.{is_read, load_refusal};
ghost use Rattle.datastore.specs.Faults.{data_refusal};
ghost use Rattle.layer_conf.specs.Faults.{layer_refusal, is_failure, IsOrMemory};

use class_inherit::LoadFault;
use datastore::DataFault;
use std::alloc::Global;
use tree_model::Text;

/// Why there is no configuration.
#[derive(Debug, Drop)]
pub enum LayerFault {
    /// A word of BBLAYERS without the file `conf/layer.conf`; it is the word.
    NoSuchLayer { path: Text },
    /// A word of BBFILES with `[`.
    BadPattern { word: Text },
    /// A file isn't loaded. Its kind is `Read` only where the layers' count of faults rose.
    Load(LoadFault),
    /// BBLAYERS or BBFILES can't be expanded.
    Data(DataFault),
    /// The files can't be listed; the layers' count of faults rose.
    List,
    /// Memory ran out.
    Memory,
}

/// A word of BBLAYERS that is no layer.
pub(crate) fn no_such_layer(alloc: Global, word: &str) -> LayerFault
    ensures told { IsOrMemory result (meant.no_such_layer word.now) }
    ensures no_failure { is_failure result ≡ false }
{
    match Text::from_str(alloc, word) {
        Ok(path) => LayerFault::NoSuchLayer { path },
        Err(_) => LayerFault::Memory,
    }
}

/// A file that isn't loaded.
pub(crate) fn load_told(fault: LoadFault) -> LayerFault
    ensures told { layer_refusal result ≡ option_map meant.load (load_refusal fault) }
    ensures failure { is_failure result ≡ is_read fault.kind }
{
    if fault.is_memory() {
        LayerFault::Memory
    } else {
        LayerFault::Load(fault)
    }
}

/// A value that can't be given.
pub(crate) fn data_told(fault: DataFault) -> LayerFault
    ensures told { layer_refusal result ≡ option_map meant.no_list (data_refusal fault) }
    ensures no_failure { is_failure result ≡ false }
{
    match fault {
        DataFault::Unstable { before, last } => LayerFault::Data(DataFault::Unstable {
            before,
            last,
        }),
        DataFault::Expand(fault) => LayerFault::Data(DataFault::Expand(fault)),
        DataFault::Memory => LayerFault::Memory,
    }
}
