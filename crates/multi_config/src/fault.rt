// Why words have no parts.
ghost use Rattle.std.specs.Prelude.{◌≡◌, ◌⊎◌, None, Some};
ghost use Rattle.multi_config.specs.declared.fault.SplitFault.TheVariants.{Memory};
ghost use Rattle.multi_config.specs.Faults.{word_refusal};
ghost use Rattle.multi_config.specs.Words as meant;

use std::alloc::Global;
use tree_model::{Mem, Text};

/// Why words have no parts.
#[derive(Debug, Drop)]
pub enum SplitFault {
    /// The default configuration names no configuration of this name, or it can't be one's name.
    NoSuchConfig { name: Text },
    /// The word begins with `mc:`, and is neither `mc:NAME:RECIPE` nor `mc:NAME:RECIPE:TASK`.
    NothingProvides { word: Text },
    /// Memory ran out.
    Memory,
}

impl From<Mem> for SplitFault {
    ghost from_gives = { λ _ fault. fault ≡ Memory };

    fn from(_: Mem) -> SplitFault {
        SplitFault::Memory
    }
}

/// There is no such configuration.
pub(crate) fn no_such_config(alloc: Global, name: &str) -> SplitFault
    ensures { (word_refusal result ≡ None) ⊎ (word_refusal result ≡ Some (meant.no_such_config name.now)) }
{
    match Text::from_str(alloc, name) {
        Ok(name) => SplitFault::NoSuchConfig { name },
        Err(_) => SplitFault::Memory,
    }
}

/// The word has no such form.
pub(crate) fn nothing_provides(alloc: Global, word: &str) -> SplitFault
    ensures { (word_refusal result ≡ None) ⊎ (word_refusal result ≡ Some (meant.nothing_provides word.now)) }
{
    match Text::from_str(alloc, word) {
        Ok(word) => SplitFault::NothingProvides { word },
        Err(_) => SplitFault::Memory,
    }
}
