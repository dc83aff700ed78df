// The flags of a name.
ghost use Rattle.std.specs.Prelude.{◌≡◌, List, ℕ, option_copied};
ghost use Rattle.meta_model.specs.Slot.{at_end};
ghost use Rattle.value_maps.specs.FlagsTold.{flag_told};
ghost use Rattle.value_maps.specs.Maps.{named_at};
ghost use Rattle.value_maps.specs.Named.{flag_at};

use crate::found::flag_in;
use crate::maps::Maps;
use crate::named::Named;

/// The flags of a name, which was looked up once for all of them.
#[derive(Drop)]
pub struct AllFlags<'a> {
    named: Option<&'a Named>,
}

impl<'a> AllFlags<'a> {
    /// A flag, unexpanded.
    pub fn get(&self, flag: &str) -> Option<&'a str>
        ensures { option_copied result ≡ flag_told self.now flag.now }
    {
        flag_in(self.named, flag)
    }
}

impl Maps {
    /// The flags of a name.
    pub fn flags(&self, name: &str) -> AllFlags<'_>
        ensures { (f : List ℕ) → flag_told result f ≡ at_end (flag_at (named_at self.now name.now) f) }
    {
        AllFlags {
            named: self.of(name),
        }
    }
}
