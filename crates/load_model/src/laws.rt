// What is proved of the definitions of loading.
ghost use Rattle.std.specs.Prelude.{◌≡◌, ℕ, List, Bool, Ok};
ghost use Rattle.meta_model.specs.declared.line.Kind.{Kind as FileKind};
ghost use Rattle.load_model.specs.Versions.{IsVersionOrder};
ghost use Rattle.load_model.specs.Recipes.{Recipe as Read};
ghost use Rattle.load_model.specs.Facts.{IsGreatest, greatest};
ghost use Rattle.load_model.specs.Loading.{Sources, Loaded, Extends, entries, class_entries, searched_entries};

/// The order of versions is a total order, in which no two versions are equal. So there is one greatest version of several.
pub fn version_laws()
    ensures { IsVersionOrder }
{}

/// The greatest of some recipes is one of them, and none of them is greater: by version, then by PR, then by path.
pub fn greatest_law()
    ensures { (recipes : List Read) → IsGreatest recipes (greatest recipes) }
{}

/// Reading a file, a class, or a file that is searched adds entries behind those before, which stay; and no class counts as
/// read twice.
pub fn reading_files_laws()
    ensures file { (sources : Sources) (kind : FileKind) (path : List ℕ) (old new : Loaded)
        → entries sources kind path old ≡ Ok new → Extends old new }
    ensures class { (sources : Sources) (must : Bool) (name : List ℕ) (old new : Loaded)
        → class_entries sources must name old ≡ Ok new → Extends old new }
    ensures searched { (sources : Sources) (kind : FileKind) (must : Bool) (path : List ℕ) (old new : Loaded)
        → searched_entries sources kind must path old ≡ Ok new → Extends old new }
{}
