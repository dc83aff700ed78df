// What is proved of runs.
ghost use Rattle.std.specs.Prelude.{◌≡◌, [], List, ℕ, Option};
ghost use Rattle.meta_model.specs.declared.event.Status.{Status as End};
ghost use Rattle.meta_model.specs.declared.facts.Graph.{Graph as Tasks};
ghost use Rattle.outside_traits.specs.Store.{IsListing};
ghost use Rattle.load_model.specs.Loading.{sources_of};
ghost use Rattle.answer_model.specs.RunAsked.{Asked as What};
ghost use Rattle.answer_model.specs.Runs.{IsRun, IsRunRefused};

/// Words that have a run of one project aren't refused: their graph has no refusal, no cycle and no more tasks than a graph may
/// have.
pub fn run_law()
    ensures { (files : List ℕ → Option (List ℕ)) (paths others words : List (List ℕ)) (task : Option (List ℕ))
        (what : What) (graph : Tasks) (threads : ℕ) (status : End) → IsListing [] files paths
        → IsListing [] files others → IsRun (sources_of files) paths words task what graph threads
        → IsRunRefused (sources_of files) others words task status → ⊥ }
{}
