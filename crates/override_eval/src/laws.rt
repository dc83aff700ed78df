// What is proved of the definitions.
ghost use Rattle.std.specs.Prelude.{◌≡◌, List};
ghost use Rattle.meta_model.specs.declared.entry.EntryLine.{EntryLine as Line};
ghost use Rattle.meta_model.specs.Active.{active};
ghost use Rattle.override_eval.specs.Settled.{pass_of, active_by, overrides_under};

/// The passes over the value of OVERRIDES among some entries settle as the active overrides of these entries do, refusals
/// included. So `settle` over a store that holds the entries gives their active overrides.
pub fn settling_law()
    ensures { (list : List Line) → active_by (pass_of (overrides_under list)) ≡ active list }
{}
