// The roots of a clearing.
ghost use Rattle.std.specs.Prelude.{◌≡◌, IfOk, option_copied};
ghost use Rattle.plan_clean.specs.Along.{IsOrdered, roots_over};

use crate::on_rows::OnRows;
use hash_equiv::Index;
use meta_model::Plan;
use setscene_plan::hashes;
use std::alloc::Global;
use tree_model::{Hash, Mem};

/// The names of all tasks of the plan over the rows of the index; none without a plan.
pub(crate) fn roots_of(alloc: Global, plan: Option<&Plan>, index: &Index) -> Result<Vec<Hash>, Mem>
    requires { IsOrdered (option_copied plan) }
    ensures { IfOk result (λ roots. roots.items ≡ roots_over (option_copied plan.entry) index.now) }
{
    match plan {
        Some(plan) => {
            let rows = OnRows {
                plan,
                index,
                faults: 0,
            };
            hashes(alloc, plan, &rows)
        }
        None => Ok(Vec::new(alloc)),
    }
}
