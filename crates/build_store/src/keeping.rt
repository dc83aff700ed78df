// Signatures that are kept.
ghost use Rattle.std.specs.Prelude.{◌≡◌, OnOk, OnErr, IfOk};
ghost use Rattle.std.specs.List.{list_any};
ghost use Rattle.build_store.specs.View.{is_kept_for, kept_sig, kept_with, kept_without, signed_by};
ghost use Rattle.store_model.specs.declared.signature.SigRecord.{SigRecord};
ghost use Rattle.store_model.specs.Spelling.{signature_bytes};

use crate::kept::KeptSig;
use meta_model::PlanTask;
use store_model::SigText;
use tree_model::Mem;

/// Whether a signature is kept of this task.
fn is_kept_for(kept: &KeptSig, pn: &str, task: &str) -> bool
    ensures { result ≡ is_kept_for pn.now task.now kept.now }
{
    kept.pn.as_str() == pn && kept.task.as_str() == task
}

/// Whether one of these is kept of a task.
fn is_any_for(kept: &[KeptSig], pn: &str, task: &str) -> bool
    ensures { result ≡ list_any (is_kept_for pn.now task.now) kept.now }
{
    kept.iter().any(|one| is_kept_for(one, pn, task))
}

/// Keeps a task's signature, unless one of it is kept.
pub(crate) fn keep(kept: &mut Vec<KeptSig>, task: &PlanTask, sig: &SigText) -> Result<(), Mem>
    ensures ok { OnOk result ((own : SigRecord) → sig.now ≡ signature_bytes own
        → kept.new.items ≡ kept_with (signed_by task.now own) kept.old.items) }
    ensures err { OnErr result (kept.new.items ≡ kept.old.items) }
{
    if is_any_for(kept.as_slice(), task.id.pn.as_str(), task.id.task.as_str()) {
        return Ok(());
    }
    let own = KeptSig {
        pn: task.id.pn.copy()?,
        task: task.id.task.copy()?,
        sig: sig.copy()?,
    };
    kept.push(own)?;
    Ok(())
}

/// Keeps a task's signature no longer.
pub(crate) fn forget(kept: &mut Vec<KeptSig>, task: &PlanTask)
    ensures { (own : SigRecord) → kept.new.items ≡ kept_without (signed_by task.now own) kept.old.items }
{
    let pn = task.id.pn.as_str();
    let name = task.id.task.as_str();
    kept.retain(|one| !is_kept_for(one, pn, name));
}
