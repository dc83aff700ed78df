// The names of a plan's tasks.
ghost use Rattle.std.specs.Prelude.{◌≡◌, ◌<◌, ◌≤◌, IfOk, IfSome, length, slice_get};
ghost use Rattle.run_core.specs.Need.{AreOrdered};
ghost use Rattle.store_model.specs.Rows.{uni};
ghost use Rattle.store_model.specs.Spelling.{name_of, signature_bytes};
ghost use Rattle.sig_gen.specs.Signing.{signature_by};
ghost use Rattle.sig_gen.specs.Sound.{IsNameBy};
ghost use Rattle.setscene_plan.specs.Names.{names_over};

use crate::probe::Probe;
use meta_model::Plan;
use sig_gen::{encode_sig_of, name_by};
use std::alloc::Global;
use store_model::SigText;
use tree_model::{Hash, Mem};

/// The name of a signature, and its whole text.
#[derive(Drop)]
pub(crate) struct Signed {
    pub(crate) name: Hash,
    pub(crate) text: SigText,
}

/// The unihash of a name: that of its row, and the name itself where there is none.
pub(crate) fn unihash_of<P: Probe>(probe: &P, name: &Hash) -> Hash
    ensures { result ≡ uni (P.view probe.now).rows name.now }
{
    match probe.unihash(name) {
        Some(unihash) => unihash,
        None => *name,
    }
}

/// The name of a signature, which has this PN, by its whole text: as the probe knows it, else a digest.
fn known_name<P: Probe>(probe: &P, pn: &str, text: &SigText) -> Hash
    ensures { IsNameBy text.now result }
{
    match probe.known_name(pn, text) {
        Some(name) => name,
        None => name_by(text),
    }
}

/// The name of a task's signature, by these unihashes, and its whole text.
pub(crate) fn sign<P: Probe>(
    alloc: Global,
    plan: &Plan,
    probe: &P,
    task: u32,
    unihashes: &[Hash],
) -> Result<Signed, Mem>
    requires task { task < length plan.now.tasks }
    requires unihashes { length unihashes.now ≡ length plan.now.tasks }
    ensures name { IfOk result (λ made. IfSome (slice_get plan.now.tasks task)
        (λ own. made.name ≡ name_of (signature_by plan.now.tasks unihashes.now own))) }
    ensures text { IfOk result (λ made. IfSome (slice_get plan.now.tasks task)
        (λ own. made.text ≡ signature_bytes (signature_by plan.now.tasks unihashes.now own))) }
{
    let text = encode_sig_of(alloc, plan, task, unihashes)?;
    let pn = plan.tasks.as_slice()[task as usize].id.pn.as_str();
    let name = known_name(probe, pn, &text);
    Ok(Signed { name, text })
}

/// So many digests of zeros.
pub(crate) fn no_hashes(alloc: Global, count: usize) -> Result<Vec<Hash>, Mem>
    ensures { IfOk result (λ made. length made.items ≡ count) }
{
    let mut made = Vec::with_capacity(alloc, count)?;
    for _ in 0..count {
        made.push(Hash { bytes: [0; 32] })?;
    }
    Ok(made)
}

/// The names of a plan's tasks over the rows of the probe: each is the digest of the task's signature.
pub fn hashes<P: Probe>(alloc: Global, plan: &Plan, probe: &P) -> Result<Vec<Hash>, Mem>
    requires plan { (P.view probe.now).plan ≡ plan.now }
    requires few { length plan.now.tasks ≤ 65536 }
    requires ordered { AreOrdered plan.now.tasks }
    ensures { IfOk result (λ names. names.items ≡ names_over (P.view probe.now).rows plan.now.tasks) }
{
    let count = plan.tasks.len();
    let mut names = no_hashes(alloc, count)?;
    let mut unihashes = no_hashes(alloc, count)?;
    for place in 0..count {
        let made = sign(alloc, plan, probe, place as u32, unihashes.as_slice())?;
        names[place] = made.name;
        unihashes[place] = unihash_of(probe, &made.name);
    }
    Ok(names)
}
