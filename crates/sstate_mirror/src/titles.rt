// The wanted PNs and tasks, found by their PNs.
ghost use Rattle.std.specs.Prelude.{◌≡◌, ◌++◌, ◌∷◌, [], List, ℕ, IfOk, OnOk, bytes_eq, if◌then◌else◌};
ghost use Rattle.sstate_mirror.specs.Titles.{AreTitles, is_task, tasks_of};

use std::alloc::Global;
use std::collections::BTreeMap;
use store_model::EquivRow;
use tree_model::{Mem, Text, Texts};

/// The tasks that are kept for a PN.
fn tasks_for<'a>(of_pn: &'a BTreeMap<String, Texts>, pn: &str) -> &'a [Text]
    ensures { result.now ≡ tasks_of of_pn.now pn.now }
{
    match of_pn.get(pn) {
        Some(tasks) => tasks.as_slice(),
        None => &[],
    }
}

/// Keeps one task more for a PN.
fn put_task(
    of_pn: &mut BTreeMap<String, Texts>,
    alloc: Global,
    pn: &str,
    task: Text,
) -> Result<(), Mem>
    ensures { OnOk result ((t : List ℕ) → tasks_of of_pn.new t ≡ tasks_of of_pn.old t
        ++ (if bytes_eq pn.now t then task ∷ [] else [])) }
{
    match of_pn.get_mut(pn) {
        Some(tasks) => tasks.push(task),
        None => {
            let mut tasks = Texts::new(alloc);
            tasks.push(task)?;
            of_pn.insert(String::from_str(alloc, pn)?, tasks)?;
            Ok(())
        }
    }
}

/// Keeps a title.
fn put_title(
    of_pn: &mut BTreeMap<String, Texts>,
    alloc: Global,
    title: &(Text, Text),
) -> Result<(), Mem>
    ensures { OnOk result ((t : List ℕ) → tasks_of of_pn.new t ≡ tasks_of of_pn.old t
        ++ (if bytes_eq title.now.0 t then title.now.1 ∷ [] else [])) }
{
    let task = title.1.copy()?;
    put_task(of_pn, alloc, title.0.as_str(), task)
}

/// The wanted titles by their PNs, so that each row is compared with the tasks of its PN alone.
pub(crate) fn titles_by_pn(
    alloc: Global,
    wanted: &[(Text, Text)],
) -> Result<BTreeMap<String, Texts>, Mem>
    ensures { IfOk result (AreTitles wanted.now) }
{
    let mut of_pn = BTreeMap::new(alloc);
    for title in wanted {
        put_title(&mut of_pn, alloc, title)?;
    }
    Ok(of_pn)
}

/// Whether a row is of a PN and task that are kept.
pub(crate) fn is_asked(of_pn: &BTreeMap<String, Texts>, row: &EquivRow) -> bool
    ensures { result ≡ is_task (tasks_of of_pn.now row.now.pn) row.now.task }
{
    let task = row.task.as_str();
    tasks_for(of_pn, row.pn.as_str())
        .iter()
        .any(|known| known.as_str() == task)
}
