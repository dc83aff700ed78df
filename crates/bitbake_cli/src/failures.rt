// The tasks that failed since they gave too much, as standard error tells of them. What other failed tasks said last is shown by their benches.
use meta_model::{Event, Logged, Plan, TaskId, Why};
use tree_model::ListOf;

/// Says of each task whose layout or output was too large, in order, that it was. Each tale is that of the plan at its place.
pub fn tell_too_large(rt: &HostRuntime, plans: &[Plan], tales: &[ListOf<Logged>]) {
    for (plan, tale) in plans.iter().zip(tales) {
        for entry in tale.as_slice() {
            if let Some(id) = too_large(plan, entry) {
                let _ = eprintln!(rt;
                    "bitbake: {}:{} failed: its layout or its output is too large",
                    id.pn.as_str(),
                    id.task.as_str()
                );
            }
        }
    }
}

/// The task that an entry says was too large.
fn too_large<'a>(plan: &'a Plan, entry: &Logged) -> Option<&'a TaskId> {
    let number = match entry.event {
        Event::Failed {
            task,
            why: Why::TooLarge,
        } => task,
        _ => return None,
    };
    match plan.tasks.as_slice().get(number as usize) {
        Some(task) => Some(&task.id),
        None => None,
    }
}
