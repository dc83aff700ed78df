// Sample plans.
ghost use Rattle.std.specs.Prelude.{◌≡◌, ◌<◌, ℕ, IsTrue, All, true};
ghost use Rattle.run_core.specs.Need.{AreOrdered};
ghost use Rattle.run_tests.specs.Playing.{IsSound};

use meta_model::{Key, KeyLine, Plan, PlanTask, Resolved, TaskId};
use std::alloc::Global;
use tree_model::{ListOf, Mem, Text, Texts, Tree};

/// A plan of recipes with as many tasks each, one behind the other. Each task also needs the same one of the recipes before.
#[derive(Clone, Copy)]
pub struct Shape {
    /// How many tasks there are in all.
    pub tasks: u32,
    /// How many of them a recipe has.
    pub steps: u32,
    /// How many recipes before its own a task needs the same task of.
    pub reach: u32,
    /// How many lines a task's key has.
    pub lines: u32,
    /// What the first task's key says besides.
    pub comment: &'static str,
}

fn line_of(alloc: Global, name: &str, text: &str) -> Result<KeyLine, Mem> {
    Ok(KeyLine {
        name: Text::from_str(alloc, name)?,
        value: Some(Resolved {
            text: Text::from_str(alloc, text)?,
            removes: Texts::new(alloc),
            flags: ListOf::new(alloc),
        }),
    })
}

fn key_of(alloc: Global, shape: &Shape, number: u32) -> Result<Key, Mem> {
    let mut lines = ListOf::new(alloc);
    if number == 0 {
        lines.push(line_of(alloc, "#", shape.comment)?)?;
    }
    for line in 0..shape.lines {
        let name = format!(in alloc; "NAME_{line:02}")?;
        lines.push(line_of(
            alloc,
            name.as_str(),
            "    echo some text of a value that is as long as most",
        )?)?;
    }
    Ok(Key {
        lines,
        excluded: false,
    })
}

fn deps_of(alloc: Global, shape: &Shape, number: u32) -> Result<ListOf<u32>, Mem> {
    let mut deps = ListOf::new(alloc);
    for back in 0..shape.reach {
        let far = shape.steps.saturating_mul(back.saturating_add(1));
        if let Some(dep) = number.checked_sub(far) {
            deps.push(dep)?;
        }
    }
    if number % shape.steps.max(1) > 0 {
        deps.push(number - 1)?;
    }
    Ok(deps)
}

fn task_of(alloc: Global, shape: &Shape, number: u32) -> Result<PlanTask, Mem> {
    let steps = shape.steps.max(1);
    let recipe = number / steps;
    let step = number % steps;
    let pn = format!(in alloc; "recipe-{recipe:05}")?;
    let task = format!(in alloc; "do_{step:02}")?;
    Ok(PlanTask {
        id: TaskId {
            mc: Text::new(alloc),
            pn: Text::from_string(pn),
            task: Text::from_string(task),
        },
        deps: deps_of(alloc, shape, number)?,
        depth: step,
        key: key_of(alloc, shape, number)?,
        files: Tree::empty(alloc),
        script: Text::new(alloc),
        nostamp: false,
        sstate: false,
        places: ListOf::new(alloc),
    })
}

/// The plan of this shape. All of its tasks are targets.
pub fn plan_of(alloc: Global, shape: &Shape) -> Result<Plan, Mem> {
    let mut tasks = ListOf::new(alloc);
    let mut targets = ListOf::new(alloc);
    for number in 0..shape.tasks {
        tasks.push(task_of(alloc, shape, number)?)?;
        targets.push(number)?;
    }
    Ok(Plan {
        threads: 1,
        targets,
        tasks,
    })
}

fn are_below(numbers: &[u32], limit: usize) -> bool
    ensures { result ≡ true → All (λ d. d < limit) numbers.now }
{
    numbers.iter().all(|number| (*number as usize) < limit)
}

fn are_ordered(tasks: &[PlanTask]) -> bool
    ensures { result ≡ true → AreOrdered tasks.now }
{
    for place in 0..tasks.len() {
        if !are_below(tasks[place].deps.as_slice(), place) {
            return false;
        }
    }
    true
}

/// Whether a run may have the plan: it has at most 65,536 tasks, each needs tasks below it alone, and each target is one of them.
pub fn is_sound(plan: &Plan) -> bool
    ensures { result ≡ true → IsSound plan.now }
{
    let tasks = plan.tasks.as_slice();
    tasks.len() <= 65536 && are_ordered(tasks) && are_below(plan.targets.as_slice(), tasks.len())
}
