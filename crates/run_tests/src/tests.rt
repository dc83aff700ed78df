ghost use Rattle.run_tests.specs.Index.{view_of};
ghost use Rattle.run_tests.specs.Playing.{IsSound, Stands};

use crate::index::Index;
use crate::plans::{Shape, is_sound, plan_of};
use crate::playing::{Outcome, Play, begin, play_out, step};
use meta_model::{Options, Plan};
use run_core::Next;
use setscene_plan::{ProbeFault, hashes, needed};
use std::alloc::Global;
use std::test::Fail;
use tree_model::{Hash, ListOf, Mem};

const PLAIN: Options = Options {
    keep_going: false,
    setscene: true,
};

const GOING: Options = Options {
    keep_going: true,
    setscene: true,
};

/// Recipes of so many tasks in all, each with this many. The first one's key has this comment.
fn recipes(
    alloc: Global,
    tasks: u32,
    steps: u32,
    reach: u32,
    comment: &'static str,
) -> Result<Plan, Mem> {
    plan_of(
        alloc,
        &Shape {
            tasks,
            steps,
            reach,
            lines: 2,
            comment,
        },
    )
}

fn two_names(play: &Play) -> Option<[Hash; 2]> {
    match play.replan.names() {
        [first, second] => Some([*first, *second]),
        _ => None,
    }
}

/// The names in a run of two tasks, which both end.
fn first_run(alloc: Global, index: &mut Index) -> Result<[Hash; 2], Fail>
    requires { IsSound index.old.plan.now }
{
    let mut play = begin(alloc, index)?;
    play_out(alloc, index, &mut play, &PLAIN)?;
    Ok(two_names(&play).ok_or("two names")?)
}

/// What a second run answers to three steps, how often it asks in the first, and the names before and after.
#[derive(Clone, Copy)]
struct Rerun {
    before: Option<[Hash; 2]>,
    steps: [Next; 3],
    asked: u64,
    after: Option<[Hash; 2]>,
}

fn three_steps(
    alloc: Global,
    index: &mut Index,
    play: &mut Play,
    unihash: Hash,
) -> Result<([Next; 3], u64), ProbeFault>
    requires { Stands (view_of index.old) play.old }
{
    let before = index.asked;
    let first = step(alloc, index, play, &PLAIN, Outcome::EndsAs(unihash))?;
    let asked = index.asked.saturating_sub(before);
    let second = step(alloc, index, play, &PLAIN, Outcome::Ends)?;
    let third = step(alloc, index, play, &PLAIN, Outcome::Ends)?;
    Ok(([first, second, third], asked))
}

/// A run in which the first task ends with this unihash.
fn second_run(alloc: Global, index: &mut Index, unihash: Hash) -> Result<Rerun, ProbeFault>
    requires { IsSound index.old.plan.now }
{
    let mut play = begin(alloc, index)?;
    let before = two_names(&play);
    let (steps, asked) = three_steps(alloc, index, &mut play, unihash)?;
    Ok(Rerun {
        before,
        steps,
        asked,
        after: two_names(&play),
    })
}

fn both_runs(alloc: Global, plan: &Plan, changed: &Plan) -> Result<([Hash; 2], Rerun), Fail>
    requires plan { IsSound plan.now }
    requires changed { IsSound changed.now }
{
    let mut index = Index::new(alloc, plan);
    let names = first_run(alloc, &mut index)?;
    let mut index = index.over(changed);
    Ok((names, second_run(alloc, &mut index, names[0])?))
}

/// A comment of the first task changes. It runs anew and its record keeps the old unihash, so the second one has its old name and
/// is found. Both are asked for once, since the names of both are worked out anew.
#[test]
fn comment_keeps_the_unihash(rt: HostRuntime) -> Result<(), Fail> {
    let plan = recipes(rt.alloc(), 2, 2, 0, "one comment")?;
    let changed = recipes(rt.alloc(), 2, 2, 0, "another comment")?;
    assert!(rt; is_sound(&plan));
    assert!(rt; is_sound(&changed));
    let (names, rerun) = both_runs(rt.alloc(), &plan, &changed)?;
    let before = rerun.before.unwrap_or(names);
    assert!(rt; before[0] != names[0] && before[1] != names[1]);
    assert_eq!(rt;
        rerun.steps,
        [Next::Start(0), Next::Settle(1), Next::Finished]
    );
    assert_eq!(rt; rerun.asked, 2);
    assert!(rt; rerun.after == Some([before[0], names[1]]));
    Ok(())
}

fn fail_first(
    alloc: Global,
    index: &mut Index,
    play: &mut Play,
    options: &Options,
) -> Result<(Next, u32, Next), ProbeFault>
    requires { Stands (view_of index.old) play.old }
{
    let first = step(alloc, index, play, options, Outcome::Fails)?;
    let rest = play_out(alloc, index, play, options)?;
    let last = step(alloc, index, play, options, Outcome::Ends)?;
    Ok((first, rest, last))
}

/// A run whose first task fails: that step, how many steps are left, and what is answered then.
fn failing_run(
    alloc: Global,
    plan: &Plan,
    options: &Options,
) -> Result<(Next, u32, Next), ProbeFault>
    requires { IsSound plan.now }
{
    let mut index = Index::new(alloc, plan);
    let mut play = begin(alloc, &mut index)?;
    fail_first(alloc, &mut index, &mut play, options)
}

/// After a task failed nothing begins. With `keep_going` what doesn't stand above it still does.
#[test]
fn failed_task(rt: HostRuntime) -> Result<(), Fail> {
    let plan = recipes(rt.alloc(), 4, 2, 0, "")?;
    assert!(rt; is_sound(&plan));
    let stopped = failing_run(rt.alloc(), &plan, &PLAIN)?;
    assert_eq!(rt; stopped, (Next::Start(0), 0, Next::Stopped));
    let goes_on = failing_run(rt.alloc(), &plan, &GOING)?;
    assert_eq!(rt; goes_on, (Next::Start(0), 2, Next::Finished));
    Ok(())
}

fn end_first(alloc: Global, index: &mut Index, play: &mut Play) -> Result<(Next, u64, bool), Fail>
    requires { Stands (view_of index.old) play.old }
{
    let mut names = Vec::new(alloc);
    names.extend_from_slice(play.replan.names())?;
    let before = index.asked;
    let next = step(alloc, index, play, &PLAIN, Outcome::Ends)?;
    let asked = index.asked.saturating_sub(before);
    Ok((next, asked, play.replan.names() == names.as_slice()))
}

/// A run's first step, how often it asks in it, and whether the names stay.
fn one_step(alloc: Global, plan: &Plan) -> Result<(Next, u64, bool), Fail>
    requires { IsSound plan.now }
{
    let mut index = Index::new(alloc, plan);
    let mut play = begin(alloc, &mut index)?;
    end_first(alloc, &mut index, &mut play)
}

/// Of 50 recipes one task ends with its own unihash: no name changes, and at most one output is asked for.
#[test]
fn one_task_ends(rt: HostRuntime) -> Result<(), Fail> {
    let plan = recipes(rt.alloc(), 200, 4, 2, "")?;
    assert!(rt; is_sound(&plan));
    let (next, asked, stay) = one_step(rt.alloc(), &plan)?;
    assert_eq!(rt; next, Next::Start(0));
    assert!(rt; asked <= 1 && stay);
    Ok(())
}

/// Which tasks are needed where nothing is there, worked out from scratch; and whether a run begins with that, and with the names that are.
fn from_scratch(alloc: Global, plan: &Plan) -> Result<(Vec<bool>, bool), Fail>
    requires { IsSound plan.now }
{
    let mut index = Index::new(alloc, plan);
    let play = begin(alloc, &mut index)?;
    let names = hashes(alloc, index.plan, &index)?;
    let need = needed(alloc, index.plan, play.replan.avail())?;
    let agrees = names.as_slice() == play.replan.names() && need.as_slice() == play.replan.need();
    Ok((need, agrees))
}

/// Of two recipes one task is the target: it is needed, and the one below it.
#[test]
fn names_and_needs_from_scratch(rt: HostRuntime) -> Result<(), Fail> {
    let mut plan = recipes(rt.alloc(), 4, 2, 0, "")?;
    let mut targets = ListOf::new(rt.alloc());
    targets.push(1)?;
    plan.targets = targets;
    assert!(rt; is_sound(&plan));
    let (need, agrees) = from_scratch(rt.alloc(), &plan)?;
    assert_eq!(rt; need.as_slice(), [true, true, false, false].as_slice());
    assert!(rt; agrees);
    Ok(())
}
