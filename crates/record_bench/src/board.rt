// Runs over an index in memory.
ghost use Rattle.run_tests.specs.Playing.{IsSound};

use crate::spent;
use anyhow::{Result, bail};
use meta_model::{Options, Plan};
use run_tests::{Index, Shape, begin, is_sound, plan_of, play_out};
use std::time::CpuClock;

const OPTIONS: Options = Options {
    keep_going: false,
    setscene: true,
};

/// A run from what the index has to the end.
fn play(rt: &HostRuntime, index: &mut Index, timed: bool) -> Result<()>
    requires { IsSound index.old.plan.now }
{
    let start = rt.process_cpu_time()?;
    let Ok(mut play) = begin(rt.alloc(), index) else {
        bail!("no run");
    };
    let begun = spent(rt, start)?;
    let Ok(steps) = play_out(rt.alloc(), index, &mut play, &OPTIONS) else {
        bail!("no end");
    };
    let took = spent(rt, start)?;
    println!(rt; "run: {steps} tasks, asked {} times", index.asked)?;
    if timed {
        println!(rt; "beginning: {begun} us")?;
        println!(rt; "running: {took} us")?;
    }
    Ok(())
}

fn over(rt: &HostRuntime, plan: &Plan, timed: bool) -> Result<()>
    requires { IsSound plan.now }
{
    let mut index = Index::new(rt.alloc(), plan);
    play(rt, &mut index, timed)?;
    let mut index = index.over(plan);
    play(rt, &mut index, timed)
}

/// A run in which all tasks of a plan end, and one that finds them. Each needs up to eight others.
pub fn measure(rt: &HostRuntime, tasks: u32, timed: bool) -> Result<()> {
    let shape = Shape {
        tasks,
        steps: 32,
        reach: 7,
        lines: 4,
        comment: "",
    };
    let Ok(plan) = plan_of(rt.alloc(), &shape) else {
        bail!("out of memory");
    };
    if !is_sound(&plan) {
        bail!("too many tasks");
    }
    over(rt, &plan, timed)
}
