//! Measures turns: of the turn lock, and of a plain mutex around the same story.
//!
//! The words are `lock` or `mutex`, the number of threads (1 to 64), how many turns each takes, and for how many milliseconds each turn lasts. It prints
//! the number of entries that were made; where a fifth word `time` stands, also the turns in a second.
#![tactic(auto)]

ghost use Rattle.std.specs.Prelude.{◌≡◌, ◌<◌, ◌≤◌, []};

use std::alloc::{AllocError, Global};
use std::sync::{Mutex, Wait};
use std::thread::Threads;
use std::time::{Clock, Duration, Instant};
use std::{env, thread};
use turn_lock::LockRefused;
use turn_lock_tests::{Diary, play};

/// What is measured.
#[derive(Clone, Copy)]
struct Measure {
    plain: bool,
    threads: u32,
    turns: u32,
    pause: u32,
    timed: bool,
    ghost threads_fit: { (0 < threads) × (threads ≤ 64) },
}

fn number(word: Option<&String>, default: u32) -> u32 {
    word.and_then(|word| word.parse().ok()).unwrap_or(default)
}

fn measure_of(words: &[String]) -> Measure {
    Measure {
        plain: words.get(1).is_some_and(|word| word.as_str() == "mutex"),
        threads: number(words.get(2), 1).clamp(1, 64),
        turns: number(words.get(3), 1000),
        pause: number(words.get(4), 0),
        timed: words.get(5).is_some_and(|word| word.as_str() == "time"),
    }
}

fn mutex_turns<R: Wait + Clock>(rt: &R, diary: &Mutex<Diary>, seat: u32, turns: u32, pause: u32) {
    for turn in 0..turns {
        let mut story = diary.lock(rt);
        if story.entries.push((seat, turn)).is_err() {
            break;
        }
        if pause > 0 {
            thread::sleep(rt, Duration::from_millis(u64::from(pause)));
        }
    }
}

fn by_mutex<R: Threads + Wait + Clock + Sync>(
    rt: &R,
    alloc: Global,
    diary: Diary,
    measure: &Measure,
) -> Result<Diary, AllocError> {
    let shared = Mutex::new(diary);
    let diary = &shared;
    thread::map_indices(
        rt,
        alloc,
        measure.threads as usize,
        &|seat|
            requires { seat < 64 }
        { mutex_turns(rt, diary, seat as u32, measure.turns, measure.pause) },
    )?;
    Ok(shared.into_inner())
}

fn by_lock<R: Threads + Wait + Clock + Sync>(
    rt: &R,
    alloc: Global,
    diary: Diary,
    measure: &Measure,
) -> Result<Diary, AllocError>
    requires { diary.entries.items ≡ [] }
{
    match play(
        rt,
        alloc,
        diary,
        measure.threads,
        measure.turns,
        measure.pause,
    ) {
        Ok(diary) => Ok(diary),
        Err(LockRefused { story }) => {
            drop(story);
            Err(AllocError)
        }
    }
}

fn main(rt: HostRuntime) -> anyhow::Result<()> {
    let alloc: Global = rt.alloc();
    let mut words = Vec::new(alloc);
    for word in env::args(&rt)? {
        words.push(word)?;
    }
    let measure = measure_of(&words);
    let diary = Diary {
        title: 7,
        entries: Vec::new(alloc),
    };
    let start = Instant::now(&rt)?;
    let diary = if measure.plain {
        by_mutex(&rt, alloc, diary, &measure)?
    } else {
        by_lock(&rt, alloc, diary, &measure)?
    };
    let took = start.elapsed(&rt)?.as_micros().max(1);
    println!(&rt; "{} entries", diary.entries.len())?;
    if measure.timed {
        let rate = diary.entries.len() as u128 * 1_000_000 / took;
        println!(&rt; "{rate} turns in a second")?;
    }
    Ok(())
}
