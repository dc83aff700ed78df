ghost use Rattle.std.specs.Prelude.{◌≡◌, ◌≤◌, ◌<◌};

use crate::{Device, Diary, mark_by_two, play};
use std::alloc::Global;
use std::process::Abort;
use std::sync::Wait;
use std::test::*;
use std::thread::Threads;
use std::time::Clock;
use turn_lock::{LockRefused, TurnLock};

// The entries of each seat count up from 0, and there are so many of each.
fn check_diary<R: Abort>(rt: &R, diary: &Diary, seats: usize, count: u32) {
    let mut next = [0u32; 64];
    for entry in &diary.entries {
        let by = entry.0 as usize;
        assert!(rt; by < seats && by < 64, "an entry of no seat");
        assert!(rt; next[by] == entry.1, "an entry out of order");
        next[by] = next[by].wrapping_add(1);
    }
    for by in 0..seats.min(64) {
        assert!(rt; next[by] == count, "a seat's entry is missing");
    }
}

fn play_turns<R: Threads + Wait + Clock + Sync + Abort>(
    rt: &R,
    alloc: Global,
    seats: u32,
    count: u32,
)
    requires { (0 < seats) × (seats ≤ 64) }
{
    let diary = Diary {
        title: 7,
        entries: Vec::new(alloc),
    };
    match play(rt, alloc, diary, seats, count, 0) {
        Ok(diary) => {
            assert!(rt; diary.title == 7, "another diary");
            assert!(rt;
                diary.entries.len() as u64 == u64::from(seats) * u64::from(count),
                "a turn is missing"
            );
            check_diary(rt, &diary, seats as usize, count);
        }
        Err(LockRefused { story }) => {
            assert!(rt; story.title == 7, "another diary");
            panic!(rt; "no memory");
        }
    }
}

#[test]
fn two_threads_take_turns(rt: HostRuntime) {
    play_turns(&rt, rt.alloc(), 2, 1000);
}

#[test]
fn sixteen_threads_take_turns(rt: HostRuntime) {
    play_turns(&rt, rt.alloc(), 16, 200);
}

// With each allocation refused in turn the story comes back, as it does with enough memory.
#[test]
fn a_refused_lock_gives_the_story_back(rt: HostRuntime) {
    let diary = Diary {
        title: 7,
        entries: Vec::new(rt.alloc()),
    };
    let diary = match TurnLock::new(rt.alloc(), diary, 1) {
        Ok((lock, seat)) => {
            assert!(&rt; seat.number() == 0 && seat.spare() == 0, "the only seat");
            lock.close(seat)
        }
        Err(LockRefused { story }) => story,
    };
    assert!(&rt;
        diary.title == 7 && diary.entries.is_empty(),
        "another diary"
    );
}

#[derive(Drop)]
struct Counter {
    uses: u64,
}

impl Device for Counter {
    ghost count = { λ _. 0 };

    fn touch(&mut self) {
        self.uses = self.uses.saturating_add(1);
    }
}

#[test]
fn a_generic_story_is_handed_on(rt: HostRuntime) {
    let Ok(state) = mark_by_two(&rt, rt.alloc(), Counter { uses: 0 }) else {
        panic!(&rt; "no memory")
    };
    assert!(&rt; state.device.uses == 2, "a turn is missing");
    let mut tasks = [0u32; 2];
    for entry in &state.tale {
        assert!(&rt; entry.seat < 2, "an entry of no seat");
        tasks[entry.seat as usize] = entry.task;
    }
    assert!(&rt; tasks == [7, 8] && state.tale.len() == 2, "another tale");
}
