//! A story of who wrote what, and threads that take turns with it.
ghost use Rattle.std.specs.Prelude.{◌≡◌, ℕ, ◌+◌, ◌<◌, ◌≤◌, [], ◌∷◌, ◌++◌, IfOk, IfErr};
ghost use Rattle.std.specs.Thread.{IsSync};
ghost use Rattle.turn_lock.specs.Views.{Begins, HasEntries, records_of};
ghost use Rattle.turn_lock.specs.Seats.{view_of, IsSeatOf, IsNamed, IsFree, TakesTurn};
ghost use Rattle.turn_lock_tests.specs.Seats.{IsSameSeat, HasSameNumbers};

use std::alloc::{AllocError, Global};
use std::sync::Wait;
use std::thread;
use std::thread::{Threads, join};
use std::time::{Clock, Duration};
use turn_lock::{LockRefused, Seat, Story, TurnLock};

/// A story whose entries are the number of a seat and a number of its own.
#[derive(Drop)]
pub struct Diary {
    pub title: u64,
    pub entries: Vec<(u32, u32)>,
}

impl Story for Diary {
    type Name = u64;

    type Entry = (u32, u32);

    ghost name = { λ d. d.title };

    ghost tale = { λ d. d.entries.items };

    ghost author = { λ e. e.0 };
}

// `begin` at this story, with its clauses.
fn take_turn<R: Wait>(rt: &R, lock: &TurnLock<Diary>, seat: &mut Seat<Diary>) -> Diary
    requires lock { IsSeatOf lock.now seat.old }
    requires free { IsFree seat.old }
    ensures lock { IsSeatOf lock.now seat.new }
    ensures turn { TakesTurn seat.old seat.new result.entries.items }
    ensures name { IsNamed seat.old result.title }
    ensures seen { Begins result.entries.items (view_of seat.old).seen }
    ensures records { HasEntries (λ e. e.0) (records_of (view_of seat.old)) result.entries.items }
{
    lock.begin(rt, seat)
}

// One turn, which adds an entry unless memory is wanting, and lasts for `pause` milliseconds.
fn one_turn<R: Wait + Clock>(
    rt: &R,
    lock: &TurnLock<Diary>,
    seat: &mut Seat<Diary>,
    entry: u32,
    pause: u32,
) -> Result<(), AllocError>
    requires lock { IsSeatOf lock.now seat.old }
    requires free { IsFree seat.old }
    ensures lock { IsSeatOf lock.now seat.new }
    ensures free { IsFree seat.new }
    ensures same { IsSameSeat (view_of seat.old) (view_of seat.new) }
    ensures own { IfOk result (λ _. (view_of seat.new).own ≡ (view_of seat.old).own
        ++ ((view_of seat.old).number, entry) ∷ []) }
    ensures none { IfErr result (λ _. (view_of seat.new).own ≡ (view_of seat.old).own) }
{
    let mut story = take_turn(rt, lock, seat);
    let pushed = story.entries.push((seat.number(), entry));
    if pause > 0 {
        thread::sleep(rt, Duration::from_millis(u64::from(pause)));
    }
    lock.end(seat, story);
    pushed?;
    Ok(())
}

// So many turns, or fewer where memory is wanting.
fn turns<R: Wait + Clock>(
    rt: &R,
    lock: &TurnLock<Diary>,
    mut seat: Seat<Diary>,
    count: u32,
    pause: u32,
) -> Seat<Diary>
    requires lock { IsSeatOf lock.now seat }
    requires free { IsFree seat }
    ensures lock { IsSeatOf lock.entry.now result }
    ensures free { IsFree result }
    ensures same { IsSameSeat (view_of seat) (view_of result) }
{
    for i in 0..count {
        if one_turn(rt, lock, &mut seat, i, pause).is_err() {
            break;
        }
    }
    seat
}

// This seat and those that are split off it take so many turns each, on a thread for each. Then the seat takes the others in.
fn spread<R: Threads + Wait + Clock + Sync>(
    rt: &R,
    lock: &TurnLock<Diary>,
    mut seat: Seat<Diary>,
    more: u32,
    count: u32,
    pause: u32,
) -> Seat<Diary>
    requires lock { IsSeatOf lock.now seat }
    requires free { IsFree seat }
    requires spare { (view_of seat).spare ≡ more }
    ensures lock { IsSeatOf lock.entry.now result }
    ensures free { IsFree result }
    ensures name { (view_of result).name ≡ (view_of seat).name }
    ensures numbers { HasSameNumbers (view_of seat) (view_of result) }
{
    if more == 0 {
        return turns(rt, lock, seat, count, pause);
    }
    let other = lock.split(&mut seat);
    let (mut first, second) = join(
        rt,
        move || -> Seat<Diary>
            requires sync { IsSync R.row }
            requires more { 0 < more }
            requires lock { IsSeatOf lock.now seat }
            requires free { IsFree seat }
            requires spare { (view_of seat).spare + 1 ≡ more }
            ensures lock { IsSeatOf lock.entry.now result }
            ensures free { IsFree result }
            ensures name { (view_of result).name ≡ (view_of seat).name }
            ensures numbers { HasSameNumbers (view_of seat) (view_of result) }
        { spread(rt, lock, seat, more - 1, count, pause) },
        move || turns(rt, lock, other, count, pause),
    );
    lock.join(&mut first, second);
    first
}

/// So many seats, each on a thread of its own, take so many turns each with the diary, which comes back. Each turn lasts for `pause` milliseconds.
/// `LockRefused` is want of memory for the lock.
pub fn play<R: Threads + Wait + Clock + Sync>(
    rt: &R,
    alloc: Global,
    diary: Diary,
    seats: u32,
    count: u32,
    pause: u32,
) -> Result<Diary, LockRefused<Diary>>
    requires seats { (0 < seats) × (seats ≤ 64) }
    requires empty { diary.entries.items ≡ [] }
    ensures title { IfOk result (λ d. d.title ≡ diary.title) }
    ensures refused { IfErr result (λ r. r.story ≡ diary) }
{
    let (lock, seat) = TurnLock::new(alloc, diary, seats)?;
    let seat = spread(rt, &lock, seat, seats - 1, count, pause);
    Ok(lock.close(seat))
}
