//! A story that is generic over a device, and a queue over the lock that keeps it.
ghost use Rattle.std.specs.Prelude.{◌≡◌, ℕ, ◌<◌, ◌≤◌, [], ◌∷◌, ◌++◌, IfOk};
ghost use Rattle.turn_lock.specs.Seats.{view_of, IsFree};
ghost use Rattle.turn_lock_tests.specs.Seats.{IsSameSeat};
ghost use Rattle.turn_lock_tests.specs.Queues.{IsSeatAt};

use std::alloc::{AllocError, Global};
use std::collections::LinkedList;
use std::sync::Wait;
use std::thread::{Threads, join};
use turn_lock::{LockRefused, Seat, Story, TurnLock};

/// What a run works on.
pub trait Device {
    // How many faults it met. It stays as it is in a run.
    ghost count: { Self → ℕ };

    /// One use of the device.
    fn touch(&mut self)
        ensures { count self.new ≡ count self.old };
}

/// An entry: the task, and the number of the seat that marked it.
#[derive(Drop)]
pub struct Logged {
    pub seat: u32,
    pub task: u32,
}

/// No value of it is made.
pub struct RunName {
    pub count: u64,
    pub made: LinkedList<(u32, u64)>,
}

/// The shared state of a run.
#[derive(Drop)]
pub struct State<D> {
    pub device: D,
    pub tale: Vec<Logged>,
}

impl<D: Device> Story for State<D> {
    type Name = RunName;

    type Entry = Logged;

    ghost use Rattle.turn_lock_tests.specs.Runs.{name_of};

    ghost name = { λ s. name_of (D.count s.device) };

    ghost tale = { λ s. s.tale.items };

    ghost author = { λ e. e.seat };
}

/// A run whose state threads take turns with.
pub struct Queue<D: Device> {
    lock: TurnLock<State<D>>,
}

impl<D: Device> Queue<D> {
    ghost use Rattle.turn_lock.specs.Seats.{HasAllNumbers};
    ghost use Rattle.turn_lock.specs.Views.{first_view};
    ghost use Rattle.turn_lock_tests.specs.Runs.{name_of};
    ghost use Rattle.turn_lock_tests.specs.Queues.{IsSeatAt, queue_seats};

    /// A run over the device, and its first seat. `LockRefused` is want of memory.
    pub fn start(
        alloc: Global,
        device: D,
        seats: u32,
    ) -> Result<(Queue<D>, Seat<State<D>>), LockRefused<State<D>>>
        requires { (0 < seats) × (seats ≤ 64) }
        ensures queue { IfOk result (λ r. IsSeatAt r.0 r.1 × (queue_seats r.0 ≡ seats)) }
        ensures seat { IfOk result (λ r. IsFree r.1 × (view_of r.1 ≡ first_view (name_of (D.count device)) seats)) }
    {
        let state = State {
            device,
            tale: Vec::new(alloc),
        };
        let (lock, seat) = TurnLock::new(alloc, state, seats)?;
        Ok((Queue { lock }, seat))
    }

    /// One turn that uses the device and marks a task under the seat's number, unless memory is wanting.
    pub fn mark<R: Wait>(
        &self,
        rt: &R,
        seat: &mut Seat<State<D>>,
        task: u32,
    ) -> Result<(), AllocError>
        requires queue { IsSeatAt self.now seat.old }
        requires free { IsFree seat.old }
        ensures queue { IsSeatAt self.now seat.new }
        ensures free { IsFree seat.new }
        ensures same { IsSameSeat (view_of seat.old) (view_of seat.new) }
        ensures own { IfOk result (λ _. (view_of seat.new).own ≡ (view_of seat.old).own
            ++ record { seat = (view_of seat.old).number; task = task } ∷ []) }
    {
        let mut state = self.lock.begin(rt, seat);
        state.device.touch();
        let pushed = state.tale.push(Logged {
            seat: seat.number(),
            task,
        });
        self.lock.end(seat, state);
        pushed?;
        Ok(())
    }

    /// The state, once the seat has the numbers of all seats.
    pub fn finish(self, seat: Seat<State<D>>) -> State<D>
        requires queue { IsSeatAt self seat }
        requires free { IsFree seat }
        requires all { HasAllNumbers seat (queue_seats self) }
        ensures tale { result.tale.items ≡ (view_of seat).seen }
    {
        let Queue { lock } = self;
        lock.close(seat)
    }
}

// One turn, unless memory is wanting.
fn marked<D: Device, R: Wait>(
    rt: &R,
    queue: &Queue<D>,
    mut seat: Seat<State<D>>,
    task: u32,
) -> Seat<State<D>>
    requires queue { IsSeatAt queue.now seat }
    requires free { IsFree seat }
    ensures queue { IsSeatAt queue.now result }
    ensures free { IsFree result }
    ensures same { IsSameSeat (view_of seat) (view_of result) }
{
    let _ = queue.mark(rt, &mut seat, task);
    seat
}

/// Two threads mark a task each, and the state comes back.
pub fn mark_by_two<D: Device + Send, R: Threads + Wait + Sync>(
    rt: &R,
    alloc: Global,
    device: D,
) -> Result<State<D>, LockRefused<State<D>>> {
    let (queue, mut first) = Queue::start(alloc, device, 2)?;
    let second = queue.lock.split(&mut first);
    let (mut first, second) = join(
        rt,
        || marked(rt, &queue, first, 7),
        || marked(rt, &queue, second, 8),
    );
    queue.lock.join(&mut first, second);
    Ok(queue.finish(first))
}
