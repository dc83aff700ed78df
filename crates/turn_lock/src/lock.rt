//! The lock.
ghost use Rattle.std.specs.Prelude.{◌≡◌, ◌<◌, ◌≤◌, [], IfOk, IfErr};
ghost use Rattle.turn_lock.specs.Views.{Begins, HasEntries, HasNoOthers, Adds, records_of, tale_out, first_view, after_turn, split_from, split_off, joined};

use crate::rule::{Opening, TurnTable};
use crate::seat::Seat;
use crate::steps::{Draw, Look, Serve, SplitOff, TakeIn, Tell};
use crate::story::Story;
use atomic_table::{Refused, Table};
use std::alloc::{AllocFailed, Global};
use std::snapshot::Snapshot;
use std::sync::Wait;

/// The word that says which ticket is served. It and the next one count modulo 2^64, and are compared for equality alone.
const SERVING: usize = 0;

/// The word that says which ticket is drawn next.
const NEXT: usize = 1;

/// The slot of the story.
const STORY: usize = 0;

/// A lock that hands a story from turn to turn, shared by reference.
#[derive(Drop)]
pub struct TurnLock<S: Story> {
    table: TurnTable<S>,
    ghost sized: { (table.shared.table_id.words ≡ 2) × (table.shared.table_id.slots ≡ 1) },
}

/// There was no memory for the lock. The story comes back.
#[derive(Drop)]
pub struct LockRefused<S> {
    pub story: S,
}

impl<S: Story> TurnLock<S> {
    ghost use Rattle.turn_lock.specs.Seats.{view_of, seats_of, IsSeatOf, IsNamed, IsFree, HoldsTurn, TakesTurn, HasAllNumbers};

    /// A lock over the story, for 1 to 64 seats, and its first seat, from which the others are split off. The tale begins empty.
    pub fn new(
        alloc: Global,
        story: S,
        seats: u32,
    ) -> Result<(TurnLock<S>, Seat<S>), LockRefused<S>>
        requires seats { (0 < seats) × (seats ≤ 64) }
        requires tale { S.tale story ≡ [] }
        ensures lock { IfOk result (λ r. IsSeatOf r.0 r.1 × (seats_of r.0 ≡ seats)) }
        ensures seat { IfOk result (λ r. view_of r.1 ≡ first_view (S.name story) seats) }
        ensures free { IfOk result (λ r. IsFree r.1) }
        ensures refused { IfErr result (λ r. r.story ≡ story) }
    {
        let opening = Opening {
            story: Snapshot::of(&story),
            seats,
        };
        let mut slots = Vec::new(alloc);
        if let Err(failed) = slots.push(Some(story)) {
            let AllocFailed { value } = failed;
            slots.destroy_empty();
            return Err(LockRefused {
                story: value.unwrap(),
            });
        }
        match Table::new(alloc, &[0, 0], slots, &opening) {
            Ok((table, pass)) => Ok((
                TurnLock { table },
                Seat {
                    pass,
                    number: 0,
                    spare: seats - 1,
                },
            )),
            Err(Refused { mut slots }) => {
                let story = slots.pop().unwrap().unwrap();
                slots.destroy_empty();
                Err(LockRefused { story })
            }
        }
    }

    /// Waits for the seat's turn, and takes the story out. `end` has to bring it back before another seat gets a turn.
    pub fn begin<R: Wait>(&self, rt: &R, seat: &mut Seat<S>) -> S
        requires lock { IsSeatOf self.now seat.old }
        requires free { IsFree seat.old }
        ensures lock { IsSeatOf self.now seat.new }
        ensures turn { TakesTurn seat.old seat.new (S.tale result) }
        ensures name { IsNamed seat.old (S.name result) }
        ensures seen { Begins (S.tale result) (view_of seat.old).seen }
        ensures records { HasEntries S.author (records_of (view_of seat.old)) (S.tale result) }
    {
        let shared = &self.table.shared;
        let ticket = shared.fetch_add::<Draw>(&mut seat.pass, NEXT, 1);
        for _ in rt.forever() {
            let serving = shared.load::<Look>(&mut seat.pass, SERVING);
            if serving == ticket {
                return shared.exchange(&mut seat.pass, STORY, None).unwrap();
            }
            // `park` returns at once where the low half of the word is another by now.
            shared.park(rt, SERVING, (serving % (1 << 32)) as u32);
        }
        unreachable!()
    }

    /// Ends the seat's turn, and brings the story back. Its tale has grown by entries under the seat's number alone.
    pub fn end(&self, seat: &mut Seat<S>, story: S)
        requires lock { IsSeatOf self.now seat.old }
        requires turn { HoldsTurn seat.old }
        requires name { IsNamed seat.old (S.name story) }
        requires tale { Adds S.author (view_of seat.old) (S.tale story) }
        ensures lock { IsSeatOf self.now seat.new }
        ensures seat { view_of seat.new ≡ after_turn (view_of seat.old) (tale_out (view_of seat.old)) (S.tale story) }
        ensures free { IsFree seat.new }
    {
        let shared = &self.table.shared;
        let left = shared.exchange(&mut seat.pass, STORY, Some(story));
        let None = left else { unreachable!() };
        let served = shared.fetch_add::<Serve>(&mut seat.pass, SERVING, 1);
        self.wake_waiting(served);
    }

    // Wakes the seats that wait. Where the next ticket to be drawn is the one that is served now, none is out, and the call of the system is saved.
    fn wake_waiting(&self, served: u64) {
        let shared = &self.table.shared;
        if shared.peek(NEXT) != served.wrapping_add(1) {
            shared.wake_all(SERVING);
        }
    }

    /// A new seat, which has the last of the seat's spare numbers, and has seen what the seat has seen.
    pub fn split(&self, seat: &mut Seat<S>) -> Seat<S>
        requires lock { IsSeatOf self.now seat.old }
        requires free { IsFree seat.old }
        requires spare { 0 < (view_of seat.old).spare }
        ensures lock { IsSeatOf self.now seat.new × IsSeatOf self.now result }
        ensures seat { view_of seat.new ≡ split_from (view_of seat.old) }
        ensures new { view_of result ≡ split_off (view_of seat.old) }
        ensures free { IsFree seat.new × IsFree result }
    {
        let number = seat.number + seat.spare;
        let pass = self.table.shared.split_seat::<SplitOff>(&mut seat.pass);
        seat.spare -= 1;
        Seat {
            pass,
            number,
            spare: 0,
        }
    }

    /// The seat takes the other in, with its records. It has then seen the longer of the two tales, which begins with both.
    pub fn join(&self, seat: &mut Seat<S>, other: Seat<S>)
        requires lock { IsSeatOf self.now seat.old × IsSeatOf self.now other }
        requires free { IsFree seat.old × IsFree other }
        requires spare { (view_of other).spare ≡ 0 }
        ensures lock { IsSeatOf self.now seat.new }
        ensures seat { view_of seat.new ≡ joined (view_of seat.old) (view_of other) }
        ensures seen { Begins (view_of seat.new).seen (view_of seat.old).seen
            × Begins (view_of seat.new).seen (view_of other).seen }
        ensures free { IsFree seat.new }
    {
        let Seat {
            pass,
            number: _,
            spare: _,
        } = other;
        let shared = &self.table.shared;
        shared.join_seat::<TakeIn>(&mut seat.pass, pass);
        shared.load::<Tell>(&mut seat.pass, SERVING);
    }

    /// The story, once the seat has the numbers of all seats: those of its records, and the spare ones that it never split off.
    pub fn close(self, seat: Seat<S>) -> S
        requires lock { IsSeatOf self seat }
        requires free { IsFree seat }
        requires all { HasAllNumbers seat (seats_of self) }
        ensures name { IsNamed seat (S.name result) }
        ensures seen { S.tale result ≡ (view_of seat).seen }
        ensures records { HasEntries S.author (records_of (view_of seat)) (S.tale result) }
        ensures others { HasNoOthers S.author (records_of (view_of seat)) (S.tale result) }
    {
        let TurnLock { table } = self;
        let Seat {
            pass,
            number: _,
            spare: _,
        } = seat;
        let mut closed = table.close_with(pass);
        let story = closed.take(STORY).unwrap();
        closed.free();
        story
    }
}
