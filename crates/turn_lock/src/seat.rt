//! A seat at a lock.
ghost use Rattle.std.specs.Prelude.{◌≡◌, ◌+◌, ◌<◌, true};

use crate::rule::Pass;
use crate::story::Story;

/// A place at a `TurnLock`, with a number of its own, which takes turns.
///
/// It can be dropped where the story can. Its numbers are lost then, so the lock can't be closed any more, but dropped. So join it in its place, and
/// drop none inside a turn, since its ticket is never given up.
#[derive(Drop)]
pub struct Seat<S: Story> {
    pub(crate) pass: Pass<S>,
    pub(crate) number: u32,
    pub(crate) spare: u32,
    ghost live: { pass.me.0.live ≡ true },
    ghost numbers: { (number ≡ pass.me.0.number) × (spare ≡ pass.me.0.spare) },
    ghost small: { number + spare < 64 },
}

impl<S: Story> Seat<S> {
    ghost use Rattle.std.specs.Prelude.{◌≡◌};
    ghost use Rattle.turn_lock.specs.Seats.{view_of};

    /// The number under which this seat adds entries, below the lock's number of seats.
    pub fn number(&self) -> u32
        ensures { result ≡ (view_of self.now).number }
    {
        self.number
    }

    /// How many seats can still be split off this one.
    pub fn spare(&self) -> u32
        ensures { result ≡ (view_of self.now).spare }
    {
        self.spare
    }
}
