//! What each step on the table tells its caller (`specs/Steps.antt`).
ghost use Rattle.turn_lock.specs.Steps.{drawn, looked, served, told, joining, taken_in};
ghost use Rattle.turn_lock.specs.Views.{split_from, split_off};

use crate::rule::View;
use crate::story::Story;
use atomic_table::{Join, Play, Split};

/// A fetch_add on the next ticket: the seat has drawn it.
pub struct Draw;

impl<S: Story> Play<Option<S>, View<S::Name, S::Entry>> for Draw {
    ghost then = { drawn };
}

/// A load of the ticket that is served: where it is the seat's, the seat takes the slot.
pub struct Look;

impl<S: Story> Play<Option<S>, View<S::Name, S::Entry>> for Look {
    ghost then = { looked S.name S.tale S.author };
}

/// A fetch_add on the ticket that is served: the seat gives the slot back, and its ticket up.
pub struct Serve;

impl<S: Story> Play<Option<S>, View<S::Name, S::Entry>> for Serve {
    ghost then = { served S.tale };
}

/// A load by a seat that has just taken another in: what each had seen begins what it has seen now.
pub struct Tell;

impl<S: Story> Play<Option<S>, View<S::Name, S::Entry>> for Tell {
    ghost then = { told };
}

/// The first seat gives one of its spare numbers to a new one.
pub struct SplitOff;

impl<N, E> Split<View<N, E>> for SplitOff {
    ghost left = { split_from };

    ghost right = { split_off };
}

/// The first seat takes the second one in.
pub struct TakeIn;

impl<N, E> Join<View<N, E>> for TakeIn {
    ghost both = { joining };

    ghost spent = { taken_in };
}
