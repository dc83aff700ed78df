//! What the lock's table keeps. Word 0 is the ticket that is served, word 1 the next one to be drawn, and the one slot has the story.
use crate::story::Story;
use atomic_table::{Table, TableRule};
use std::alloc::Global;
use std::collections::LinkedList;
use std::marker::PhantomData;
use std::snapshot::Snapshot;

/// The entries that were added under one number, in order.
pub struct Record<E> {
    pub number: u64,
    pub entries: LinkedList<E>,
}

/// Where a seat is in its calls.
pub enum Stage<E> {
    /// It has no ticket.
    Idle,
    /// It has drawn this ticket, and looks for its turn.
    Waiting(u64),
    /// It has the turn: its ticket, and the tale that went out.
    Holding(u64, LinkedList<E>),
    /// It has just taken another seat in: the shorter of the tales that the two had seen.
    Joining(LinkedList<E>),
}

/// What a seat knows. No value of it is made.
pub struct View<N, E> {
    /// False for a seat that another has taken in.
    pub live: bool,
    /// The story's name, as a list of one. It is empty where another seat took this one in.
    pub name: LinkedList<N>,
    /// The number under which this seat adds entries.
    pub number: u64,
    /// How many seats may still be split off. Their numbers are those that follow `number`.
    pub spare: u64,
    /// The tale as this seat saw it last.
    pub seen: LinkedList<E>,
    /// The entries of the seat's own record.
    pub own: LinkedList<E>,
    /// The records of the seats that it took in.
    pub others: LinkedList<Record<E>>,
    pub stage: Stage<E>,
}

/// What a lock is made for: the opening story, and the number of seats.
#[derive(Drop)]
pub struct Opening<S> {
    pub story: Snapshot<S>,
    pub seats: u32,
}

/// The rule of the table.
pub struct Turns;

impl<S: Story> TableRule<Option<S>, View<S::Name, S::Entry>, Opening<S>> for Turns {
    ghost use Rattle.turn_lock.specs.Kept.{Kept};
    ghost use Rattle.turn_lock.specs.Views.{first_view};

    ghost holds = { λ opening. Kept S.name S.tale S.author (S.name opening.story.value) opening.seats };

    ghost first = { λ opening. first_view (S.name opening.story.value) opening.seats };
}

/// The table of a lock.
pub type TurnTable<S> = Table<
    Option<S>,
    View<<S as Story>::Name, <S as Story>::Entry>,
    Opening<S>,
    Turns,
    Global,
>;

/// A seat's right to step on the table.
pub type Pass<S> = atomic_table::Seat<Option<S>, View<<S as Story>::Name, <S as Story>::Entry>>;
