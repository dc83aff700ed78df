//! Walks along names: from some names to all that come with them, directly or through others.
//!
//! What a name leads to is told by a `Leading`, which may keep what it has found out. `reach` goes on from names that are done
//! and names that are still to be done (`IsWalk`), and gives the names that the walk has done besides: both together are the
//! least set that holds the starting names and is closed under what names lead to, in byte order (`IsLeast` of `task_model`).
//! The names that were done are only read, so many walks go on from the same ones. `least_of` goes through two such lists in
//! byte order.
//!
//! Promised: each call returns, since finitely many names lead on, and fails for want of memory alone. Each name is asked once
//! what it leads to; each name that is led to costs one search in each of two lists in byte order.
#![tactic(auto)]

ghost use Rattle.std.specs.Prelude.{◌≡◌, ◌++◌, ◌∷◌, [], ℕ, List, false, IfOk, OnOk, MatchOption, length};
ghost use Rattle.std.specs.List.Sorted.{IsBinarySearchResult, IsSearchInRange};
ghost use Rattle.std.specs.Ordering.{nat_cmp};
ghost use Rattle.std.specs.Cmp.Lexicographic.{slice_cmp};
ghost use Rattle.meta_model.specs.Text.{is_in, in_byte_order};
ghost use Rattle.task_model.specs.Keys.{IsLeast};
ghost use Rattle.name_walk.specs.Walk.{IsWalk, done_after, todo_after, with_more};
ghost use Rattle.name_walk.specs.Firsts.{IsFirst};

use std::alloc::Global;
use std::cmp::Ordering;
use tree_model::{Mem, Text};

/// Tells what names lead to. Finitely many names lead on.
pub trait Leading {
    /// The names that a name leads to.
    ghost led: { Self → List ℕ → List (List ℕ) };

    /// Names among which are all that lead on.
    ghost leaders: { Self → List (List ℕ) };

    /// What is kept is right.
    ghost IsReady: { Self → Type 0 };

    /// All but what is kept is the same.
    ghost Stays: { Self → Self → Type 0 };

    /// Puts the names that a name leads to at the end of the list. What names lead to stays the same, whatever is kept of it.
    fn lead(&mut self, alloc: Global, name: &str, list: &mut Vec<Text>) -> Result<(), Mem>
        requires { IsReady self.old }
        ensures ready { IsReady self.new }
        ensures led { OnOk result (list.new.items ≡ list.old.items ++ led self.old name.now) }
        ensures same { led self.new ≡ led self.old }
        ensures leaders { leaders self.new ≡ leaders self.old }
        ensures stays { Stays self.old self.new };

    ghost stays_itself: { (s : Self) → Stays s s };

    ghost stays_on: { (a b c : Self) → Stays a b → Stays b c → Stays a c };

    ghost others: { (s : Self) (name : List ℕ) → IsReady s → is_in name (leaders s) ≡ false → led s name ≡ [] };
}

/// The place of a name among names in byte order, or else the place where it would stand.
pub fn place_of(names: &[Text], name: &str) -> Result<usize, usize>
    ensures range { IsSearchInRange result (length names.now) }
    ensures place { IsBinarySearchResult (λ y. slice_cmp nat_cmp y name.now) names.now result }
{
    names.binary_search_by(|other| other.as_str().cmp(name))
}

/// Whether a name is among names in byte order.
pub fn holds(names: &[Text], name: &str) -> bool
    requires { in_byte_order names.now ≡ names.now }
    ensures { result ≡ is_in name.now names.now }
{
    match place_of(names, name) {
        Ok(_) => true,
        Err(_) => false,
    }
}

/// A step: a name that is done already is passed over; another one is done, and what it leads to is to be done next.
fn step<L: Leading>(
    alloc: Global,
    from: &mut L,
    done: &mut Vec<Text>,
    todo: &mut Vec<Text>,
    name: Text,
) -> Result<(), Mem>
    requires ready { L.IsReady from.old }
    requires ordered { in_byte_order done.old.items ≡ done.old.items }
    ensures ready { L.IsReady from.new }
    ensures done { OnOk result (done.new.items ≡ done_after name done.old.items) }
    ensures todo { OnOk result (todo.new.items ≡ todo_after (L.led from.old) name done.old.items todo.old.items) }
    ensures same { L.led from.new ≡ L.led from.old }
    ensures leaders { L.leaders from.new ≡ L.leaders from.old }
    ensures stays { L.Stays from.old from.new }
{
    match place_of(done.as_slice(), name.as_str()) {
        Ok(_) => Ok(()),
        Err(place) => {
            from.lead(alloc, name.as_str(), todo)?;
            Ok(done.insert(place, name)?)
        }
    }
}

/// A step of a walk that goes on from names that are done: one of these is passed over, too.
fn step_on<L: Leading>(
    alloc: Global,
    from: &mut L,
    done: &[Text],
    more: &mut Vec<Text>,
    todo: &mut Vec<Text>,
    name: Text,
) -> Result<(), Mem>
    requires ready { L.IsReady from.old }
    requires begun { in_byte_order done.now ≡ done.now }
    requires ordered { in_byte_order more.old.items ≡ more.old.items }
    ensures ready { L.IsReady from.new }
    ensures ordered { OnOk result (in_byte_order more.new.items ≡ more.new.items) }
    ensures done { OnOk result (with_more done.now more.new.items
        ≡ done_after name (with_more done.now more.old.items)) }
    ensures todo { OnOk result (todo.new.items ≡ todo_after (L.led from.old) name (with_more done.now more.old.items)
        todo.old.items) }
    ensures same { L.led from.new ≡ L.led from.old }
    ensures leaders { L.leaders from.new ≡ L.leaders from.old }
    ensures stays { L.Stays from.old from.new }
{
    if holds(done, name.as_str()) {
        return Ok(());
    }
    step(alloc, from, more, todo, name)
}

/// The end of a walk that stands at these names, the ones done and the others to be done: the names that it does besides, in
/// byte order. With the ones that were done they are the starting names and all that these lead to, directly or through others.
/// A walk that hasn't begun has the starting names to be done.
pub fn reach<L: Leading>(
    alloc: Global,
    from: &mut L,
    done: &[Text],
    mut todo: Vec<Text>,
) -> Result<Vec<Text>, Mem>
    requires ready { L.IsReady from.old }
    requires begun { in_byte_order done.now ≡ done.now }
    ensures ready { L.IsReady from.new }
    ensures ordered { IfOk result (λ more. in_byte_order more.items ≡ more.items) }
    ensures least { (start : List (List ℕ)) → IsWalk (L.led from.old) start done.now todo.items
        → IfOk result (λ more. IsLeast (L.led from.old) start (with_more done.now more.items)) }
    ensures same { L.led from.new ≡ L.led from.old }
    ensures leaders { L.leaders from.new ≡ L.leaders from.old }
    ensures stays { L.Stays from.old from.new }
{
    let mut more = Vec::new(alloc);
    while let Some(name) = todo.pop() {
        step_on(alloc, from, done, &mut more, &mut todo, name)?;
    }
    Ok(more)
}

/// The first of the names of two lists, each of them in byte order, and what is left of both lists behind it. A name that
/// stands in both is one.
pub fn least_of<'a>(
    one: &'a [Text],
    other: &'a [Text],
) -> Option<(&'a Text, &'a [Text], &'a [Text])>
    requires one { in_byte_order one.now ≡ one.now }
    requires other { in_byte_order other.now ≡ other.now }
    ensures { MatchOption result (with_more one.now other.now ≡ [])
        (λ found. IsFirst one.now other.now found.0.now found.1.now found.2.now) }
{
    match one.split_first() {
        Some((first, rest)) => match other.split_first() {
            Some((second, others)) => match first.as_str().cmp(second.as_str()) {
                Ordering::Less => Some((first, rest, other)),
                Ordering::Equal => Some((first, rest, others)),
                Ordering::Greater => Some((second, one, others)),
            },
            None => Some((first, rest, other)),
        },
        None => match other.split_first() {
            Some((second, others)) => Some((second, one, others)),
            None => None,
        },
    }
}
