// What the names of a store lead to, and the walk along them.
ghost use Rattle.std.specs.Prelude.{◌≡◌, ◌++◌, [], true, false, Some, IfOk, IfErr, OnOk, Ok, is_some, Result};
ghost use Rattle.std.specs.BTreeMap.{get_by_text};
ghost use Rattle.meta_model.specs.Refusal.{Refusal};
ghost use Rattle.meta_model.specs.Active.{find_in};
ghost use Rattle.meta_model.specs.declared.value.Resolved.{Resolved as Has};
ghost use Rattle.task_model.specs.Views.{is_bare};
ghost use Rattle.var_expand.specs.Faults.{IsFaultOf};
ghost use Rattle.task_model.specs.Keys.{Told, key_over, line_of, lines_of, names_led};
ghost use Rattle.name_walk.specs.Walk.{IsWalk, with_more};
ghost use Rattle.meta_model.specs.Text.{in_byte_order, is_in};
ghost use Rattle.var_deps.specs.Known.{IsKnown, IsLine, read_led, read_line};
ghost use Rattle.var_deps.specs.Reading.{view_by};
ghost use Rattle.var_deps.specs.Led.{led_of};
ghost use Rattle.var_deps.specs.Exports.{AreExports, starting_with};
ghost use Rattle.var_deps.specs.Leaders.{task_led};
ghost use Rattle.var_deps.specs.Kept.{IsReady, IsRight, IsSame, Shares, StaysSo, key_behind, one_line, shared_view, task_view};

use crate::asked::is_left_out;
use crate::exports::Exports;
use crate::led::{Led, all_of, push_all, without, words_of_flag};
use crate::line::{Known, Line, know};
use crate::seen::{Seen, flags_of};
use datastore::{copy_fault, put_value};
use meta_model::{Key, KeyLine, copy_value};
use name_walk::{Leading, holds, least_of, reach};
use std::alloc::Global;
use std::collections::BTreeMap;
use tree_model::{ListOf, Mem, Text, Texts};
use var_expand::ExpandFault;

/// What is known of the names of a store that aren't the task.
#[derive(Drop)]
pub(crate) struct Shared<'a> {
    pub(crate) seen: Seen<'a>,
    pub(crate) ignored: Texts,
    pub(crate) known: BTreeMap<String, Known>,
}

/// What is known for one task.
#[derive(Drop)]
pub(crate) struct Table<'a> {
    pub(crate) shared: Shared<'a>,
    pub(crate) task: Text,
    pub(crate) sstate: bool,
    pub(crate) own: Known,
}

impl Shared<'_> {
    /// Finds out about a name, and keeps it.
    fn learn(&mut self, alloc: Global, name: &str) -> Result<(), Mem>
        requires { IsRight self.old }
        ensures right { IsRight self.new }
        ensures same { IsSame self.old self.new }
        ensures known { OnOk result (is_some (get_by_text self.new.known name.now) ≡ true) }
    {
        let known = know(alloc, &self.seen, self.ignored.as_slice(), None, name)?;
        put_value(&mut self.known, alloc, name, known)
    }

    /// Sees the store as it is, or as a task does, from now on. What is kept for another sight is forgotten.
    fn look_as(&mut self, alloc: Global, task: Option<Text>)
        requires { IsRight self.old }
        ensures right { IsRight self.new }
        ensures task { self.new.seen.task ≡ task }
        ensures store { self.new.seen.store.now ≡ self.old.seen.store.now }
        ensures ignored { self.new.ignored ≡ self.old.ignored }
    {
        if task.is_some() || self.seen.task.is_some() {
            self.known = BTreeMap::new(alloc);
            self.seen.task = task;
        }
    }

    /// What is known of a task.
    fn know_task(&self, alloc: Global, task: &str, sstate: bool) -> Result<Known, Mem>
        ensures { IfOk result (λ made. IsKnown (view_by self.now.seen.store.now self.now.seen.task self.now.ignored
            sstate task.now) true task.now made) }
    {
        know(
            alloc,
            &self.seen,
            self.ignored.as_slice(),
            Some(sstate),
            task,
        )
    }
}

impl Leading for Shared<'_> {
    ghost use Rattle.var_deps.specs.Kept as kept;
    ghost use Rattle.var_deps.specs.Leaders as named;

    ghost led = { named.shared_led };

    ghost leaders = { named.shared_leaders };

    ghost IsReady = { kept.IsRight };

    ghost Stays = { kept.IsSame };

    ghost stays_itself = { named.same_itself };

    ghost stays_on = { named.same_on };

    ghost others = { named.no_others_shared };

    fn lead(&mut self, alloc: Global, name: &str, list: &mut Vec<Text>) -> Result<(), Mem> {
        if let Some(known) = self.known.get(name) {
            return push_all(list, known.led.as_slice());
        }
        self.learn(alloc, name)?;
        match self.known.get(name) {
            Some(known) => push_all(list, known.led.as_slice()),
            None => Ok(()),
        }
    }
}

impl Shared<'_> {
    /// Puts the line of a name at the end of a key, or tells why there is none.
    fn push_name(&mut self, alloc: Global, key: &mut Key, name: &Text) -> Result<(), ExpandFault>
        requires { IsRight self.old }
        ensures right { IsRight self.new }
        ensures same { IsSame self.old self.new }
        ensures ok { OnOk result (key_behind key.old (one_line (read_line (shared_view self.old) false name.now))
            ≡ Ok key.new) }
        ensures err { IfErr result (λ fault. IsFaultOf fault (read_line (shared_view self.old) false name.now)) }
    {
        if let Some(known) = self.known.get(name.as_str()) {
            return push_line(key, name, &known.line);
        }
        self.learn(alloc, name.as_str())?;
        match self.known.get(name.as_str()) {
            Some(known) => push_line(key, name, &known.line),
            None => Ok(()),
        }
    }
}

impl Leading for Table<'_> {
    ghost use Rattle.task_model.specs.Keys as keys;
    ghost use Rattle.var_deps.specs.Kept as kept;
    ghost use Rattle.var_deps.specs.Leaders as named;

    ghost led = { named.task_led };

    ghost leaders = { λ t. keys.leaders (kept.task_view t) };

    ghost IsReady = { kept.IsReady };

    ghost Stays = { kept.StaysSo };

    ghost stays_itself = { named.stays_itself };

    ghost stays_on = { named.stays_on };

    ghost others = { named.no_others };

    fn lead(&mut self, alloc: Global, name: &str, list: &mut Vec<Text>) -> Result<(), Mem> {
        if name == self.task.as_str() {
            return push_all(list, self.own.led.as_slice());
        }
        self.shared.lead(alloc, name, list)
    }
}

/// Puts the line of a name at the end of a key, or tells why there is none.
fn push_line(key: &mut Key, name: &Text, line: &Line) -> Result<(), ExpandFault>
    ensures ok { (meant : Result Told Refusal) → IsLine line.now name.now meant
        → OnOk result (key_behind key.old (one_line meant) ≡ Ok key.new) }
    ensures err { (meant : Result Told Refusal) → IsLine line.now name.now meant
        → IfErr result (λ fault. IsFaultOf fault meant) }
{
    match line {
        Line::Told { value, left_out } => {
            let value = copy_value(value.as_ref())?;
            key.lines.push(KeyLine {
                name: name.copy()?,
                value,
            })?;
            key.excluded = key.excluded || *left_out;
            Ok(())
        }
        Line::Refused(fault) => Err(copy_fault(fault)?),
    }
}

impl Table<'_> {
    /// Puts the line of a name at the end of a key, or tells why there is none.
    fn push_name(&mut self, alloc: Global, key: &mut Key, name: &Text) -> Result<(), ExpandFault>
        requires { IsReady self.old }
        ensures ready { IsReady self.new }
        ensures stays { StaysSo self.old self.new }
        ensures ok { OnOk result (key_behind key.old (one_line (line_of (task_view self.old) name.now)) ≡ Ok key.new) }
        ensures err { IfErr result (λ fault. IsFaultOf fault (line_of (task_view self.old) name.now)) }
    {
        if name.as_str() == self.task.as_str() {
            return push_line(key, name, &self.own.line);
        }
        self.shared.push_name(alloc, key, name)
    }

    /// The lines of the names of two lists, which are in byte order, in that order.
    fn lines(
        &mut self,
        alloc: Global,
        done: &[Text],
        more: &[Text],
        left_out: bool,
    ) -> Result<Key, ExpandFault>
        requires ready { IsReady self.old }
        requires done { in_byte_order done.now ≡ done.now }
        requires more { in_byte_order more.now ≡ more.now }
        ensures ready { IsReady self.new }
        ensures stays { StaysSo self.old self.new }
        ensures ok { IfOk result (λ made. key_behind (record { lines = []; excluded = left_out })
            (lines_of (task_view self.old) (with_more done.now more.now)) ≡ Ok made) }
        ensures err { IfErr result (λ fault. IsFaultOf fault
            (lines_of (task_view self.old) (with_more done.now more.now))) }
    {
        let mut key = Key {
            lines: ListOf::new(alloc),
            excluded: left_out,
        };
        let mut one = done;
        let mut other = more;
        while let Some((name, rest, others)) = least_of(one, other) {
            self.push_name(alloc, &mut key, name)?;
            one = rest;
            other = others;
        }
        Ok(key)
    }

    /// Turns to a task; bare is one whose own name counts as absent, `sstate` says whether it is one of the shared state.
    pub(crate) fn turn_to(
        &mut self,
        alloc: Global,
        task: &str,
        bare: bool,
        sstate: bool,
    ) -> Result<(), Mem>
        requires right { IsRight self.old.shared }
        requires seen { bare ≡ false → (found : Has) → (find_in self.old.shared.seen.store.now).at task.now
            ≡ Ok (Some found) → is_bare found ≡ false }
        ensures right { IsRight self.new.shared }
        ensures ready { OnOk result (IsReady self.new) }
        ensures task { OnOk result (self.new.task ≡ task.now) }
        ensures sstate { OnOk result (self.new.sstate ≡ sstate) }
        ensures store { self.new.shared.seen.store.now ≡ self.old.shared.seen.store.now }
        ensures ignored { self.new.shared.ignored ≡ self.old.shared.ignored }
    {
        let own_name = if bare {
            Some(Text::from_str(alloc, task)?)
        } else {
            None
        };
        self.shared.look_as(alloc, own_name);
        let name = Text::from_str(alloc, task)?;
        let own = self.shared.know_task(alloc, task, sstate)?;
        self.task = name;
        self.own = own;
        self.sstate = sstate;
        Ok(())
    }

    /// The names that the key starts with, but for exported ones.
    fn start(&self, alloc: Global) -> Result<Led, ExpandFault>
        ensures ok { IfOk result (λ made. starting_with (task_view self.now) [] ≡ Ok (led_of made)) }
        ensures err { IfErr result (λ fault. IsFaultOf fault (starting_with (task_view self.now) [])) }
    {
        let task = self.task.as_str();
        let flags = flags_of(self.shared.seen.store, task);
        let after = words_of_flag(alloc, &self.shared.seen, task, &flags, "postfuncs")?;
        let before = words_of_flag(alloc, &self.shared.seen, task, &flags, "prefuncs")?;
        let words = all_of(alloc, before.as_slice(), after.as_slice())?;
        let mut led = without(alloc, words, self.shared.ignored.as_slice(), &[])?;
        led.names.insert(0, self.task.copy()?)?;
        let left_out = is_left_out(alloc, self.task.as_str(), led.left_out)?;
        Ok(Led {
            names: led.names,
            left_out,
        })
    }

    /// Whether the task sees the store as it is, and its own texts can be read: then all that exported names lead to for others
    /// they lead to for it, too.
    fn shares(&self) -> bool
        requires { IsReady self.now }
        ensures { result ≡ true → Shares self.now }
    {
        match &self.own.line {
            Line::Told { .. } => self.shared.seen.task.is_none(),
            Line::Refused(_) => false,
        }
    }

    /// Begins the walk from names to be done, of which the task is one, and from the exported names: gives the names that it goes
    /// on from, and puts to be done what it has to do for them.
    fn begin<'e>(&self, exports: &'e Exports, todo: &mut Vec<Text>) -> Result<&'e [Text], Mem>
        requires ready { IsReady self.now }
        requires exports { AreExports self.now.shared.seen.store.now self.now.shared.ignored exports.now }
        requires task { is_in self.now.task todo.old.items ≡ true }
        ensures { IfOk result (λ done. IsWalk (task_led self.now)
            (todo.old.items ++ exports.now.start.names.items) done.now todo.new.items) }
    {
        if !self.shares() {
            push_all(todo, exports.start.names.as_slice())?;
            return Ok(&[]);
        }
        let done = exports.reached.as_slice();
        if holds(done, self.task.as_str()) {
            push_all(todo, self.own.led.as_slice())?;
        }
        Ok(done)
    }

    /// The key of the task.
    pub(crate) fn key(&mut self, alloc: Global, exports: &Exports) -> Result<Key, ExpandFault>
        requires ready { IsReady self.old }
        requires exports { AreExports self.old.shared.seen.store.now self.old.shared.ignored exports.now }
        ensures ready { IsReady self.new }
        ensures stays { StaysSo self.old self.new }
        ensures ok { IfOk result (λ made. key_over (task_view self.old) ≡ Ok made) }
        ensures err { IfErr result (λ fault. IsFaultOf fault (key_over (task_view self.old))) }
    {
        let mut start = self.start(alloc)?;
        let done = self.begin(exports, &mut start.names)?;
        let left_out = start.left_out || exports.start.left_out;
        let more = reach(alloc, self, done, start.names)?;
        self.lines(alloc, done, more.as_slice(), left_out)
    }
}
