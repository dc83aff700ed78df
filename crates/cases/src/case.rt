// A case, directive by directive.
use crate::escapes::{unescaped, unescaped_text};
use crate::judge::{Wishes, judge_work};
use crate::project::{Crash, Listing, Project, Ran, shown};
use crate::words::Word;
use crate::wrong::Wrong;
use std::alloc::Global;
use std::collections::BTreeMap;
use std::sync::Wait;
use std::thread::Threads;
use tree_model::{Bytes, Entry, Text};

/// What stands behind the path of an executable file.
const EXEC: &str = " exec";

/// A directive, with the rest of its line and its content.
#[derive(Drop)]
struct Directive {
    word: Word,
    rest: String,
    content: Vec<u8>,
}

/// A case as it runs.
#[derive(Drop)]
struct Case {
    project: Project,
    /// The directive that was read last, which may get more content.
    open: Option<Directive>,
    /// The run before, and what is wanted of it.
    ran: Option<Ran>,
    wishes: Wishes,
    /// What has to stand below `work/`.
    work: Listing,
    runs: u64,
}

/// Runs a case, or says what went otherwise and where.
pub fn run_case<R: Threads + Wait + Sync>(rt: &R, alloc: Global, text: &str) -> Result<(), Wrong> {
    let mut case = Case {
        project: Project::new(alloc),
        open: None,
        ran: None,
        wishes: Wishes::new(alloc),
        work: BTreeMap::new(alloc),
        runs: 0,
    };
    let mut number: u64 = 0;
    for line in text.split('\n') {
        number = number.saturating_add(1);
        if let Err(wrong) = case.take_line(rt, alloc, number, line) {
            return Err(case.placed(alloc, number, wrong)?);
        }
    }
    match case.finish(rt, alloc) {
        Ok(()) => Ok(()),
        Err(wrong) => Err(case.placed(alloc, number, wrong)?),
    }
}

impl Case {
    /// What is wrong, with its place.
    fn placed(&self, alloc: Global, line: u64, wrong: Wrong) -> Result<Wrong, Wrong> {
        let runs = self.runs;
        match wrong {
            Wrong::Memory => Ok(Wrong::Memory),
            Wrong::Says(why) => Ok(Wrong::Told(format!(in alloc;
                "run {runs}, before line {line}: {why}"
            )?)),
            Wrong::Told(why) => Ok(Wrong::Told(format!(in alloc;
                "run {runs}, before line {line}: {why}"
            )?)),
        }
    }

    /// The next line: content, or a directive, which ends the one before.
    fn take_line<R: Threads + Wait + Sync>(
        &mut self,
        rt: &R,
        alloc: Global,
        number: u64,
        line: &str,
    ) -> Result<(), Wrong> {
        if number == 1 {
            return is_title(line);
        }
        if let Some(rest) = line.strip_prefix('|') {
            self.add_content(rest.as_bytes())?;
            return self.add_content(b"\n");
        }
        if let Some(rest) = line.strip_prefix('+') {
            let bytes = unescaped(alloc, rest)?;
            return self.add_content(bytes.as_slice());
        }
        if line.is_empty() || line.starts_with('#') {
            return Ok(());
        }
        self.close(rt, alloc)?;
        self.open = Some(directive_of(alloc, line)?);
        Ok(())
    }

    fn add_content(&mut self, more: &[u8]) -> Result<(), Wrong> {
        match &mut self.open {
            Some(open) if open.word.has_content() => {
                open.content.extend_from_slice(more)?;
                Ok(())
            }
            _ => Err(Wrong::Says("content without a directive")),
        }
    }

    /// Does what the open directive says, which has all its content now.
    fn close<R: Threads + Wait + Sync>(&mut self, rt: &R, alloc: Global) -> Result<(), Wrong> {
        match self.open.take() {
            Some(open) if open.word.is_wish() => self.wish(alloc, open),
            Some(open) => {
                self.judge(alloc)?;
                self.prepare(rt, alloc, open)
            }
            None => Ok(()),
        }
    }

    /// The end of the case.
    fn finish<R: Threads + Wait + Sync>(&mut self, rt: &R, alloc: Global) -> Result<(), Wrong> {
        self.close(rt, alloc)?;
        self.judge(alloc)?;
        if self.runs == 0 {
            return Err(Wrong::Says("nothing is run"));
        }
        Ok(())
    }

    /// Holds the run before, if there is one, to what is wanted of it.
    fn judge(&mut self, alloc: Global) -> Result<(), Wrong> {
        let Some(ran) = self.ran.take() else {
            return Ok(());
        };
        if !self.wishes.is_whole() {
            return Err(Wrong::Says("the run has no status, or neither a text nor a line"));
        }
        self.wishes.judge(alloc, &ran)?;
        if let Some(work) = self.wishes.work.take() {
            self.work = work;
        }
        judge_work(alloc, &self.project.work(alloc)?, &self.work)
    }

    /// A directive before a run, and the run.
    fn prepare<R: Threads + Wait + Sync>(
        &mut self,
        rt: &R,
        alloc: Global,
        it: Directive,
    ) -> Result<(), Wrong> {
        match it.word {
            Word::File => {
                let path = unescaped_text(alloc, it.rest.as_str())?;
                self.project.put_file(path, it.content)
            }
            Word::Remove => {
                let path = unescaped_text(alloc, it.rest.as_str())?;
                self.project.remove_file(path.as_str())
            }
            Word::Disk | Word::Disklink => self.hold(alloc, it),
            Word::Fail => self.fail(it.rest.as_str()),
            Word::Crash => self.crash(it.rest.as_str()),
            Word::Memory => Ok(()),
            Word::Benches => {
                self.project.benches = number_of(it.rest.as_str())?;
                Ok(())
            }
            Word::Gate => {
                self.project.gate = Some(u64::from(number_of(it.rest.as_str())?));
                Ok(())
            }
            Word::Run => self.run(rt, alloc, it.rest.as_str()),
            _ => self.add_rule(alloc, it),
        }
    }

    /// A directive on what scripts do.
    fn add_rule(&mut self, alloc: Global, it: Directive) -> Result<(), Wrong> {
        match it.word {
            Word::Script => {
                let needle = unescaped_text(alloc, it.rest.as_str())?;
                self.project.add_script(alloc, needle)
            }
            Word::Puts => {
                let (path, entry) = file_of(alloc, it)?;
                self.project.add_output(alloc, path.as_str(), entry)
            }
            Word::Links => {
                let (path, entry) = link_of(alloc, it.rest.as_str())?;
                self.project.add_output(alloc, path.as_str(), entry)
            }
            _ => self.project.set_exit(number_of(it.rest.as_str())?),
        }
    }

    /// A file or a link that the disk holds. What stands below `work/` has to stand there after the next run too.
    fn hold(&mut self, alloc: Global, it: Directive) -> Result<(), Wrong> {
        let (path, entry) = match it.word {
            Word::Disklink => link_of(alloc, it.rest.as_str())?,
            _ => file_of(alloc, it)?,
        };
        self.project.hold(alloc, path.as_str(), entry)?;
        self.work = self.project.work(alloc)?;
        Ok(())
    }

    /// Has a call of a device fail in the next run.
    fn fail(&mut self, rest: &str) -> Result<(), Wrong> {
        let fails = &mut self.project.fails;
        match rest.split_once(' ') {
            Some(("layers", number)) => fails.layers = u64::from(number_of(number)?),
            Some(("disk", number)) => fails.disk = u64::from(number_of(number)?),
            Some(("bench", number)) => fails.bench = u64::from(number_of(number)?),
            Some(("workers", number)) => fails.workers = u64::from(number_of(number)?),
            Some(("sink", number)) => fails.sink = u64::from(number_of(number)?),
            _ => return Err(Wrong::Says("there is no such device")),
        }
        Ok(())
    }

    /// Ends the next run at a call of the disk. What a crash may have left then is held from then on: of that the one with this number.
    fn crash(&mut self, rest: &str) -> Result<(), Wrong> {
        match rest.split_once(' ') {
            Some((calls, image)) => {
                self.project.crash = Some(Crash {
                    calls: u64::from(number_of(calls)?),
                    image: u64::from(number_of(image)?),
                });
                Ok(())
            }
            None => Err(Wrong::Says("a crash has two numbers")),
        }
    }

    /// Runs the program with these words.
    fn run<R: Threads + Wait + Sync>(
        &mut self,
        rt: &R,
        alloc: Global,
        rest: &str,
    ) -> Result<(), Wrong> {
        self.runs = self.runs.saturating_add(1);
        self.wishes = Wishes::new(alloc);
        let mut words = Vec::new(alloc);
        for word in rest.split(' ') {
            if !word.is_empty() {
                words.push(Text::from_string(unescaped_text(alloc, word)?))?;
            }
        }
        self.ran = Some(self.project.run(rt, alloc, &words)?);
        Ok(())
    }

    /// A directive on what is wanted of the run before.
    fn wish(&mut self, alloc: Global, it: Directive) -> Result<(), Wrong> {
        if self.ran.is_none() {
            return Err(Wrong::Says("there is no run before it"));
        }
        match it.word {
            Word::Status => {
                let status = number_of(it.rest.as_str())?;
                self.wishes.status = Some(u8::try_from(status).unwrap_or(255));
                Ok(())
            }
            Word::Text => {
                self.wishes.text = Some(it.content);
                Ok(())
            }
            Word::Line => {
                self.wishes
                    .lines
                    .push(unescaped_text(alloc, it.rest.as_str())?)?;
                Ok(())
            }
            Word::Count => self.wish_count(alloc, it.rest.as_str()),
            Word::No => self.wish_no(alloc, it.rest.as_str()),
            _ => self.wish_work(alloc, it),
        }
    }

    fn wish_count(&mut self, alloc: Global, rest: &str) -> Result<(), Wrong> {
        match rest.split_once(' ') {
            Some((number, front)) => {
                let front = unescaped_text(alloc, front)?;
                self.wishes
                    .counts
                    .push((number_of(number)? as usize, front))?;
                Ok(())
            }
            None => Err(Wrong::Says("a count is a number and how lines begin")),
        }
    }

    fn wish_no(&mut self, alloc: Global, rest: &str) -> Result<(), Wrong> {
        match rest.strip_prefix("line ") {
            Some(line) => {
                self.wishes.no_lines.push(unescaped_text(alloc, line)?)?;
                Ok(())
            }
            None => Err(Wrong::Says("'no' is followed by 'line'")),
        }
    }

    /// What stands below `work/` after the run.
    fn wish_work(&mut self, alloc: Global, it: Directive) -> Result<(), Wrong> {
        let mut work = match self.wishes.work.take() {
            Some(work) => work,
            None => BTreeMap::new(alloc),
        };
        if it.word == Word::Worklink {
            let (path, entry) = link_of(alloc, it.rest.as_str())?;
            let _ = work.insert(path, shown(alloc, &entry)?)?;
        } else if it.rest.as_str() != "nothing" {
            let (path, entry) = file_of(alloc, it)?;
            let _ = work.insert(path, shown(alloc, &entry)?)?;
        }
        self.wishes.work = Some(work);
        Ok(())
    }
}

/// Whether a first line says something.
fn is_title(line: &str) -> Result<(), Wrong> {
    if line.is_empty() || line.starts_with('|') || line.starts_with('+') || line.starts_with('#') {
        return Err(Wrong::Says("the first line doesn't say what the case shows"));
    }
    Ok(())
}

/// The directive of a line.
fn directive_of(alloc: Global, line: &str) -> Result<Directive, Wrong> {
    let (word, rest) = line.split_once(' ').unwrap_or((line, ""));
    match Word::of(word) {
        Some(word) => Ok(Directive {
            word,
            rest: String::from_str(alloc, rest)?,
            content: Vec::new(alloc),
        }),
        None => Err(Wrong::Told(format!(in alloc; "there is no directive {word}")?)),
    }
}

/// The path that a directive with content names, with escapes.
fn path_of(rest: &str) -> &str {
    match rest.strip_suffix(EXEC) {
        Some(path) => path,
        None => rest,
    }
}

/// The path and the file of a directive with content.
fn file_of(alloc: Global, it: Directive) -> Result<(String, Entry), Wrong> {
    let rest = it.rest.as_str();
    let exec = rest.ends_with(EXEC);
    let path = unescaped_text(alloc, path_of(rest))?;
    let bytes = Bytes::from_vec(it.content);
    Ok((path, Entry::File { exec, bytes }))
}

/// The path and the link of a directive.
fn link_of(alloc: Global, rest: &str) -> Result<(String, Entry), Wrong> {
    match rest.split_once(' ') {
        Some((path, target)) => {
            let path = unescaped_text(alloc, path)?;
            let target = Text::from_string(unescaped_text(alloc, target)?);
            Ok((path, Entry::Link { target }))
        }
        None => Err(Wrong::Says("a link has no target")),
    }
}

/// A number of a directive.
fn number_of(text: &str) -> Result<u32, Wrong> {
    match text.parse::<u32>() {
        Ok(number) => Ok(number),
        Err(_) => Err(Wrong::Says("there is no number where one belongs")),
    }
}
