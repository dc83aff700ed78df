// What a run is doing, and the line that says it.
use std::alloc::{AllocError, Global};
use std::mem;

/// What stands round the line: a terminal doesn't wrap it meanwhile (DECAWM), whatever its width, and takes away what stood behind it.
const HEAD: &str = "\r\x1b[?7l";

const TAIL: &str = "\x1b[K\x1b[?7h";

/// No more tasks than these are named.
const MOST_NAMED: usize = 8;

/// The most bytes of a line that are read; what a run writes is shorter, but for names.
const LONGEST: usize = 4096;

/// A task that runs, and since when.
#[derive(Drop)]
struct Running {
    name: String,
    since: u64,
}

/// What a run is doing, as far as its lines tell.
#[derive(Drop)]
pub(crate) struct Line {
    total: Option<String>,
    done: u32,
    running: Vec<Running>,
    begun: u64,

    /// The begin of a line whose end is still to come.
    piece: Vec<u8>,
}

impl Line {
    /// A run of which nothing is known, that began then, in microseconds.
    pub(crate) fn new(alloc: Global, begun: u64) -> Line {
        Line {
            total: None,
            done: 0,
            running: Vec::new(alloc),
            begun,
            piece: Vec::new(alloc),
        }
    }

    /// Learns from a piece of what is written. Want of memory leaves things untold.
    pub(crate) fn note(&mut self, alloc: Global, piece: &[u8], now: u64) {
        for byte in piece {
            if *byte == b'\n' {
                let begun = mem::replace(&mut self.piece, Vec::new(alloc));
                if let Ok(text) = str::from_utf8(begun.as_slice()) {
                    self.note_line(alloc, text, now);
                }
            } else if self.piece.len() < LONGEST {
                let _ = self.piece.push(*byte);
            }
        }
    }

    /// Learns from a line.
    fn note_line(&mut self, alloc: Global, text: &str, now: u64) {
        if let Some(task) = word_behind(text, "started ") {
            if let Ok(name) = String::from_str(alloc, task) {
                let _ = self.running.push(Running { name, since: now });
            }
        } else if let Some(total) = word_behind(text, "plan ") {
            self.total = String::from_str(alloc, total).ok();
        } else if let Some(task) = ended_task(text) {
            self.done = self.done.saturating_add(1);
            remove_task(&mut self.running, task);
        } else if let Some(task) = word_behind(text, "broke ") {
            remove_task(&mut self.running, task);
        }
    }

    /// The text that draws the line; none before there is a plan.
    pub(crate) fn text(&self, alloc: Global, now: u64) -> Result<Option<String>, AllocError> {
        let Some(total) = &self.total else {
            return Ok(None);
        };
        let mut text = String::from_str(alloc, HEAD)?;
        let seconds = now.saturating_sub(self.begun) / 1_000_000;
        put_counts(&mut text, self.done, total.as_str(), seconds)?;
        put_running(&mut text, &self.running, now)?;
        text.push_str(TAIL)?;
        Ok(Some(text))
    }
}

/// Puts how many tasks are done of how many, and the time.
fn put_counts(text: &mut String, done: u32, total: &str, seconds: u64) -> Result<(), AllocError> {
    write!(
        text,
        "[{done}/{total}] {}:{:02}",
        seconds / 60,
        seconds % 60
    )
}

/// Puts the tasks that run, each with its seconds.
fn put_running(text: &mut String, running: &[Running], now: u64) -> Result<(), AllocError> {
    let mut between = " ";
    for task in &running[..running.len().min(MOST_NAMED)] {
        write!(
            text,
            "{between}{} {} s",
            task.name.as_str(),
            now.saturating_sub(task.since) / 1_000_000
        )?;
        between = ", ";
    }
    match running.len().checked_sub(MOST_NAMED) {
        None | Some(0) => Ok(()),
        Some(more) => write!(text, ", {more} more"),
    }
}

/// The word behind these words at the front.
fn word_behind<'a>(text: &'a str, front: &str) -> Option<&'a str> {
    let rest = text.strip_prefix(front)?;
    rest.split(' ').next()
}

/// The task that a line says is done.
fn ended_task(text: &str) -> Option<&str> {
    for front in ["ended ", "failed ", "found ", "restored "] {
        if let Some(task) = word_behind(text, front) {
            return Some(task);
        }
    }
    None
}

/// Takes a task away.
fn remove_task(running: &mut Vec<Running>, task: &str) {
    running.retain(|one| one.name.as_str() != task);
}
