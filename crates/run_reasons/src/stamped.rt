// A sink that keeps what stood in the stamp of each task as it was started, since a run writes others.
use outside_traits::{Sink, SinkFault};
use sh_bench::Configs;
use std::alloc::{AllocError, Global};
use std::{fs, io, mem};

/// The most bytes of a line that are read, and the bytes of a stamp.
const LONGEST: usize = 4096;

const STAMP: u64 = 65;

/// A task that was started, and the name of the record that its stamp had then, where there was one.
#[derive(Drop)]
pub struct Stamp {
    /// The task, as it is printed.
    pub task: String,

    /// The record's name.
    pub record: Option<String>,
}

/// A run whose plan was printed: the folder of its configuration's store, and how many tasks had been started before.
#[derive(Drop)]
pub struct Planned {
    /// The folder, from the current one.
    pub store: String,

    /// How many tasks runs before had started.
    pub first_stamp: usize,
}

/// A sink that keeps the stamps of tasks whose start is written to it, and says which configuration's tasks run. It tells what the sink below tells.
#[derive(Drop)]
pub struct Stamped<'c, S> {
    /// The sink below.
    pub inner: S,

    /// What was seen of what it took.
    seen: Seen<'c>,
}

/// What was seen of what a sink took.
#[derive(Drop)]
struct Seen<'c> {
    rt: HostRuntime,
    configs: &'c Configs,
    line: Vec<u8>,
    stamps: Vec<Stamp>,
    planned: Vec<Planned>,
}

/// The folder of the store of a configuration, which has no name where it is the default one.
fn store_of(alloc: Global, config: &str) -> Result<String, AllocError> {
    if config.is_empty() {
        return String::from_str(alloc, "build");
    }
    format!(in alloc; "build/mc/{config}")
}

/// The name of the record in the stamp of a task in a store, where there is a stamp.
pub(crate) fn stamp_of(
    rt: &HostRuntime,
    store: &str,
    pn: &str,
    task: &str,
) -> io::Result<Option<String>> {
    let path = format!(in rt.alloc(); "{store}/stamp/{pn}/{task}")?;
    match fs::symlink_metadata(rt, path.as_str()) {
        Ok(there) if there.is_file() && there.len() == STAMP => {}
        _ => return Ok(None),
    }
    let text = fs::read_to_string(rt, path.as_str())?;
    match text.as_str().strip_suffix('\n') {
        Some(name) if name.bytes().all(|byte| byte.is_ascii_hexdigit()) => {
            Ok(Some(String::from_str(rt.alloc(), name)?))
        }
        _ => Ok(None),
    }
}

impl<'c, S> Stamped<'c, S> {
    /// A sink to which nothing was written so far.
    pub fn new(alloc: Global, inner: S, rt: HostRuntime, configs: &'c Configs) -> Stamped<'c, S> {
        Stamped {
            inner,
            seen: Seen {
                rt,
                configs,
                line: Vec::new(alloc),
                stamps: Vec::new(alloc),
                planned: Vec::new(alloc),
            },
        }
    }

    /// The tasks that were started, in order.
    pub fn stamps(&self) -> &[Stamp] {
        self.seen.stamps.as_slice()
    }

    /// The runs whose plans were printed, in order.
    pub fn planned(&self) -> &[Planned] {
        self.seen.planned.as_slice()
    }
}

impl<'c> Seen<'c> {
    /// Keeps the stamp of a task that is started. Want of memory leaves it untold.
    fn note_started(&mut self, task: &str) {
        let alloc = self.rt.alloc();
        let Some((pn, name)) = task.split_once(':') else {
            return;
        };
        let Ok(store) = store_of(alloc, self.configs.current()) else {
            return;
        };
        let record = stamp_of(&self.rt, store.as_str(), pn, name).unwrap_or_default();
        if let Ok(task) = String::from_str(alloc, task) {
            let _ = self.stamps.push(Stamp { task, record });
        }
    }

    /// Keeps that a plan was printed.
    fn note_planned(&mut self) {
        if let Ok(store) = store_of(self.rt.alloc(), self.configs.current()) {
            let _ = self.planned.push(Planned {
                store,
                first_stamp: self.stamps.len(),
            });
        }
    }

    /// Learns from a line.
    fn note_line(&mut self, line: &[u8]) {
        let Ok(text) = str::from_utf8(line) else {
            return;
        };
        if let Some(task) = text.strip_prefix("started ") {
            self.note_started(task);
        } else if text.starts_with("plan ") {
            self.note_planned();
        } else if let Some(config) = text.strip_prefix("mc ") {
            self.configs.enter(config);
        }
    }

    /// Learns from a piece of what is written.
    fn note_piece(&mut self, piece: &[u8]) {
        for byte in piece {
            if *byte == b'\n' {
                let whole = mem::replace(&mut self.line, Vec::new(self.rt.alloc()));
                self.note_line(whole.as_slice());
            } else if self.line.len() < LONGEST {
                let _ = self.line.push(*byte);
            }
        }
    }
}

impl<'c, S: Sink> Sink for Stamped<'c, S> {
    ghost tells = { S.tells };

    ghost written = { λ t. S.written t.inner };

    ghost faults = { λ t. S.faults t.inner };

    fn write(&mut self, piece: &[u8]) -> Result<usize, SinkFault> {
        let taken = self.inner.write(piece)?;
        self.seen.note_piece(&piece[..taken]);
        Ok(taken)
    }
}
