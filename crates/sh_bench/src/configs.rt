// Which configuration the tasks of a run are of, which is one thing for all benches of the run.
use std::sync::atomic::{AtomicUsize, Ordering};
use tree_model::Text;

/// The configurations that a run may build, and the one whose tasks run now. Before one is entered it is the default one.
#[derive(Drop)]
pub struct Configs {
    names: Vec<Text>,

    /// 0 for the default configuration, else one more than the place of the name.
    current: AtomicUsize,
}

impl Configs {
    /// Those of these names, beside the default one.
    pub fn of(names: Vec<Text>) -> Self {
        Configs {
            names,
            current: AtomicUsize::new(0),
        }
    }

    /// Says that what comes is of the configuration with this name. A name that isn't one of them changes nothing.
    pub fn enter(&self, name: &str) {
        for (at, other) in self.names.iter().enumerate() {
            if other.as_str() == name {
                self.current.store(at.saturating_add(1), Ordering::SeqCst);
                return;
            }
        }
    }

    /// The number of the configuration whose tasks run now, which each has for itself: 0 for the default one.
    pub(crate) fn number(&self) -> usize {
        self.current.load(Ordering::SeqCst)
    }

    /// The name of the configuration whose tasks run now; nothing for the default one.
    pub fn current(&self) -> &str {
        match self.number().checked_sub(1) {
            Some(at) => match self.names.get(at) {
                Some(name) => name.as_str(),
                None => "",
            },
            None => "",
        }
    }
}
