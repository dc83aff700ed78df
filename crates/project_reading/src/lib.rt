//! What every run and every mode reads first: the configuration and all recipes; and the status of each refusal of metadata.
//!
//! `answer_model` has the status that each refusal is answered as, with its place, kind and texts (`Said`), and the configuration and
//! the recipes over the files of the layers, or such a status (`Project`). The line that a status is printed with stands in
//! `bb_report`.
//!
//! Promised: `read_config` and `read_recipes` equal these definitions, and are refused with that status exactly where they refuse.
//! `ReadFault` comes only where the layers' count of faults rose in the call; want of memory alone is free. No file is changed.
//! `read_named` and `config_names` do the same of a configuration that has a name (`multi_config`), over the default one.
//! `value_status` and `graph_status` give the status of a refused value, and of a refusal of names, tasks and numbers of threads.
#![tactic(auto)]

mod configs;
mod graph_faults;
mod reads;
mod refused;
mod said;

pub use configs::{config_names, read_named};
pub use graph_faults::{graph_status, nothing_provides};
pub use reads::{or_status, read_config, read_recipes};
pub use said::{limit, metadata, named, value_status};
