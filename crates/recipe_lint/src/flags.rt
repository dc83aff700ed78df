// The flags that something reads.

use crate::effects::{Effect, FLAGS, FRONTS, VARIABLES};
use crate::near::Near;
use std::alloc::Global;
use tree_model::Mem;

/// The flags of tasks alone.
const OF_TASKS: &[&str] = &[
    "cleandirs",
    "depends",
    "deptask",
    "dirs",
    "file-checksums",
    "noexec",
    "nostamp",
    "postfuncs",
    "prefuncs",
    "rdeptask",
    "recrdeptask",
    "sstate-inputdirs",
    "sstate-outputdirs",
];

/// The flags of all names.
const OF_ALL: &[&str] = &["export", "func", "vardeps", "vardepsexclude", "vardepvalue"];

/// Whether the flag is one that a task alone has.
pub(crate) fn is_of_tasks(flag: &str) -> bool {
    OF_TASKS.iter().any(|known| *known == flag)
}

/// Whether something reads the flag.
fn is_read(flag: &str) -> bool {
    is_of_tasks(flag) || OF_ALL.iter().any(|known| *known == flag)
}

/// The flag that was meant by one that nothing reads, or an empty text where there is none.
pub(crate) fn meant_flag(alloc: Global, flag: &str) -> Result<&'static str, Mem> {
    if is_read(flag) || effect_of_flag(flag).is_some() {
        return Ok("");
    }
    let mut near = Near::to(flag);
    for known in OF_TASKS {
        near.look(alloc, known)?;
    }
    for known in OF_ALL {
        near.look(alloc, known)?;
    }
    Ok(near.best())
}

/// The row of a variable that has no effect.
pub(crate) fn effect_of(name: &[u8]) -> Option<&'static Effect> {
    match VARIABLES.binary_search_by(|row| row.name.as_bytes().cmp(name)) {
        Ok(at) => VARIABLES.get(at),
        Err(_) => FRONTS
            .iter()
            .find(|row| name.starts_with(row.name.as_bytes())),
    }
}

/// The row of a flag that has no effect.
pub(crate) fn effect_of_flag(flag: &str) -> Option<&'static Effect> {
    FLAGS.iter().find(|row| row.name == flag)
}
