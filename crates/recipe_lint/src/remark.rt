// Remarks, and how they are printed.

use crate::kind::RemarkKind;
use itoa::Buffer;
use std::alloc::Global;
use tree_model::{Mem, Text};

/// What is said of a line of the metadata. Remarks are ordered by file, line, kind and words.
#[derive(Debug, PartialEq, Eq, PartialOrd, Ord, Drop)]
pub struct Remark {
    /// The path of its file, from the project's folder.
    pub file: String,
    /// The number of its line, from 1.
    pub line: u32,
    /// What it is about.
    pub kind: RemarkKind,
    /// What is wrong, and what to do.
    pub words: String,
}

/// Puts the line of a remark at the end.
fn push_remark(made: &mut Text, remark: &Remark) -> Result<(), Mem> {
    made.push_str(remark.file.as_str())?;
    made.push_str(":")?;
    made.push_str(Buffer::new().format(remark.line))?;
    made.push_str(": ")?;
    made.push_str(remark.kind.name())?;
    made.push_str(": ")?;
    made.push_str(remark.words.as_str())?;
    made.push_str("\n")
}

/// The lines of remarks, each `FILE:LINE: KIND: WORDS`, in their order.
pub fn remarks_text(alloc: Global, remarks: &[Remark]) -> Result<Text, Mem> {
    let mut made = Text::new(alloc);
    for remark in remarks {
        push_remark(&mut made, remark)?;
    }
    Ok(made)
}
