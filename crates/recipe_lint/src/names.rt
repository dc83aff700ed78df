// The names that all files together set and refer to.

use crate::files::{Files, SourceFile, first_part};
use meta_model::{Statement, form_of};
use std::alloc::Global;
use std::collections::BTreeMap;
use tree_model::Mem;
use value_maps::{Names, put_name, put_value};

/// The names that are there without a file that sets them: those of the program, and those that a shell knows.
const BUILT_IN: &[&str] = &[
    "BBFILES",
    "BB_CURRENT_MC",
    "BB_DEFAULT_TASK",
    "BB_NUMBER_THREADS",
    "DEPSDIR",
    "FILE",
    "FILESDIR",
    "HOME",
    "IFS",
    "LAYERDIR",
    "LINENO",
    "OLDPWD",
    "OPTARG",
    "OPTIND",
    "PACKAGES",
    "PATH",
    "PN",
    "PPID",
    "PR",
    "PV",
    "PWD",
    "THISDIR",
    "TMPDIR",
    "TOPDIR",
    "WORKDIR",
];

/// Where a name is referred to first: the number of the file, and the line.
pub(crate) type Referred = BTreeMap<String, (usize, u32)>;

/// What all files say of names.
#[derive(Drop)]
pub(crate) struct Known {
    /// The names that are set somewhere.
    pub(crate) set: Names,
    /// The names that are referred to, each with the first place.
    pub(crate) referred: Referred,
    /// The names in whose values a form seeks words.
    pub(crate) asked: Names,
    /// The tasks that are taken away somewhere.
    pub(crate) dropped: Names,
}

/// Notes what stands between `${` and `}`: a form, by the name that it asks for, or a name that is referred to.
fn note_inside(
    known: &mut Known,
    alloc: Global,
    number: usize,
    line: u32,
    inside: &str,
) -> Result<(), Mem> {
    if let Some(form) = form_of(alloc, inside)? {
        return put_name(&mut known.asked, alloc, form.name.as_str());
    }
    if known.referred.get(inside).is_none() {
        put_value(&mut known.referred, alloc, inside, (number, line))?;
    }
    Ok(())
}

/// Notes the references and forms of a text. They are looked for behind each `${`, up to the next brace.
fn note_references(
    known: &mut Known,
    alloc: Global,
    number: usize,
    line: u32,
    text: &str,
) -> Result<(), Mem> {
    for piece in text.split("${").skip(1) {
        if let Some((inside, _)) = piece.split_once('}') {
            note_inside(known, alloc, number, line, inside)?;
        }
    }
    Ok(())
}

/// Notes the names that a shell gives something in a body: words that are a name alone, as those behind `read` and `for`, and those with
/// a `=` behind the name.
fn note_shell_names(known: &mut Known, alloc: Global, body: &str) -> Result<(), Mem> {
    for word in body.split_whitespace() {
        let name = match word.split_once('=') {
            Some((name, _)) => name,
            None => word.trim_end_matches(';'),
        };
        if is_capital_name(name) {
            put_name(&mut known.set, alloc, name)?;
        }
    }
    Ok(())
}

/// Notes what a statement says of names.
fn note_statement(
    known: &mut Known,
    alloc: Global,
    number: usize,
    line: u32,
    statement: &Statement,
) -> Result<(), Mem> {
    match statement {
        Statement::Assign { name, text, .. } => {
            put_name(&mut known.set, alloc, first_part(name.as_str()))?;
            note_references(known, alloc, number, line, name.as_str())?;
            note_references(known, alloc, number, line, text.as_str())
        }
        Statement::Flag { text, .. } => note_references(known, alloc, number, line, text.as_str()),
        Statement::Include { path } | Statement::Require { path } => {
            note_references(known, alloc, number, line, path.as_str())
        }
        Statement::Inherit { names } => {
            note_references(known, alloc, number, line, names.as_str())
        }
        Statement::Function { name, body } => {
            put_name(&mut known.set, alloc, first_part(name.as_str()))?;
            note_shell_names(known, alloc, body.as_str())?;
            note_references(known, alloc, number, line, body.as_str())
        }
        Statement::DelTask { names } => {
            for name in names.as_slice() {
                put_name(&mut known.dropped, alloc, name.as_str())?;
            }
            Ok(())
        }
        _ => Ok(()),
    }
}

/// Notes what the statements of a file say of names.
fn note_file(
    known: &mut Known,
    alloc: Global,
    number: usize,
    file: &SourceFile,
) -> Result<(), Mem> {
    for (line, statement) in file.statements.as_slice() {
        note_statement(known, alloc, number, *line, statement)?;
    }
    Ok(())
}

/// What all files say of names; the names in `set` are set besides.
pub(crate) fn known_of(alloc: Global, files: &Files, set: Names) -> Result<Known, Mem> {
    let mut known = Known {
        set,
        referred: BTreeMap::new(alloc),
        asked: BTreeMap::new(alloc),
        dropped: BTreeMap::new(alloc),
    };
    for name in BUILT_IN {
        put_name(&mut known.set, alloc, name)?;
    }
    for (number, file) in files.all().iter().enumerate() {
        note_file(&mut known, alloc, number, file)?;
    }
    Ok(known)
}

/// Whether a name is one that metadata alone is likely to have: capital letters, digits and underscores, a letter first, and more than one.
pub(crate) fn is_capital_name(name: &str) -> bool {
    let bytes = name.as_bytes();
    let begins = match bytes.first() {
        Some(first) => first.is_ascii_uppercase(),
        None => false,
    };
    begins
        && bytes.len() > 1
        && bytes.iter().all(|c| c.is_ascii_uppercase() || c.is_ascii_digit() || *c == b'_')
}
