// The files that were read, with their statements.

use bb_parser::{ParseFault, ParseKind, Statements, parse};
use meta_model::{Kind, Statement, is_among};
use std::alloc::Global;
use std::collections::BTreeMap;
use tree_model::{Mem, Text, Texts};
use value_maps::{Names, put_name};

/// The most bytes of a file of metadata.
const MOST_BYTES: usize = 1_048_576;

/// A line of a file.
#[derive(Clone, Copy)]
pub(crate) struct Place<'a> {
    pub(crate) file: &'a str,
    pub(crate) line: u32,
}

/// A file that was read. Its tasks are those of the recipes that read it.
#[derive(Drop)]
pub(crate) struct SourceFile {
    pub(crate) path: Text,
    pub(crate) statements: Statements,
    pub(crate) keyed: Texts,
    pub(crate) tasks: Names,
    pub(crate) is_shared: bool,
}

/// A statement that is looked for.
#[derive(Clone, Copy)]
pub(crate) enum Sought<'a> {
    /// `addtask` of this task.
    Task(&'a str),
    /// An assignment to this flag of this name.
    Flag(&'a str, &'a str),
    /// An assignment to this name, whatever stands behind its first colon.
    Name(&'a str),
    /// `addtask` by which the first task comes after the second.
    Order(&'a str, &'a str),
}

/// All files that were read, each once; which of them the configuration is made of, and which were read since the last `begin`.
#[derive(Drop)]
pub(crate) struct Files {
    index: BTreeMap<String, usize>,
    list: Vec<SourceFile>,
    shared: Vec<usize>,
    reads: Vec<usize>,
}

/// The statements of a file; none of one that has a fault, which reading tells.
fn statements_in(alloc: Global, bytes: &[u8]) -> Result<Statements, Mem> {
    if bytes.len() > MOST_BYTES {
        return Ok(Statements::new(alloc));
    }
    // (a class may have every form of statement)
    match parse(alloc, Kind::Class, bytes) {
        Ok(statements) => Ok(statements),
        Err(
            ParseFault {
                line: _,
                kind: ParseKind::Memory,
            },
        ) => Err(Mem),
        Err(_) => Ok(Statements::new(alloc)),
    }
}

/// The names of assignments that hold a reference.
fn keyed_in(alloc: Global, statements: &[(u32, Statement)]) -> Result<Texts, Mem> {
    let mut made = Texts::new(alloc);
    for (_, statement) in statements {
        if let Statement::Assign { name, .. } = statement
            && name.as_str().contains("${")
        {
            made.push(name.copy()?)?;
        }
    }
    Ok(made)
}

/// The part of a name up to its first colon.
pub(crate) fn first_part(name: &str) -> &str {
    match name.split_once(':') {
        Some((first, _)) => first,
        None => name,
    }
}

/// Whether the statement is looked for.
fn is_sought(statement: &Statement, sought: Sought<'_>) -> bool {
    match sought {
        Sought::Task(task) => match statement {
            Statement::AddTask { names, .. } => is_among(task, names.as_slice()),
            _ => false,
        },
        Sought::Flag(of, asked) => match statement {
            Statement::Flag { name, flag, .. } => name.as_str() == of && flag.as_str() == asked,
            _ => false,
        },
        Sought::Name(asked) => match statement {
            Statement::Assign { name, .. } => first_part(name.as_str()) == asked,
            _ => false,
        },
        Sought::Order(later, earlier) => match statement {
            Statement::AddTask {
                names,
                after,
                before,
            } => {
                is_among(later, names.as_slice()) && is_among(earlier, after.as_slice())
                    || is_among(earlier, names.as_slice()) && is_among(later, before.as_slice())
            }
            _ => false,
        },
    }
}

impl SourceFile {
    /// The line of the last statement that is looked for.
    fn line_of(&self, sought: Sought<'_>) -> Option<u32> {
        let mut found = None;
        for (line, statement) in self.statements.as_slice() {
            if is_sought(statement, sought) {
                found = Some(*line);
            }
        }
        found
    }

    /// The line at which the file's statements begin.
    pub(crate) fn first_line(&self) -> u32 {
        match self.statements.as_slice().first() {
            Some((line, _)) => *line,
            None => 1,
        }
    }

    /// A line of the file.
    pub(crate) fn at(&self, line: u32) -> Place<'_> {
        Place {
            file: self.path.as_str(),
            line,
        }
    }
}

impl Files {
    /// No files yet.
    pub(crate) fn new(alloc: Global) -> Files {
        Files {
            index: BTreeMap::new(alloc),
            list: Vec::new(alloc),
            shared: Vec::new(alloc),
            reads: Vec::new(alloc),
        }
    }

    /// Takes a file that was read.
    pub(crate) fn note(&mut self, alloc: Global, path: &str, bytes: &[u8]) -> Result<(), Mem> {
        let number = match self.index.get(path) {
            Some(number) => *number,
            None => self.put(alloc, path, bytes)?,
        };
        self.reads.push(number)?;
        Ok(())
    }

    /// Puts a file at the end, and gives its number.
    fn put(&mut self, alloc: Global, path: &str, bytes: &[u8]) -> Result<usize, Mem> {
        let number = self.list.len();
        let statements = statements_in(alloc, bytes)?;
        let keyed = keyed_in(alloc, statements.as_slice())?;
        self.list.push(SourceFile {
            path: Text::from_str(alloc, path)?,
            statements,
            keyed,
            tasks: BTreeMap::new(alloc),
            is_shared: false,
        })?;
        self.index.insert(String::from_str(alloc, path)?, number)?;
        Ok(number)
    }

    /// The files that were read since the last call, which begin anew.
    pub(crate) fn begin(&mut self, alloc: Global) -> Vec<usize> {
        std::mem::replace(&mut self.reads, Vec::new(alloc))
    }

    /// The files that were read since the last `begin` are those of the configuration.
    pub(crate) fn share(&mut self, alloc: Global) {
        let reads = self.begin(alloc);
        for number in reads.iter() {
            if let Some(file) = self.list.get_mut(*number) {
                file.is_shared = true;
            }
        }
        self.shared = reads;
    }

    /// The recipe that read these files has this task.
    pub(crate) fn put_task(
        &mut self,
        alloc: Global,
        reads: &[usize],
        task: &str,
    ) -> Result<(), Mem> {
        for number in reads {
            if let Some(file) = self.list.get_mut(*number) {
                put_name(&mut file.tasks, alloc, task)?;
            }
        }
        Ok(())
    }

    /// All files, in the order in which they were read first.
    pub(crate) fn all(&self) -> &[SourceFile] {
        self.list.as_slice()
    }

    /// The numbers of the files of the configuration.
    pub(crate) fn shared(&self) -> &[usize] {
        self.shared.as_slice()
    }

    /// The file of a number.
    pub(crate) fn get(&self, number: usize) -> Option<&SourceFile> {
        self.list.get(number)
    }

    /// The file at a path.
    pub(crate) fn at_path(&self, path: &str) -> Option<&SourceFile> {
        match self.index.get(path) {
            Some(number) => self.list.get(*number),
            None => None,
        }
    }

    /// The line of the last statement that is looked for, in these files or else in those of the configuration.
    pub(crate) fn place_in(&self, reads: &[usize], sought: Sought<'_>) -> Option<Place<'_>> {
        match self.last_in(reads, sought) {
            Some(place) => Some(place),
            None => self.place_in_config(sought),
        }
    }

    /// The line of the last statement of the configuration that is looked for.
    pub(crate) fn place_in_config(&self, sought: Sought<'_>) -> Option<Place<'_>> {
        self.last_in(self.shared.as_slice(), sought)
    }

    /// The line of the last statement of these files that is looked for.
    fn last_in(&self, numbers: &[usize], sought: Sought<'_>) -> Option<Place<'_>> {
        let mut found = None;
        for number in numbers {
            if let Some(file) = self.list.get(*number)
                && let Some(line) = file.line_of(sought)
            {
                found = Some(file.at(line));
            }
        }
        found
    }
}
