// What is wanted of a run, held against what came.
use crate::project::{Listing, Ran};
use crate::wrong::Wrong;
use std::alloc::Global;
use std::str;

/// What is wanted of a run.
#[derive(Drop)]
pub struct Wishes {
    pub status: Option<u8>,
    /// All that is printed, where that is said.
    pub text: Option<Vec<u8>>,
    /// Lines that are printed, and lines that aren't.
    pub lines: Vec<String>,
    pub no_lines: Vec<String>,
    /// How many lines begin with a text.
    pub counts: Vec<(usize, String)>,
    /// What stands below `work/`, where that is said.
    pub work: Option<Listing>,
}

impl Wishes {
    /// Nothing is said yet.
    pub fn new(alloc: Global) -> Wishes {
        Wishes {
            status: None,
            text: None,
            lines: Vec::new(alloc),
            no_lines: Vec::new(alloc),
            counts: Vec::new(alloc),
            work: None,
        }
    }

    /// Whether enough is said: a status, and what is printed.
    pub fn is_whole(&self) -> bool {
        self.status.is_some()
            && (self.text.is_some() || !self.lines.is_empty() || !self.counts.is_empty())
    }

    /// Holds what a run answered to what is wanted.
    pub fn judge(&self, alloc: Global, ran: &Ran) -> Result<(), Wrong> {
        let text = printed(ran.text.as_slice());
        if let Some(status) = self.status
            && status != ran.code
        {
            let code = ran.code;
            return Err(Wrong::Told(format!(in alloc;
                "the status is {code}, wanted {status}; the text is\n{text}"
            )?));
        }
        if let Some(wanted) = &self.text
            && wanted.as_slice() != ran.text.as_slice()
        {
            let wanted = printed(wanted.as_slice());
            return Err(Wrong::Told(format!(in alloc; "the text is\n{text}wanted\n{wanted}")?));
        }
        self.judge_lines(alloc, text)?;
        self.judge_counts(alloc, text)
    }

    fn judge_lines(&self, alloc: Global, text: &str) -> Result<(), Wrong> {
        for line in &self.lines {
            if !has_line(text, line.as_str()) {
                return Err(Wrong::Told(format!(in alloc;
                    "the text has no line {line}; it is\n{text}"
                )?));
            }
        }
        for line in &self.no_lines {
            if has_line(text, line.as_str()) {
                return Err(Wrong::Told(format!(in alloc;
                    "the text has a line {line}; it is\n{text}"
                )?));
            }
        }
        Ok(())
    }

    fn judge_counts(&self, alloc: Global, text: &str) -> Result<(), Wrong> {
        for (wanted, front) in &self.counts {
            let found = lines_with(text, front.as_str());
            if found != *wanted {
                return Err(Wrong::Told(format!(in alloc;
                    "{found} lines begin with {front}, wanted {wanted}; the text is\n{text}"
                )?));
            }
        }
        Ok(())
    }
}

/// How many lines of a text begin so.
fn lines_with(text: &str, front: &str) -> usize {
    text.split('\n').filter(|it| it.starts_with(front)).count()
}

/// Whether a text has a line.
fn has_line(text: &str, line: &str) -> bool {
    text.split('\n').any(|it| it == line)
}

/// What was printed, as text.
fn printed(bytes: &[u8]) -> &str {
    str::from_utf8(bytes).unwrap_or("(no text)\n")
}

/// Holds what stands below `work/` to what is wanted.
pub fn judge_work(alloc: Global, held: &Listing, wanted: &Listing) -> Result<(), Wrong> {
    let all = held.iter().all(|(path, what)| is_at(wanted, path.as_str(), what.as_slice()));
    if all && held.len() == wanted.len() {
        return Ok(());
    }
    let mut text = String::from_str(alloc, "below work/ stands\n")?;
    list(&mut text, held)?;
    text.push_str("wanted\n")?;
    list(&mut text, wanted)?;
    Err(Wrong::Told(text))
}

/// Whether just this stands at a path.
fn is_at(listing: &Listing, path: &str, what: &[u8]) -> bool {
    match listing.get(path) {
        Some(found) => found.as_slice() == what,
        None => false,
    }
}

/// Writes a listing out.
fn list(text: &mut String, listing: &Listing) -> Result<(), Wrong> {
    for (path, what) in listing.iter() {
        let what = printed(what.as_slice());
        writeln!(text, "{path}: {what}")?;
    }
    Ok(())
}
