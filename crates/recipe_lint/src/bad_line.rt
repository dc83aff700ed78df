// What a line looks like that is no statement.

use std::str;

/// The mark that some editors put in front of a text.
const BYTE_ORDER_MARK: &[u8] = &[0xef, 0xbb, 0xbf];

/// A line with those that are joined with it, as far as it is looked at.
#[derive(Clone, Copy)]
struct Joined<'a> {
    /// The first line of the join.
    first: &'a str,
    /// The last one, which is the first where none is joined.
    last: &'a str,
    /// The line behind the join.
    next: &'a str,
    /// How many double quotes stand in the join.
    doubles: usize,
    /// How many single quotes.
    singles: usize,
}

/// How often a byte stands in a text.
fn count_of(text: &str, sought: u8) -> usize {
    let mut count: usize = 0;
    for byte in text.as_bytes() {
        if *byte == sought {
            count = count.saturating_add(1);
        }
    }
    count
}

/// The line of a number, from 1, with those that are joined with it.
fn joined_at(text: &str, number: u32) -> Joined<'_> {
    let mut made = Joined {
        first: "",
        last: "",
        next: "",
        doubles: 0,
        singles: 0,
    };
    let mut goes_on = true;
    let mut is_first = true;
    for line in text.split('\n').skip(number.saturating_sub(1) as usize) {
        let line = line.trim_ascii_end();
        if !goes_on {
            made.next = line;
            return made;
        }
        if is_first {
            made.first = line;
        }
        is_first = false;
        made.last = line;
        made.doubles = made.doubles.saturating_add(count_of(line, b'"'));
        made.singles = made.singles.saturating_add(count_of(line, b'\''));
        goes_on = line.ends_with('\\');
    }
    made
}

/// What the text behind a value's last quote looks like.
fn tail_looks_like(tail: &str) -> &'static str {
    match tail.as_bytes().first() {
        None => "",
        Some(b'#') => "a comment stands behind the value: put it on a line above",
        Some(_) => "something stands behind the value's last quote",
    }
}

/// What a value looks like that stands behind an operator.
fn value_looks_like(value: &str, join: &Joined<'_>) -> &'static str {
    let (quotes, cut) = match value.as_bytes().first() {
        None => return "no value stands behind the operator: write \"\" for an empty one",
        Some(b'"') => (join.doubles, join.last.rsplit_once('"')),
        Some(b'\'') => (join.singles, join.last.rsplit_once('\'')),
        Some(_) => return "the value has no quotes around it",
    };
    if quotes < 2 {
        return "the quoted text has no end: it goes on in the next line behind a backslash alone";
    }
    match cut {
        Some((_, tail)) => tail_looks_like(tail.trim_ascii()),
        None => "the quoted text has no end: its last line has no quote",
    }
}

/// What the head of a function looks like; an empty text where the line is none.
fn function_looks_like(join: &Joined<'_>) -> &'static str {
    let Some((name, rest)) = join.first.split_once("()") else {
        return "";
    };
    if name.contains('=') || name.contains('"') {
        return "";
    }
    let rest = rest.trim_ascii();
    if rest.is_empty() && join.next.trim_ascii() == "{" {
        return "the brace of the function stands on the next line: write () { on one";
    }
    if rest.starts_with('{') && rest.ends_with('}') {
        return "the body of the function stands in one line: write each command on a line of its own, and } alone behind them";
    }
    ""
}

/// Whether the line begins with a word that stands in recipes and classes alone.
fn is_of_recipes(line: &str) -> bool {
    let word = match line.split_once(' ') {
        Some((word, _)) => word,
        None => line,
    };
    matches!(word, "addtask" | "deltask" | "inherit" | "EXPORT_FUNCTIONS") || line.ends_with("() {")
}

/// The mark behind which a here-document's text stands that a line begins, or an empty text.
fn mark_in(line: &str) -> &str {
    let Some((_, rest)) = line.split_once("<<") else {
        return "";
    };
    let rest = rest.trim_start_matches('-').trim_ascii_start();
    let end = match rest.split_once(' ') {
        Some((word, _)) => word,
        None => rest,
    };
    let mark = end.trim_matches('\'').trim_matches('"');
    match mark.as_bytes().first() {
        Some(first) if first.is_ascii_alphabetic() => mark,
        _ => "",
    }
}

/// Whether a function above the line of a number was ended inside a here-document, by a line that is `}` alone.
fn is_cut_short(text: &str, number: u32) -> bool {
    let mut in_body = false;
    let mut mark = "";
    let mut is_cut = false;
    for line in text.split('\n').take(number.saturating_sub(1) as usize) {
        let line = line.trim_ascii_end();
        if !in_body && line.ends_with("() {") {
            in_body = true;
            mark = "";
            is_cut = false;
        } else if in_body && line == "}" {
            in_body = false;
            is_cut = !mark.is_empty();
        } else if in_body && !mark.is_empty() && line.trim_ascii() == mark {
            mark = "";
        } else if in_body && mark.is_empty() {
            mark = mark_in(line);
        }
    }
    is_cut
}

/// What a line looks like by its own words.
fn line_looks_like(file: &str, join: &Joined<'_>) -> &'static str {
    if file.ends_with(".conf") && is_of_recipes(join.first) {
        return "it is one of recipes and classes, and this file is neither";
    }
    let function = function_looks_like(join);
    if !function.is_empty() {
        return function;
    }
    match join.first.split_once('=') {
        Some((name, _)) if name.ends_with("??") && name.contains(':') => {
            "??= doesn't go with :append, :prepend and :remove"
        }
        Some((_, value)) => {
            let value = value.strip_prefix('+').unwrap_or(value);
            let value = value.strip_prefix('.').unwrap_or(value);
            value_looks_like(value.trim_ascii(), join)
        }
        None => "",
    }
}

/// Which of the usual mistakes the line of a number, from 1, looks like that is no statement of a file: an empty text where it is none of
/// them. It takes no memory.
pub fn looks_like(file: &str, bytes: &[u8], number: u32) -> &'static str {
    if number == 1 && bytes.starts_with(BYTE_ORDER_MARK) {
        return "the file begins with a byte order mark: save it without one";
    }
    let Ok(text) = str::from_utf8(bytes) else {
        return "";
    };
    if is_cut_short(text, number) {
        return "a } alone ended the function above it inside a here-document: put a blank in front of that }";
    }
    line_looks_like(file, &joined_at(text, number))
}
