// The words that begin directives.

/// What a directive is for.
#[derive(Clone, Copy, PartialEq)]
pub enum Word {
    File,
    Remove,
    Disk,
    Disklink,
    Script,
    Puts,
    Links,
    Exit,
    Fail,
    Crash,
    Memory,
    Benches,
    Gate,
    Run,
    Status,
    Text,
    Line,
    Count,
    No,
    Work,
    Worklink,
}

impl Word {
    /// The directive of a line that begins with this word.
    pub fn of(text: &str) -> Option<Word> {
        match text {
            "file" => Some(Word::File),
            "remove" => Some(Word::Remove),
            "disk" => Some(Word::Disk),
            "disklink" => Some(Word::Disklink),
            "script" => Some(Word::Script),
            "puts" => Some(Word::Puts),
            "links" => Some(Word::Links),
            "exit" => Some(Word::Exit),
            "fail" => Some(Word::Fail),
            "crash" => Some(Word::Crash),
            "memory" => Some(Word::Memory),
            "benches" => Some(Word::Benches),
            "gate" => Some(Word::Gate),
            "run" => Some(Word::Run),
            _ => Word::of_wish(text),
        }
    }

    /// The directive that says what is wanted of a run.
    fn of_wish(text: &str) -> Option<Word> {
        match text {
            "status" => Some(Word::Status),
            "text" => Some(Word::Text),
            "line" => Some(Word::Line),
            "count" => Some(Word::Count),
            "no" => Some(Word::No),
            "work" => Some(Word::Work),
            "worklink" => Some(Word::Worklink),
            _ => None,
        }
    }

    /// Whether content may stand below it.
    pub fn has_content(self) -> bool {
        matches!(
            self,
            Word::File | Word::Disk | Word::Puts | Word::Text | Word::Work
        )
    }

    /// Whether it says what is wanted of the run before it.
    pub fn is_wish(self) -> bool {
        matches!(
            self,
            Word::Status
                | Word::Text
                | Word::Line
                | Word::Count
                | Word::No
                | Word::Work
                | Word::Worklink
        )
    }
}
