// A text read as plain text, references and forms.
use meta_model::Form;
use tree_model::Text;

/// A part of a text.
#[derive(Debug, Drop)]
#[cycle(parts)]
pub enum Part {
    /// Plain text.
    Plain(Text),
    /// A reference, with the parts of its name.
    Ref(Parts),
    /// One of the two literal forms of Python.
    Call(Form),
}

/// The parts of a text, in order. Two plain parts may stand side by side; contracts see the bytes one by one
/// (`parts_in`).
#[derive(Debug, Drop)]
#[cycle(parts)]
pub struct Parts {
    /// The parts.
    pub list: Vec<Part>,
}
