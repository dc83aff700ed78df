//! The language of recipes: its plain values, and the definitions of what its texts mean.
//!
//! The definitions stand in `specs/`, one file for each subject, over lists of bytes and the plain values of this crate;
//! the contracts of the crates that read metadata cite them. Four files of examples try them: each clause there is an
//! equation whose sides compute to the same. What is proved of the definitions for all texts and entries:
//!
//! - each file has statements or a first fault, one meaning alone, and never both (`one_meaning`);
//! - one more entry changes what all entries give by one step (`step_laws`);
//! - no entry that a statement adds has the operator `:=` (`entry_laws`);
//! - the parts of a text have that text, and no reading of it has more references and forms (`reading_laws`);
//! - the name under which a key tells what a form finds says its name and its words (`form_laws`);
//! - an expanded text has at most 1,048,576 bytes, and depends on nothing but what is found for each name
//!   (`expansion_laws`);
//! - the winning form of a name is a form, no other beats it, and there is one such form alone (`winning_laws`);
//! - a clean build has the tasks of its plan in their order, each over what was built before it; a task that needs nothing
//!   gives what its script makes of the empty tree; no output is beyond the limits (`build_laws`).
//!
//! Beside the language stand what the shell is given of a task (`Script`, as far as a run needs it so far), what is laid out
//! for the task (`Layout`), what a clean build gives (`CleanBuild`), and how a run ends; and over the facts of all recipes,
//! which one provides a name, which task needs which, and what the graph of a run's targets is (`Providers`, `Needs`,
//! `TaskGraph`).
//!
//! A few calls over texts stand here too, since crates that don't stand on one another make them: blanks at the ends of a
//! text, its words, what is one of a list, names of tasks, values between double quotes (`blanks`, `word_list`, `task_words`,
//! `quoting`).
//!
//! Which definition is right no proof can say: each one's comment states its rule, and the examples compare it with
//! answers that were derived from the rules by hand.
#![tactic(auto)]

mod blanks;
mod build_examples;
mod cuts;
mod entry;
mod event;
mod facts;
mod form;
mod form_examples;
mod grammar_examples;
mod graph_examples;
mod in_order;
mod laws;
mod line;
mod plan;
mod quoting;
mod statement;
mod task_words;
mod value;
mod value_examples;
mod word_list;

pub use blanks::{
    after_blanks, is_a_blank, is_white_space, kept_len, skipped, unblanked, white_at,
};
pub use cuts::{place_of, split_at};
pub use entry::{EntryLine, Late, LateLine, Op};
pub use event::{Avail, Cut, Event, Logged, Status, Why};
pub use facts::{FactSet, Graph, Node, Package, RecipeFacts, Target, TaskFacts, TaskId};
pub use form::{Form, FormKind, form_of, is_form, told_name};
pub use in_order::{in_byte_order, put_in_order};
pub use laws::{
    build_laws, entry_laws, expansion_laws, form_laws, one_meaning, reading_laws, step_laws,
    winning_laws,
};
pub use line::{Kind, Line, Place, SyntaxFault};
pub use plan::{MAX_OUTPUT_PATH, Options, Plan, PlanTask};
pub use quoting::{Quoting, push_escaped};
pub use statement::Statement;
pub use task_words::{are_name_bytes, is_shell_name, task_name};
pub use value::{Key, KeyLine, Resolved, copy_value};
pub use word_list::{
    as_texts, drop_words, is_among, push_piece, push_words, spaced, words, words_in,
};
