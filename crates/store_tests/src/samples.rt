// Tasks with their signatures and outputs.
ghost use Rattle.std.specs.Prelude.{◌≡◌, ◌≤◌, All, IfOk, IsTrue, length};
ghost use Rattle.store_model.specs.Spelled.{IsSpelled};
ghost use Rattle.store_opening.specs.Paths.{IsOnePart};
ghost use Rattle.build_store.specs.View.{IsSignatureOf};
ghost use Rattle.store_tests.specs.Samples.{HasSigPlace, IsSample};

use meta_model::{Key, PlanTask, TaskId};
use sig_gen::decode;
use std::alloc::Global;
use std::test::Fail;
use store_model::{SigRecord, SigText};
use tree_model::{Bytes, Entry, ListOf, Mem, Text, Tree};

/// The short text of a signature, and its key.
pub type Texts = (&'static [u8], &'static [u8]);

/// A signature: one task's body, no files, nothing needed.
pub const HELLO: Texts = (
    b"6:bbsig2,5:hello,8:do_build,64:43e50bb16432119eca694814ac2085a3cc481e21c1568579ed352fb3bb91c2cb,0;0;",
    b"1;8:do_build,+27:    echo hello > hello.txt\n,0;1;4:func,1:1,",
);

/// Another one of that task.
pub const AGAIN: Texts = (
    b"6:bbsig2,5:hello,8:do_build,64:f1ab6b1fa3e07be02cdd3816ad1c1c0f6a540c262e4c805f208a901850e5dde0,0;0;",
    b"0;",
);

/// And a third one.
pub const ANEW: Texts = (
    b"6:bbsig2,5:hello,8:do_build,64:d6c06e8e6df7906ba96e515dfb3beb4b1faead98e8525279bb761d1b516bb233,0;0;",
    b"1;1:x,-",
);

/// That of a task of the same recipe.
pub const MORE: Texts = (
    b"6:bbsig2,5:hello,7:do_more,64:f1ab6b1fa3e07be02cdd3816ad1c1c0f6a540c262e4c805f208a901850e5dde0,0;0;",
    b"0;",
);

/// The whole text of a signature.
pub fn text_of(alloc: Global, texts: Texts) -> Result<SigText, Fail> {
    let mut short = Vec::new(alloc);
    short.extend_from_slice(texts.0)?;
    Ok(SigText::new(short, texts.1)?)
}

/// A task, its signature, and what it gave.
#[derive(Drop)]
pub struct Sample {
    pub task: PlanTask,
    pub sig: SigRecord,
    pub tree: Tree,
}

/// A file.
pub fn file(alloc: Global, path: &str, bytes: &[u8]) -> Result<(Text, Entry), Mem> {
    let path = Text::from_str(alloc, path)?;
    let bytes = Bytes::from_slice(alloc, bytes)?;
    Ok((path, Entry::File { exec: false, bytes }))
}

/// Whether the text is this one.
fn is_text(text: &Text, one: &str) -> bool
    requires { IsOnePart one.now }
    ensures { IsTrue result → IsOnePart text.now }
{
    text.as_str() == one
}

/// Whether the signature is of one of the samples' tasks.
fn has_place(sig: &SigRecord) -> bool
    ensures { IsTrue result → HasSigPlace sig.now }
{
    is_text(&sig.pn, "hello") && (is_text(&sig.task, "do_build") || is_text(&sig.task, "do_more"))
}

/// Whether no path of the tree is long.
fn are_short(tree: &Tree) -> bool
    ensures { IsTrue result → All (λ e. length e.0 ≤ 3072) tree.now }
{
    tree.entries()
        .iter()
        .all(|entry| entry.0.as_str().len() <= 3072)
}

/// A task of the signature's PN and name, whose output is kept as a shared state object.
fn task_of(alloc: Global, sig: &SigRecord) -> Result<PlanTask, Mem>
    ensures { IfOk result (λ task. IsSignatureOf task sig.now) }
{
    Ok(PlanTask {
        id: TaskId {
            mc: Text::new(alloc),
            pn: sig.pn.copy()?,
            task: sig.task.copy()?,
        },
        deps: ListOf::new(alloc),
        depth: 0,
        key: Key {
            lines: ListOf::new(alloc),
            excluded: false,
        },
        files: Tree::empty(alloc),
        script: Text::new(alloc),
        nostamp: false,
        sstate: true,
        places: ListOf::new(alloc),
    })
}

/// A sample of a signature and a tree.
fn sample_of(alloc: Global, sig: SigRecord, tree: Tree) -> Result<Sample, Fail>
    requires { IsSpelled sig }
    ensures { IfOk result (λ made. IsSample made.task made.sig made.tree) }
{
    if !has_place(&sig) || !are_short(&tree) {
        return Err(Fail::from("no sample"));
    }
    let task = task_of(alloc, &sig)?;
    Ok(Sample { task, sig, tree })
}

/// A task of this signature, which gave one file.
pub fn sample_from(alloc: Global, sig: Texts, path: &str, text: &[u8]) -> Result<Sample, Fail>
    ensures { IfOk result (λ made. IsSample made.task made.sig made.tree) }
{
    let mut files = Vec::new(alloc);
    files.push(file(alloc, path, text)?)?;
    sample_with(alloc, sig, files)
}

/// A task of this signature, which gave these files.
pub fn sample_with(alloc: Global, sig: Texts, files: Vec<(Text, Entry)>) -> Result<Sample, Fail>
    ensures { IfOk result (λ made. IsSample made.task made.sig made.tree) }
{
    let tree = Tree::from_entries(files)?;
    match decode(alloc, &text_of(alloc, sig)?) {
        Ok(sig) => sample_of(alloc, sig, tree),
        Err(_) => Err(Fail::from("no signature")),
    }
}
