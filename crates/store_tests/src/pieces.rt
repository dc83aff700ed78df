// Outputs of many files, which take several steps.
ghost use Rattle.std.specs.Prelude.{IfOk};
ghost use Rattle.store_tests.specs.Samples.{IsSample};

use crate::asked::{begin, empty, is_there, opened};
use crate::samples::{AGAIN, HELLO, MORE, Sample, Texts, file, sample_with};
use build_store::{Step, Store};
use outside_mem::MemDisk;
use std::alloc::Global;
use std::test::Fail;

/// A task of this signature, which is no task of the shared state, and gave 130 files, the first with this text.
fn many(alloc: Global, sig: Texts, text: &[u8]) -> Result<Sample, Fail>
    ensures { IfOk result (λ made. IsSample made.task made.sig made.tree) }
{
    let mut files = Vec::new(alloc);
    files.push(file(alloc, "a", text)?)?;
    for number in 0..129u32 {
        let path = format!(in alloc; "d/{number:03}")?;
        files.push(file(alloc, path.as_str(), b"text\n")?)?;
    }
    let mut sample = sample_with(alloc, sig, files)?;
    sample.task.sstate = false;
    Ok(sample)
}

/// What a step came to, as a letter; `?` where it was refused.
fn letter_of(alloc: Global, store: &mut Store<MemDisk>, sample: &Sample) -> char
    requires { IsSample sample.now.task sample.now.sig sample.now.tree }
{
    match store.publish_step(alloc, &sample.task, &sample.sig, true) {
        Ok(Step::NotOpen) => 'n',
        Ok(Step::More) => 'm',
        Ok(Step::Wait) => 'w',
        Ok(Step::Done(_)) => 'd',
        Err(_) => '?',
    }
}

/// Whether the next step of each of the two comes to this.
fn both_come_to(
    alloc: Global,
    store: &mut Store<MemDisk>,
    one: &Sample,
    other: &Sample,
    letter: char,
) -> bool
    requires one { IsSample one.now.task one.now.sig one.now.tree }
    requires other { IsSample other.now.task other.now.sig other.now.tree }
{
    letter_of(alloc, store, one) == letter && letter_of(alloc, store, other) == letter
}

/// Two outputs of 130 files stand half written at once. Each takes three steps for its files; then all is staged, the record is stored, the stamp is put, and the
/// last ticket ends.
#[test]
fn many_files_take_several_steps(rt: HostRuntime) -> Result<(), Fail> {
    let alloc = rt.alloc();
    let mut store = opened(alloc, empty(alloc)?)?;
    let one = many(alloc, HELLO, b"one\n")?;
    let other = many(alloc, MORE, b"other\n")?;
    assert!(rt; matches!(begin(alloc, &mut store, &one), Ok(true)));
    assert!(rt; matches!(begin(alloc, &mut store, &other), Ok(true)));
    for letter in ['m', 'm', 'm', 'w', 'w', 'w', 'd', 'n'] {
        assert!(rt; both_come_to(alloc, &mut store, &one, &other, letter));
    }
    assert!(rt; is_there(alloc, &mut store, &one));
    assert!(rt; is_there(alloc, &mut store, &other));
    Ok(())
}

/// How many calls of the disk a step makes.
fn calls_of_step(alloc: Global, store: &mut Store<MemDisk>, sample: &Sample) -> Option<u64>
    requires { IsSample sample.now.task sample.now.sig sample.now.tree }
{
    let before = store.moment();
    let letter = letter_of(alloc, store, sample);
    if letter == '?' || letter == 'n' {
        return None;
    }
    store.moment().checked_sub(before)
}

/// Of 130 files of which 129 are held, each is looked at and one is written: 64 reads and one write, 64 reads, and 2. Before that a step waits, without a
/// call, and one ends the ticket of the old stamp, removes it, and looks at three paths that may be in the work folder's way: 5 calls.
#[test]
fn one_of_many_files_is_written(rt: HostRuntime) -> Result<(), Fail> {
    let alloc = rt.alloc();
    let mut store = opened(alloc, empty(alloc)?)?;
    let first = many(alloc, HELLO, b"one\n")?;
    let again = many(alloc, AGAIN, b"two\n")?;
    assert!(rt; matches!(begin(alloc, &mut store, &first), Ok(true)));
    for _ in 0..7 {
        let _ = letter_of(alloc, &mut store, &first);
    }
    assert!(rt; is_there(alloc, &mut store, &first));
    assert!(rt; matches!(begin(alloc, &mut store, &again), Ok(true)));
    assert!(rt; calls_of_step(alloc, &mut store, &again) == Some(0));
    assert!(rt; calls_of_step(alloc, &mut store, &again) == Some(5));
    assert!(rt; calls_of_step(alloc, &mut store, &again) == Some(65));
    assert!(rt; calls_of_step(alloc, &mut store, &again) == Some(64));
    assert!(rt; calls_of_step(alloc, &mut store, &again) == Some(2));
    Ok(())
}
