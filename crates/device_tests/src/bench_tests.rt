// Benches in memory.
ghost use Rattle.tree_model.specs.Path.{IsClean};

use crate::samples::{named, only, tree_file, tree_files};
use outside_mem::{MemBench, Rule, ScriptTable};
use outside_traits::{Bench, BenchFault, Taken};
use std::alloc::Global;
use std::process::Abort;
use std::test::Fail;
use tree_model::{Bytes, Entry, Size, Text, Tree, TreeFault, is_clean};

/// `exit 3` fails, any other script with `echo` lays two files of 5 bytes over its work tree, and `mkdir` lays one in the
/// place of a folder. One call fails.
fn sample(alloc: Global, fail: u64) -> Result<ScriptTable, TreeFault> {
    let mut rules = Vec::new(alloc);
    rules.push(Rule {
        needle: Text::from_str(alloc, "exit 3")?,
        puts: Tree::empty(alloc),
        status: 3,
    })?;
    rules.push(Rule {
        needle: Text::from_str(alloc, "echo")?,
        puts: Tree::from_entries(tree_files(alloc, "hello.txt", "sub/more")?)?,
        status: 0,
    })?;
    let mut puts = Vec::new(alloc);
    puts.push(tree_file(alloc, "sub", "text\n")?)?;
    rules.push(Rule {
        needle: Text::from_str(alloc, "mkdir")?,
        puts: Tree::from_entries(puts)?,
        status: 0,
    })?;
    Ok(ScriptTable::new(alloc, rules, only(alloc, fail)?))
}

/// What a run of a script over one entry came to: the paths of its output, each with a blank; `status` and what the script
/// ended with, or `too large`.
fn run_over<B: Bench>(
    alloc: Global,
    bench: &mut B,
    path: &str,
    entry: &Entry,
    script: &str,
    bytes: u64,
) -> Result<Text, BenchFault>
    requires { IsClean path.now }
{
    bench.clear(alloc, "hello", "do_build")?;
    bench.put(alloc, path, entry)?;
    let status = bench.run(alloc, script)?;
    if status != 0 {
        return Ok(Text::from_str(alloc, "status")?);
    }
    let max = Size {
        entries: 3,
        largest: 65,
        bytes,
    };
    match bench.take(alloc, max)? {
        Taken::Tree(tree) => Ok(named(alloc, &tree)?),
        Taken::TooLarge => Ok(Text::from_str(alloc, "too large")?),
    }
}

/// The table lays its trees over what is laid under `work/`, and gives that where no rule applies.
#[test]
fn table_runs(rt: HostRuntime) -> Result<(), Fail> {
    let alloc = rt.alloc();
    let runs = [
        (
            "work/a",
            "echo hello > hello.txt",
            10,
            "a= hello.txt=text\n sub/more=text\n ",
        ),
        (
            "work/hello.txt",
            "echo",
            10,
            "hello.txt=text\n sub/more=text\n ",
        ),
        ("work/a", "echo hello > hello.txt", 9, "too large"),
        ("work/a", "echo before\nexit 3\n", 10, "status"),
        ("work/a", "true", 0, "a= "),
        ("files/a", "", 0, ""),
        (
            "deps/work/do_build/a",
            "echo",
            10,
            "hello.txt=text\n sub/more=text\n ",
        ),
        ("work/sub/b", "mkdir", 5, "sub=text\n "),
        ("work/sub-b", "mkdir", 5, "sub=text\n sub-b= "),
    ];
    for (path, script, bytes, want) in runs {
        assert_run(&rt, alloc, path, script, bytes, want)?;
    }
    Ok(())
}

/// One run of the table over an empty file.
fn assert_run<R: Abort>(
    rt: &R,
    alloc: Global,
    path: &str,
    script: &str,
    bytes: u64,
    want: &str,
) -> Result<(), Fail> {
    let mut table = sample(alloc, 0)?;
    let (path, entry) = tree_file(alloc, path, "")?;
    assert!(rt; is_clean(path.as_str()));
    let found = run_over(alloc, &mut table, path.as_str(), &entry, script, bytes)?;
    assert_eq!(rt; found.as_str(), want);
    Ok(())
}

/// Calls 1 to 4 are clear, put, run and take. After one of them failed, the next run is through.
#[test]
fn table_fails(rt: HostRuntime) -> Result<(), Fail> {
    let alloc = rt.alloc();
    let (path, entry) = tree_file(alloc, "work/a", "")?;
    assert!(rt; is_clean(path.as_str()));
    for which in 0..=5 {
        let mut table = sample(alloc, which)?;
        let first = run_over(alloc, &mut table, path.as_str(), &entry, "echo", 10);
        assert_eq!(rt; first.is_err(), 1 <= which && which <= 4);
        let second = run_over(alloc, &mut table, path.as_str(), &entry, "echo", 10);
        assert_eq!(rt; second.is_err(), which == 5);
    }
    Ok(())
}

/// The digests were made by Python's `hashlib` from the framed script and the manifest's bytes, which were written by hand.
#[test]
fn bench_gives_digests(rt: HostRuntime) -> Result<(), Fail> {
    let alloc = rt.alloc();
    let mut bench = MemBench::new(alloc);
    let (path, entry) = tree_file(alloc, "work/a", "")?;
    assert!(rt; is_clean(path.as_str()));
    let found = run_over(alloc, &mut bench, path.as_str(), &entry, "echo", 65)?;
    assert_eq!(rt;
        found.as_str(),
        "out=24d8fb92ff695fd083107d5ab7d63bb2717af53fbd4a0415402617d6a94c7eff\n "
    );
    let program = Entry::File {
        exec: true,
        bytes: Bytes::from_slice(alloc, b"text\n")?,
    };
    let found = run_over(alloc, &mut bench, path.as_str(), &program, "echo", 65)?;
    assert_eq!(rt;
        found.as_str(),
        "out=cac1336d349764845b83387933c9be314cb7d0a2ffa761e75dda7436771f673e\n "
    );
    let link = Entry::Link {
        target: Text::from_str(alloc, "a")?,
    };
    assert!(rt; is_clean("files/l"));
    let found = run_over(alloc, &mut bench, "files/l", &link, "", 65)?;
    assert_eq!(rt;
        found.as_str(),
        "out=9bab2632520d916f1e33b2054eb281b651072befc553abe3b1a2fa93b902490d\n "
    );
    let found = run_over(alloc, &mut bench, "files/l", &link, "", 64)?;
    assert_eq!(rt; found.as_str(), "too large");
    Ok(())
}
