// Graphs of tasks.
use crate::shown::built;
use std::alloc::Global;
use std::process::Abort;
use std::test::Fail;
use tree_model::Mem;

/// Facts as a text, words of targets, and the graph that they have, as a text.
type Row = (&'static str, &'static str, &'static str);

/// The library `greet` and the application `app`, which names it in DEPENDS.
const BOTH: &str = "recipe app depends greet
task do_build after do_populate_sysroot
task do_compile after do_configure deptask do_populate_sysroot
task do_configure
task do_install after do_compile
task do_populate_sysroot after do_install
recipe greet
task do_build after do_populate_sysroot
task do_compile after do_configure deptask do_populate_sysroot
task do_configure
task do_install after do_compile
task do_populate_sysroot after do_install";

/// Asserts that facts and targets have the graph that is wanted.
fn expect_graph(rt: &impl Abort, alloc: Global, row: &Row) -> Result<(), Mem> {
    let shown = built(alloc, row.0, row.1)?;
    assert_eq!(rt; shown.as_str(), row.2);
    Ok(())
}

/// The same of each row.
fn expect_graphs(rt: &impl Abort, alloc: Global, rows: &[Row]) -> Result<(), Fail> {
    for row in rows {
        expect_graph(rt, alloc, row)?;
    }
    Ok(())
}

const LIBRARY_AND_APPLICATION: &[Row] = &[
    // reached are all tasks but `greet:do_build`
    (
        BOTH,
        "app:do_build",
        "0 app:do_configure; 0 greet:do_configure; 1 greet:do_compile 1; 2 greet:do_install 2; 3 greet:do_populate_sysroot 3; 4 app:do_compile 0 4; 5 app:do_install 5; 6 app:do_populate_sysroot 6; 7 app:do_build 7; targets 8",
    ),
    // two targets, of which one is reached from the other, and one twice
    (
        BOTH,
        "greet:do_compile greet:do_configure greet:do_compile",
        "0 greet:do_configure; 1 greet:do_compile 0; targets 1 0 1",
    ),
    (BOTH, "", "targets"),
];

#[test]
fn library_and_application(rt: HostRuntime) -> Result<(), Fail> {
    expect_graphs(&rt, rt.alloc(), LIBRARY_AND_APPLICATION)
}

const TASKS_OF_PROVIDERS: &[Row] = &[
    // without its middle task, which `deltask` took away with its orders, each end stands alone
    (
        "recipe x
task do_a
task do_c",
        "x:do_c x:do_a",
        "0 x:do_a; 0 x:do_c; targets 1 0",
    ),
    (
        "recipe a
task do_p depends virtual/b:do_q
recipe b provides virtual/b
task do_q",
        "a:do_p",
        "0 b:do_q; 1 a:do_p 0; targets 1",
    ),
    // each word of DEPENDS and of RDEPENDS, by flags of their own; a word twice is one dependency
    (
        "recipe a depends b c rdepends d b
task do_p deptask do_q do_q rdeptask do_r
recipe b
task do_q
task do_r
recipe c
task do_q
task do_r
recipe d
task do_q
task do_r",
        "a:do_p",
        "0 b:do_q; 0 b:do_r; 0 c:do_q; 0 d:do_r; 1 a:do_p 0 1 2 3; targets 4",
    ),
];

#[test]
fn tasks_of_providers(rt: HostRuntime) -> Result<(), Fail> {
    expect_graphs(&rt, rt.alloc(), TASKS_OF_PROVIDERS)
}

const RECIPES_THAT_NAME_EACH_OTHER: &[Row] = &[
    (
        "recipe a rdepends b
task do_all recrdeptask do_package
task do_package
recipe b rdepends a
task do_all recrdeptask do_package
task do_package",
        "a:do_all",
        "0 a:do_package; 0 b:do_package; 1 a:do_all 0 1; targets 2",
    ),
    // a task is no dependency of itself, though the flag names it
    (
        "recipe a rdepends b
task do_all recrdeptask do_all
recipe b depends c
task do_other
recipe c
task do_all",
        "a:do_all",
        "0 c:do_all; 1 a:do_all 0; targets 1",
    ),
];

#[test]
fn recipes_that_name_each_other(rt: HostRuntime) -> Result<(), Fail> {
    expect_graphs(&rt, rt.alloc(), RECIPES_THAT_NAME_EACH_OTHER)
}
