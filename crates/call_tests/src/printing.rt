// Statements that are written and read again.
use bb_parser::{PrintFault, parse, print};
use meta_model::{Kind, Op, Statement};
use std::alloc::Global;
use std::process::Abort;
use std::test::Fail;
use tree_model::{Mem, Text, Texts};

/// A file, and its statements as they are written.
type Row = (&'static [u8], &'static [u8]);

/// Puts a statement at the end, as it is written.
fn put_written(alloc: Global, all: &mut Vec<u8>, statement: &Statement) -> Result<(), Fail> {
    let text = print(alloc, statement)?;
    Ok(all.extend_from_slice(text.as_str().as_bytes())?)
}

/// The statements of a class of these bytes, each as it is written.
fn written_again(rt: &impl Abort, alloc: Global, bytes: &[u8]) -> Result<Vec<u8>, Fail> {
    assert!(rt; bytes.len() < 1_000_000);
    let list = parse(alloc, Kind::Class, bytes)?;
    let mut all = Vec::new(alloc);
    for (_, statement) in list.as_slice() {
        put_written(alloc, &mut all, statement)?;
    }
    Ok(all)
}

/// Asserts that the statements of a class of these bytes are written so.
fn expect_written(rt: &impl Abort, alloc: Global, bytes: &[u8], want: &[u8]) -> Result<(), Fail> {
    let again = written_again(rt, alloc, bytes)?;
    assert_eq!(rt; again.as_slice(), want);
    Ok(())
}

/// The same of each row.
fn expect_rows(rt: &impl Abort, alloc: Global, rows: &[Row]) -> Result<(), Fail> {
    for (bytes, want) in rows {
        expect_written(rt, alloc, bytes, want)?;
    }
    Ok(())
}

/// Each statement is written as its line stands here.
#[test]
fn statements_of_the_worked_rows(rt: HostRuntime) -> Result<(), Fail> {
    let files: &[&'static [u8]] = &[
        b"A = \"1\"\nA:append = \"2\"\nA:append = \"3\"\nA += \"4\"\nA .= \"5\"\n",
        b"W ??= \"x\"\nA := \"${W}\"\nW ??= \"y\"\nB := \"${W}\"\nC = \"${W}\"\nW ?= \"i\"\nW += \"y\"\nW:append = \"y\"\n",
        b"T = \"123\"\nA := \"test ${T}\"\nT = \"456\"\nB := \"${T} ${C}\"\nC = \"cval\"\nC := \"${C}append\"\n",
        b"FOO = \"123 456 789 123456 123 456 123 456\"\nFOO:remove = \"123\"\nFOO:remove = \"456\"\n",
        b"OVERRIDES = \"foo\"\nA = \"Z\"\nA:foo:append = \"X\"\nA:append:foo = \"X\"\nV:b = \"2\"\nV:a:b = \"3\"\nOVERRIDES = \"${X}\"\n",
        b"X = \"pre ${NONE}\"\nX = \"${Y}\"\nY = \"${X}\"\n",
        b"RDEPENDS:${PN} = \"x\"\nRDEPENDS:foo = \"y\"\nRDEPENDS:${PN}:append = \" z\"\n",
        b"include no.inc\nrequire no.inc\ninherit nosuch\n",
        b"addtask do_a after do_b\naddtask do_b after do_a\n",
        b"do_gen() {\n    echo 1 > n.txt\n    # note\n}\ndo_build() {\n    cat n.txt > m.txt\n}\naddtask do_gen\naddtask do_build after do_gen\n",
    ];
    for bytes in files {
        expect_written(&rt, rt.alloc(), bytes, bytes)?;
    }
    Ok(())
}

/// Quotes, and names with their operators.
#[test]
fn quotes_and_names(rt: HostRuntime) -> Result<(), Fail> {
    let rows: &[Row] = &[
        (b"  A=\"x\"", b"A = \"x\"\n"),
        (b"A = 'x'", b"A = \"x\"\n"),
        // exactly one double quote stands in the text
        (b"A = 'a\"b'", b"A = 'a\"b'\n"),
        (b"A = 'a\"b\"c'", b"A = \"a\"b\"c\"\n"),
        (b"A = 'a\"b'c'd'", b"A = 'a\"b'c'd'\n"),
        // the blank keeps the name from the operator
        (b"A+ = \"x\"", b"A+ = \"x\"\n"),
        (b"+= \"x\"", b"+ = \"x\"\n"),
        (b"export A:=\"x\"", b"export A := \"x\"\n"),
        // ... and would make the line Python or fakeroot here
        (b"python=\"x\"", b"python= \"x\"\n"),
        (b"fakeroot+=\"a\"b\"c\"", b"fakeroot+= \"a\"b\"c\"\n"),
        (b"export def = \"x\"", b"export def = \"x\"\n"),
        (b"A[f]??='x'", b"A[f] ??= \"x\"\n"),
        (
            b"export A\nunset A\nunset A[f]",
            b"export A\nunset A\nunset A[f]\n",
        ),
    ];
    expect_rows(&rt, rt.alloc(), rows)
}

/// Ends that would be dropped, or would join the line with the next.
#[test]
fn ends_of_lines(rt: HostRuntime) -> Result<(), Fail> {
    let rows: &[Row] = &[
        // ends that would be dropped, or would join the line with the next
        (b"include a \\\n\n", b"include a \\\n\n"),
        (b"include a\r\\\n\n", b"include a\r\\\n\n"),
        (b"inherit a\t\\\n\n", b"inherit a\t\\\n\n"),
        (b"require a \\\\\n\n", b"require a \\\\\n\n"),
        (b"EXPORT_FUNCTIONS a\\\\\n\n", b"EXPORT_FUNCTIONS a\\\\\n\n"),
    ];
    expect_rows(&rt, rt.alloc(), rows)
}

/// Words that would open a body or make an assignment, and bodies.
#[test]
fn words_and_bodies(rt: HostRuntime) -> Result<(), Fail> {
    let rows: &[Row] = &[
        // words that would open a body, or make an assignment
        (
            b"EXPORT_FUNCTIONS a() { \\\n\n",
            b"EXPORT_FUNCTIONS \r a() { \\\n\n",
        ),
        (
            b"EXPORT_FUNCTIONS =\r\"x\"",
            b"EXPORT_FUNCTIONS \r = \"x\" \\\n\n",
        ),
        (
            b"addtask a b before c after d",
            b"addtask do_a do_b after do_d before do_c\n",
        ),
        (
            b"fakeroot() {\n  a \\\n }\n\n}",
            b"fakeroot() {\n  a \\\n }\n\n}\n",
        ),
    ];
    expect_rows(&rt, rt.alloc(), rows)
}

/// Whether a statement is refused, since no text gives it.
fn is_refused(alloc: Global, statement: &Statement) -> bool {
    matches!(print(alloc, statement), Err(PrintFault::NoText))
}

/// Asserts that it is.
fn expect_refused(rt: &impl Abort, alloc: Global, statement: &Statement) {
    assert!(rt; is_refused(alloc, statement));
}

/// An assignment with `=`.
fn assignment(alloc: Global, name: &str, value: &str) -> Result<Statement, Mem> {
    Ok(Statement::Assign {
        export: false,
        name: Text::from_str(alloc, name)?,
        op: Op::Set,
        text: Text::from_str(alloc, value)?,
    })
}

/// A function.
fn function(alloc: Global, name: &str, body: &str) -> Result<Statement, Mem> {
    Ok(Statement::Function {
        name: Text::from_str(alloc, name)?,
        body: Text::from_str(alloc, body)?,
    })
}

/// An include of a path.
fn include(alloc: Global, path: &str) -> Result<Statement, Mem> {
    Ok(Statement::Include {
        path: Text::from_str(alloc, path)?,
    })
}

/// Assignments that no text gives.
#[test]
fn assignments_without_a_text(rt: HostRuntime) -> Result<(), Fail> {
    let alloc = rt.alloc();
    let rows: &[(&'static str, &'static str)] = &[
        ("", "x"),
        ("A B", "x"),
        ("A\n", "x"),
        ("WORKDIR", "x"),
        ("A", "x\ny"),
        ("A", "a ${@b}"),
        ("A", "one \" and one '"),
        ("A=", "x"),
    ];
    for (name, value) in rows {
        expect_refused(&rt, alloc, &assignment(alloc, name, value)?);
    }
    let written = assignment(alloc, "A", "two \"\" and one '")?;
    assert!(rt; !is_refused(alloc, &written));
    Ok(())
}

/// Functions, paths and a deletion that no text gives.
#[test]
fn statements_without_a_text(rt: HostRuntime) -> Result<(), Fail> {
    let alloc = rt.alloc();
    let rows: &[(&'static str, &'static str)] = &[
        ("do_x", "echo"),
        ("do_x", "echo \n"),
        ("do_x", "}\n"),
        ("do_x", "${@x}\n"),
        ("python", "echo\n"),
        ("FILESDIR", "echo\n"),
    ];
    for (name, body) in rows {
        expect_refused(&rt, alloc, &function(alloc, name, body)?);
    }
    let paths: &[&'static str] = &["", " a", "a\nb", "= \"x\"", "x() {"];
    for path in paths {
        expect_refused(&rt, alloc, &include(alloc, path)?);
    }
    let names = Texts::new(alloc);
    expect_refused(&rt, alloc, &Statement::DelTask { names });
    Ok(())
}
