// Scripts and places of a task, by its store and by its key alone.
use datastore::Datastore;
use meta_model::{EntryLine, Key, Op};
use script_gen::{ScriptFault, places_of, script, script_of};
use std::alloc::Global;
use std::test::Fail;
use tree_model::{ListOf, Mem, Text};
use var_deps::key;

/// What the shell of the task is given.
const SCRIPT: &str =
    "set -e\ndo_build() {\n:\n    echo hello > hello.txt\n}\ncd \"${WORKDIR}\"\ndo_build\n";

/// The task's value.
fn body(alloc: Global) -> Result<EntryLine, Mem> {
    Ok(EntryLine::Set {
        name: Text::from_str(alloc, "do_build")?,
        op: Op::Set,
        text: Text::from_str(alloc, "    echo hello > hello.txt\n")?,
    })
}

/// A flag of the task.
fn flag(alloc: Global, flag: &str, text: &str) -> Result<EntryLine, Mem> {
    Ok(EntryLine::Flag {
        name: Text::from_str(alloc, "do_build")?,
        flag: Text::from_str(alloc, flag)?,
        op: Op::Set,
        text: Text::from_str(alloc, text)?,
    })
}

/// A store with the task, a function that keeps the folder `a`.
fn hello(alloc: Global) -> Result<Datastore, Mem> {
    let mut store = Datastore::new(alloc);
    store.apply_line(alloc, body(alloc)?)?;
    store.apply_line(alloc, flag(alloc, "func", "1")?)?;
    store.apply_line(alloc, flag(alloc, "sstate-inputdirs", "${WORKDIR}/a")?)?;
    store.apply_line(alloc, flag(alloc, "sstate-outputdirs", ".")?)?;
    Ok(store)
}

/// Whether it is the script.
fn is_script(made: &Result<Text, ScriptFault>) -> bool {
    matches!(made, Ok(text) if text.as_str() == SCRIPT)
}

/// Whether it is the one pair of places.
fn are_places(made: &Result<ListOf<(Text, Text)>, ScriptFault>) -> bool {
    match made {
        Ok(pairs) => match pairs.as_slice() {
            [pair] => pair.0.as_str() == "a" && pair.1.as_str() == ".",
            _ => false,
        },
        Err(_) => false,
    }
}

/// Whether the key tells the script and the places.
fn tells(alloc: Global, key: &Key) -> bool {
    is_script(&script_of(alloc, key, "do_build")) && are_places(&places_of(alloc, key, "do_build"))
}

/// The store and the key tell one script.
#[test]
fn script_by_store_and_by_key(rt: HostRuntime) -> Result<(), Fail> {
    let store = hello(rt.alloc())?;
    assert!(rt; is_script(&script(rt.alloc(), &store, "do_build")));
    match key(rt.alloc(), &store, "do_build") {
        Ok(key) => assert!(rt; tells(rt.alloc(), &key)),
        Err(_) => return Err(Fail::from("no key")),
    }
    Ok(())
}
