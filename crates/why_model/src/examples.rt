// Worked rows of what is told before a run. Each expected answer is derived from the rules by hand; the comment above it says why.
ghost use Rattle.std.specs.Prelude.{◌≡◌, ◌∷◌, [], codes, true, false};
ghost use Rattle.store_model.specs.Hello.{hello_task, top_task};
ghost use Rattle.why_model.specs.declared.fate.Cause.TheVariants as cause;
ghost use Rattle.why_model.specs.declared.fate.Fate.TheVariants as fate;
ghost use Rattle.why_model.specs.Differing.{differing};
ghost use Rattle.why_model.specs.Seen.{narrowed_task, seen_over, waits_of};
ghost use Rattle.why_model.specs.Why.{fate_line};
ghost use Rattle.why_model.specs.Worked.{chain, earlier, first_row, later};

/// In what two signatures differ.
pub fn example_of_differences()
    // what has another content or has come stands in front of what has gone: lines, then files, then needed tasks
    ensures all { differing later earlier ≡ codes "CFLAGS" ∷ codes "D" ∷ codes "B" ∷ codes "file a.c" ∷ codes "file c.c"
        ∷ codes "file b.c" ∷ codes "zlib:do_install" ∷ [] }
    // the other way round
    ensures back { differing earlier later ≡ codes "B" ∷ codes "CFLAGS" ∷ codes "D" ∷ codes "file a.c"
        ∷ codes "file b.c" ∷ codes "file c.c" ∷ codes "zlib:do_install" ∷ [] }
    ensures none { differing later later ≡ [] }
{}

/// Which tasks are seen, and what others wait for.
pub fn example_of_waiting()
    // over an empty store the first task has the name that it will have, and no row has it
    ensures nothing { seen_over [] chain ≡ false ∷ false ∷ [] }
    ensures first { waits_of (false ∷ false ∷ []) hello_task ≡ [] }
    // so the second one waits for it
    ensures second { waits_of (false ∷ false ∷ []) top_task ≡ 0 ∷ [] }
    // once the first one is recorded, the second one waits no more
    ensures recorded { seen_over first_row chain ≡ true ∷ false ∷ [] }
    ensures second_then { waits_of (true ∷ false ∷ []) top_task ≡ [] }
    // a task that runs in each run waits for nothing
    ensures always { waits_of (false ∷ []) (record top_task { nostamp = true }) ≡ [] }
    // of two needed tasks of which one is seen, the other one alone is needed in any case
    ensures narrowed { narrowed_task (true ∷ false ∷ []) (record top_task { deps = 0 ∷ 1 ∷ [] }) ≡ record top_task { deps = 1 ∷ [] } }
    // and where both are seen, both
    ensures whole { narrowed_task (true ∷ true ∷ []) (record top_task { deps = 0 ∷ 1 ∷ [] }) ≡ record top_task { deps = 0 ∷ 1 ∷ [] } }
{}

/// The lines of tasks.
pub fn example_of_lines()
    ensures found { fate_line chain hello_task fate.Found ≡ codes "hello:do_build: found\n" }
    ensures restored { fate_line chain hello_task fate.Restored ≡ codes "hello:do_build: restored\n" }
    ensures may_restore { fate_line chain hello_task fate.MayRestore
        ≡ codes "hello:do_build: may be restored: if a task that needs it runs\n" }
    ensures new { fate_line chain hello_task (fate.Runs cause.New) ≡ codes "hello:do_build: run: nothing recorded before\n" }
    ensures forced { fate_line chain hello_task (fate.Runs cause.Forced) ≡ codes "hello:do_build: run: forced\n" }
    ensures always { fate_line chain hello_task (fate.Runs cause.Always) ≡ codes "hello:do_build: run: runs each time\n" }
    ensures gone { fate_line chain hello_task (fate.Runs cause.Gone) ≡ codes "hello:do_build: run: its output is gone\n" }
    ensures differs { fate_line chain hello_task (fate.Runs (cause.Differs (codes "CFLAGS" ∷ codes "file a.c" ∷ [])))
        ≡ codes "hello:do_build: run: differs in CFLAGS, file a.c\n" }
    ensures may_run { fate_line chain top_task (fate.MayRun (0 ∷ [])) ≡ codes "top:do_build: may run: needs hello:do_build\n" }
    ensures may_need { fate_line chain hello_task fate.MayNeed
        ≡ codes "hello:do_build: may run: if a task that needs it runs\n" }
{}
