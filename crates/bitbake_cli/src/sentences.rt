// What is said of each kind of fault. Made by tools/fault_tables.py from docs/faults.tsv: change that, and run this.

/// What is said of faults of one kind.
pub struct Sentence {
    /// The kind, as the fault's line has it; with `, no file` behind it for faults without a file alone, and with `, no text`
    /// for those whose first text is empty.
    pub kind: &'static str,

    /// What is wrong. `<1>` stands for the fault's first text, and `<1..>` for all from the first on.
    pub wrong: &'static str,

    /// What to do, with marks as above.
    pub mend: &'static str,
}

/// All kinds. The first that fits a fault counts.
pub const SENTENCES: &[Sentence] = &[
    Sentence {
        kind: "BadLine",
        wrong: "this line is no statement that its kind of file may have",
        mend: "look at the operator, the quotes and the keyword (functions, tasks and inherit stand in recipes and classes alone)",
    },
    Sentence {
        kind: "Python",
        wrong: "this line, or the body that it opens, is Python, or holds a ${@..} that is neither bb.utils.contains nor bb.utils.filter of literals",
        mend: "only shell functions are run: write the value out, or make it in a task",
    },
    Sentence {
        kind: "Fakeroot",
        wrong: "this line begins with fakeroot",
        mend: "tasks run as the user who runs bitbake: take the word away",
    },
    Sentence {
        kind: "OneInnerQuote",
        wrong: "a quoted text holds one quote of the kind that ends it",
        mend: "put the other kind of quotes around the text",
    },
    Sentence {
        kind: "ReservedName",
        wrong: "this statement gives something to WORKDIR, DEPSDIR or FILESDIR, which the program sets itself",
        mend: "use another name",
    },
    Sentence {
        kind: "OpenFunction",
        wrong: "the file ends inside the body of the function that begins here",
        mend: "close it by a line that is } alone",
    },
    Sentence {
        kind: "NotUtf8",
        wrong: "the file is not UTF-8, and this line has the first wrong byte",
        mend: "save the file as UTF-8",
    },
    Sentence {
        kind: "DanglingJoin",
        wrong: "the last line of the file ends with a backslash",
        mend: "take the backslash away, or write the line that follows",
    },
    Sentence {
        kind: "CommentInJoin",
        wrong: "a comment stands where a line that ends with a backslash goes on",
        mend: "move the comment above the joined lines",
    },
    Sentence {
        kind: "MissingRequired, no file",
        wrong: "the file <1> is required, and neither the project folder nor BBPATH has it",
        mend: "a project with conf/bblayers.conf needs one: write it, or put the folder that has it into BBPATH",
    },
    Sentence {
        kind: "MissingRequired",
        wrong: "the file <1> is required, and neither this file's folder nor BBPATH has it",
        mend: "write its path from one of these or from the project folder, or use include where it may be missing",
    },
    Sentence {
        kind: "MissingClass, no file",
        wrong: "INHERIT names the class <1>, and neither the project folder nor BBPATH has a file classes/<1>.bbclass",
        mend: "add the file, or its layer to BBLAYERS and the layer's folder to BBPATH",
    },
    Sentence {
        kind: "MissingClass",
        wrong: "neither the project folder nor BBPATH has a file classes/<1>.bbclass",
        mend: "add the file, or its layer to BBLAYERS and the layer's folder to BBPATH",
    },
    Sentence {
        kind: "IncludeDepth",
        wrong: "this statement would be the 33rd file that is read inside another",
        mend: "look for a file that includes itself",
    },
    Sentence {
        kind: "ValueCycle",
        wrong: "the value of <1> refers to itself",
        mend: "use := or an append where the old value is meant",
    },
    Sentence {
        kind: "TooDeep, no text",
        wrong: "this text nests references deeper than 64",
        mend: "take some of them apart",
    },
    Sentence {
        kind: "TooDeep",
        wrong: "the value of <1> leads on behind a chain of 64 names, or nests references deeper than 64",
        mend: "shorten the chain",
    },
    Sentence {
        kind: "TooLong, no text",
        wrong: "this text has more than 1,048,576 bytes once it is expanded",
        mend: "shorten it",
    },
    Sentence {
        kind: "TooLong",
        wrong: "the value of <1> has more than 1,048,576 bytes once it is expanded",
        mend: "shorten it",
    },
    Sentence {
        kind: "Unstable",
        wrong: "OVERRIDES depends on overrides that it lists and doesn't come to rest: where it is \"<1>\" it becomes \"<2>\"",
        mend: "take the override out of the value that changes the list",
    },
    Sentence {
        kind: "NoSuchLayer",
        wrong: "BBLAYERS names the layer <1>, and the project's folder has no file <1>/conf/layer.conf",
        mend: "correct BBLAYERS in conf/bblayers.conf",
    },
    Sentence {
        kind: "BadPattern",
        wrong: "the word <1> of BBFILES has a [, and its wildcards are * and ? alone",
        mend: "write it with these",
    },
    Sentence {
        kind: "NoSuchConfig",
        wrong: "there is no configuration <1>: BBMULTICONFIG of the default one doesn't name it, or it has other bytes than letters, digits, - and _",
        mend: "look at the spelling, or add it to BBMULTICONFIG and write conf/multiconfig/<1>.conf",
    },
    Sentence {
        kind: "BadName",
        wrong: "the recipe's file is none of PN.bb, PN_PV.bb and PN_PV_PR.bb, or its final PN is no name (letters, digits, + - .)",
        mend: "rename the file, or correct PN",
    },
    Sentence {
        kind: "DanglingAppend",
        wrong: "this append belongs to no recipe file",
        mend: "name it after the recipe's file, or end its name with % behind the part that counts",
    },
    Sentence {
        kind: "NothingProvides",
        wrong: "nothing provides \"<1>\": no recipe has this name, lists it in PROVIDES or has a package of it (or a flag depends names it without a task)",
        mend: "look at the spelling, and whether the recipe's layer is listed",
    },
    Sentence {
        kind: "SeveralProvide",
        wrong: "several recipes provide <1>, and no preference that counts names one of them: <2..>",
        mend: "set PREFERRED_PROVIDER_<1> to one of them in the configuration (at run time no preference counts: let one of them alone provide it)",
    },
    Sentence {
        kind: "NoSuchTask",
        wrong: "there is no task <1>",
        mend: "look at the spelling, and at addtask and deltask",
    },
    Sentence {
        kind: "TaskCycle",
        wrong: "tasks need each other in a ring: <1..> (each needs the next, and the last one the first)",
        mend: "take one of these orders away",
    },
    Sentence {
        kind: "BadThreads",
        wrong: "BB_NUMBER_THREADS is \"<1>\", and no number from 1 to 16",
        mend: "set it to one",
    },
    Sentence {
        kind: "BadFlag",
        wrong: "the word <2> in the flag <1> of one of the recipe's tasks can't be used",
        mend: "folders begin with ${WORKDIR}/ and have no .. in them, functions stand in the recipe or its classes, and each word of sstate-inputdirs has its partner in sstate-outputdirs",
    },
    Sentence {
        kind: "MissingFile",
        wrong: "a task of the recipe has <1> in its file-checksums, and the project's folder has no such file",
        mend: "write its path from the project folder, or end the word with :False",
    },
    Sentence {
        kind: "FileBytes",
        wrong: "a file of the metadata has more than 1,048,576 bytes",
        mend: "split it",
    },
    Sentence {
        kind: "Recipes",
        wrong: "there are more than 2,000 recipe files",
        mend: "shorten BBFILES",
    },
    Sentence {
        kind: "Tasks",
        wrong: "the targets need more than 65,536 tasks",
        mend: "name fewer targets",
    },
    Sentence {
        kind: "InputBytes",
        wrong: "a file that file-checksums names has more than 16,777,216 bytes",
        mend: "split it",
    },
    Sentence {
        kind: "PlanBytes",
        wrong: "the input files of the plan, or its keys and scripts, have more than 268,435,456 bytes in all",
        mend: "name fewer targets or files",
    },
    Sentence {
        kind: "UnsoundPlan",
        wrong: "the plan breaks a rule of plans, which no project can bring about",
        mend: "report it, with the project",
    },
    Sentence {
        kind: "unsteady",
        wrong: "<1> gave another <2> than when it ran with the same signature before",
        mend: "let it depend on its metadata, its input files and what it needs alone (no clock, no random names), or where a tool on the search path has changed, remove the task's record, which standard error names (or the folder build)",
    },
];
