// The variables and flags of BitBake's that have no effect here. Made by tools/lint_tables.py from docs/no_effect.tsv: change that, and run
// this.

/// A name that has no effect.
pub(crate) struct Effect {
    /// The name, its front, or the flag's.
    pub(crate) name: &'static str,

    /// What to do instead.
    pub(crate) instead: &'static str,
}

/// The variables, in byte order.
pub(crate) const VARIABLES: &[Effect] = &[
    Effect {
        name: "BBCLASSEXTEND",
        instead: "write a recipe for each variant, with require of a common file",
    },
    Effect {
        name: "BBFILES_DYNAMIC",
        instead: "write the patterns into BBFILES of a layer that BBLAYERS names where it is wanted",
    },
    Effect {
        name: "BBFILE_COLLECTIONS",
        instead: "layers have no priorities: of the recipes of one name the greatest version counts, then the greatest PR, then the greatest path; choose by PREFERRED_VERSION or by the patterns of BBFILES",
    },
    Effect {
        name: "BBINCLUDELOGS",
        instead: "the log of a task that fails is kept, and its end is shown",
    },
    Effect {
        name: "BBINCLUDELOGS_LINES",
        instead: "the log of a task that fails is kept, and its end is shown",
    },
    Effect {
        name: "BBMASK",
        instead: "what is read is what the patterns of BBFILES name: write them so that they leave the file out",
    },
    Effect {
        name: "BBVERSIONS",
        instead: "write a recipe for each variant, with require of a common file",
    },
    Effect {
        name: "BB_ALLOWED_NETWORKS",
        instead: "nothing is fetched: keep the sources in the project and name them in [file-checksums]; a task finds them under FILESDIR",
    },
    Effect {
        name: "BB_DANGLINGAPPENDS_WARNONLY",
        instead: "an append that belongs to no recipe is refused: leave it out of BBFILES",
    },
    Effect {
        name: "BB_DISKMON_DIRS",
        instead: "BB_NUMBER_THREADS alone says how tasks are run",
    },
    Effect {
        name: "BB_ENV_EXTRAWHITE",
        instead: "the caller's environment isn't looked at: set and export the variable in the configuration",
    },
    Effect {
        name: "BB_ENV_PASSTHROUGH",
        instead: "the caller's environment isn't looked at: set and export the variable in the configuration",
    },
    Effect {
        name: "BB_ENV_PASSTHROUGH_ADDITIONS",
        instead: "the caller's environment isn't looked at: set and export the variable in the configuration",
    },
    Effect {
        name: "BB_ENV_WHITELIST",
        instead: "the caller's environment isn't looked at: set and export the variable in the configuration",
    },
    Effect {
        name: "BB_FETCH_PREMIRRORONLY",
        instead: "nothing is fetched: keep the sources in the project and name them in [file-checksums]; a task finds them under FILESDIR",
    },
    Effect {
        name: "BB_GENERATE_MIRROR_TARBALLS",
        instead: "nothing is fetched: keep the sources in the project and name them in [file-checksums]; a task finds them under FILESDIR",
    },
    Effect {
        name: "BB_HASHBASE_WHITELIST",
        instead: "set BB_BASEHASH_IGNORE_VARS, or [vardepsexclude] of a name",
    },
    Effect {
        name: "BB_HASHCONFIG_IGNORE_VARS",
        instead: "set BB_BASEHASH_IGNORE_VARS, or [vardepsexclude] of a name",
    },
    Effect {
        name: "BB_HASHCONFIG_WHITELIST",
        instead: "set BB_BASEHASH_IGNORE_VARS, or [vardepsexclude] of a name",
    },
    Effect {
        name: "BB_HASHSERVE",
        instead: "what is kept stands below build/: copy this folder",
    },
    Effect {
        name: "BB_HASHSERVE_UPSTREAM",
        instead: "what is kept stands below build/: copy this folder",
    },
    Effect {
        name: "BB_HASHTASK_WHITELIST",
        instead: "set BB_BASEHASH_IGNORE_VARS, or [vardepsexclude] of a name",
    },
    Effect {
        name: "BB_LOGCONFIG",
        instead: "the log of a task that fails is kept, and its end is shown",
    },
    Effect {
        name: "BB_LOGFMT",
        instead: "the log of a task that fails is kept, and its end is shown",
    },
    Effect {
        name: "BB_NICE_LEVEL",
        instead: "BB_NUMBER_THREADS alone says how tasks are run",
    },
    Effect {
        name: "BB_NO_NETWORK",
        instead: "nothing is fetched: keep the sources in the project and name them in [file-checksums]; a task finds them under FILESDIR",
    },
    Effect {
        name: "BB_NUMBER_PARSE_THREADS",
        instead: "BB_NUMBER_THREADS alone says how tasks are run",
    },
    Effect {
        name: "BB_RUNFMT",
        instead: "the log of a task that fails is kept, and its end is shown",
    },
    Effect {
        name: "BB_SCHEDULER",
        instead: "BB_NUMBER_THREADS alone says how tasks are run",
    },
    Effect {
        name: "BB_SETSCENE_DEPVALID",
        instead: "what is kept stands below build/: copy this folder",
    },
    Effect {
        name: "BB_SIGNATURE_HANDLER",
        instead: "what is kept stands below build/: copy this folder",
    },
    Effect {
        name: "BB_SRCREV_POLICY",
        instead: "nothing is fetched: keep the sources in the project and name them in [file-checksums]; a task finds them under FILESDIR",
    },
    Effect {
        name: "BB_STRICT_CHECKSUM",
        instead: "nothing is fetched: keep the sources in the project and name them in [file-checksums]; a task finds them under FILESDIR",
    },
    Effect {
        name: "BB_TASKHASH_IGNORE_TASKS",
        instead: "set BB_BASEHASH_IGNORE_VARS, or [vardepsexclude] of a name",
    },
    Effect {
        name: "BB_TASK_IONICE_LEVEL",
        instead: "BB_NUMBER_THREADS alone says how tasks are run",
    },
    Effect {
        name: "BB_TASK_NICE_LEVEL",
        instead: "BB_NUMBER_THREADS alone says how tasks are run",
    },
    Effect {
        name: "BB_VERBOSE_LOGS",
        instead: "the log of a task that fails is kept, and its end is shown",
    },
    Effect {
        name: "CACHE",
        instead: "what is kept stands below build/, in the folders that docs/STORE.md names",
    },
    Effect {
        name: "COMPATIBLE_HOST",
        instead: "every recipe that BBFILES names is read, and none is a target by itself",
    },
    Effect {
        name: "COMPATIBLE_MACHINE",
        instead: "every recipe that BBFILES names is read, and none is a target by itself",
    },
    Effect {
        name: "DEFAULT_PREFERENCE",
        instead: "set PREFERRED_VERSION of the recipe in the configuration",
    },
    Effect {
        name: "DL_DIR",
        instead: "nothing is fetched: keep the sources in the project and name them in [file-checksums]; a task finds them under FILESDIR",
    },
    Effect {
        name: "EXCLUDE_FROM_WORLD",
        instead: "every recipe that BBFILES names is read, and none is a target by itself",
    },
    Effect {
        name: "FILESEXTRAPATHS",
        instead: "[file-checksums] has paths from the project's folder",
    },
    Effect {
        name: "FILESPATH",
        instead: "[file-checksums] has paths from the project's folder",
    },
    Effect {
        name: "LAYERDEPENDS",
        instead: "layers aren't compared: name in BBLAYERS all that are needed",
    },
    Effect {
        name: "LAYERSERIES_CORENAMES",
        instead: "layers aren't compared: name in BBLAYERS all that are needed",
    },
    Effect {
        name: "MIRRORS",
        instead: "nothing is fetched: keep the sources in the project and name them in [file-checksums]; a task finds them under FILESDIR",
    },
    Effect {
        name: "PERSISTENT_DIR",
        instead: "what is kept stands below build/, in the folders that docs/STORE.md names",
    },
    Effect {
        name: "PREFERRED_PROVIDERS",
        instead: "set PREFERRED_PROVIDER of each name",
    },
    Effect {
        name: "PREMIRRORS",
        instead: "nothing is fetched: keep the sources in the project and name them in [file-checksums]; a task finds them under FILESDIR",
    },
    Effect {
        name: "RCONFLICTS",
        instead: "RDEPENDS alone is followed, by [rdeptask] and [recrdeptask]",
    },
    Effect {
        name: "RRECOMMENDS",
        instead: "RDEPENDS alone is followed, by [rdeptask] and [recrdeptask]",
    },
    Effect {
        name: "RREPLACES",
        instead: "RDEPENDS alone is followed, by [rdeptask] and [recrdeptask]",
    },
    Effect {
        name: "RSUGGESTS",
        instead: "RDEPENDS alone is followed, by [rdeptask] and [recrdeptask]",
    },
    Effect {
        name: "SKIP_RECIPE",
        instead: "every recipe that BBFILES names is read, and none is a target by itself",
    },
    Effect {
        name: "SRCREV",
        instead: "nothing is fetched: keep the sources in the project and name them in [file-checksums]; a task finds them under FILESDIR",
    },
    Effect {
        name: "SRC_URI",
        instead: "nothing is fetched: keep the sources in the project and name them in [file-checksums]; a task finds them under FILESDIR",
    },
    Effect {
        name: "SSTATE_DIR",
        instead: "what is kept stands below build/: copy this folder",
    },
    Effect {
        name: "SSTATE_MIRRORS",
        instead: "what is kept stands below build/: copy this folder",
    },
    Effect {
        name: "STAMP",
        instead: "what is kept stands below build/, in the folders that docs/STORE.md names",
    },
    Effect {
        name: "STAMPS_DIR",
        instead: "what is kept stands below build/, in the folders that docs/STORE.md names",
    },
    Effect {
        name: "TMPDIR",
        instead: "what is kept stands below build/, in the folders that docs/STORE.md names",
    },
];

/// What variables begin with, in byte order.
pub(crate) const FRONTS: &[Effect] = &[
    Effect {
        name: "BBFILE_PATTERN_",
        instead: "layers have no priorities: of the recipes of one name the greatest version counts, then the greatest PR, then the greatest path; choose by PREFERRED_VERSION or by the patterns of BBFILES",
    },
    Effect {
        name: "BBFILE_PRIORITY_",
        instead: "layers have no priorities: of the recipes of one name the greatest version counts, then the greatest PR, then the greatest path; choose by PREFERRED_VERSION or by the patterns of BBFILES",
    },
    Effect {
        name: "BB_PRESSURE_MAX_",
        instead: "BB_NUMBER_THREADS alone says how tasks are run",
    },
    Effect {
        name: "FETCHCMD_",
        instead: "nothing is fetched: keep the sources in the project and name them in [file-checksums]; a task finds them under FILESDIR",
    },
    Effect {
        name: "LAYERDEPENDS_",
        instead: "layers aren't compared: name in BBLAYERS all that are needed",
    },
    Effect {
        name: "LAYERRECOMMENDS_",
        instead: "layers aren't compared: name in BBLAYERS all that are needed",
    },
    Effect {
        name: "LAYERSERIES_COMPAT_",
        instead: "layers aren't compared: name in BBLAYERS all that are needed",
    },
    Effect {
        name: "LAYERVERSION_",
        instead: "layers aren't compared: name in BBLAYERS all that are needed",
    },
    Effect {
        name: "PREFERRED_RPROVIDER_",
        instead: "at run time there is no preference: let one recipe alone provide the name",
    },
    Effect {
        name: "REQUIRED_VERSION_",
        instead: "PREFERRED_VERSION is a preference alone: leave the other versions out of BBFILES",
    },
    Effect {
        name: "SRCREV_",
        instead: "nothing is fetched: keep the sources in the project and name them in [file-checksums]; a task finds them under FILESDIR",
    },
];

/// The flags, in byte order.
pub(crate) const FLAGS: &[Effect] = &[
    Effect {
        name: "fakeroot",
        instead: "tasks run as the user who runs bitbake: set owners where an archive is made",
    },
    Effect {
        name: "lockfiles",
        instead: "tasks share no folder: put one behind the other by [depends]",
    },
    Effect {
        name: "mcdepends",
        instead: "no task needs one of another configuration: name the targets of both",
    },
    Effect {
        name: "network",
        instead: "a task has the network that the caller has",
    },
    Effect {
        name: "number_threads",
        instead: "BB_NUMBER_THREADS holds for all tasks",
    },
    Effect {
        name: "rdepends",
        instead: "name the recipe's task in [depends]",
    },
    Effect {
        name: "stamp-base",
        instead: "a task's stamp has the name of its recipe and its own",
    },
    Effect {
        name: "stamp-extra-info",
        instead: "a task's stamp has the name of its recipe and its own",
    },
    Effect {
        name: "umask",
        instead: "set it in the function",
    },
    Effect {
        name: "vardepvalueexclude",
        instead: "write [vardepvalue] without it",
    },
];
