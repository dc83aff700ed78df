// What `--help` prints. Made by tools/option_tables.py from docs/bitbake.1: change that, and run this.

/// The lines of use, and each option with a sentence.
pub const HELP: &str = "\
usage: bitbake [-c TASK] [-f] [-k] [-n] [-e] [-s] [-p] [--no-setscene] [--sample N] [--clean N] [TARGET..]\n\
\x20      bitbake -g [-c TASK] TARGET..\n\
\x20      bitbake --why [-c TASK] [-f] [--no-setscene] TARGET..\n\
\x20      bitbake --lint [TARGET..]\n\
\x20      bitbake --help | --version\n\
\n\
\x20 -c, --cmd TASK           The task of the targets that name none.\n\
\x20 -f, --force              The targets' tasks run even where nothing has changed.\n\
\x20 -k, --continue           Go on after failures: the tasks that don't need a failed one still run.\n\
\x20 -n, --dry-run            Print the plan and run nothing.\n\
\x20 -e, --environment        Print the values of the targets' recipes, or of the configuration.\n\
\x20 -s, --show-versions      Print the chosen version of each recipe.\n\
\x20 -p, --parse-only         Read everything, and print how many recipe files there were.\n\
\x20     --no-setscene        Objects of the shared state don't count as available.\n\
\x20     --sample N           Build a generated project of N recipes, 1 to 1000, over devices in memory.\n\
\x20     --clean N            Clear the store: remove what nothing needs of what earlier runs left for later ones.\n\
\x20 -g, --graphviz           Print the graph of the tasks that the targets need, as DOT.\n\
\x20     --why                Print for each task that a run would need whether it would be found, restored or run, and why.\n\
\x20 -q, --quiet              No line on the terminal says what a run is doing.\n\
\x20 -h, --help               Print these options, and do nothing else.\n\
\x20     --version            Print the commit and the kit of the program.\n\
\x20     --lint               Print what is no fault, and does nothing or something else than it seems to.\n\
\n\
Behind -- each word is a target. The manual page says more: man bitbake, or docs/bitbake.1 of the project.\n\
";
