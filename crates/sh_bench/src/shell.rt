// The shell programs that run scripts: each is handed jobs on its standard input, and answers each on its standard output.
//
// What is said before the line `ready` says why there is none. The lock of the folder in which scripts run comes as standard
// error, and is kept by descriptor 9, which each script has too.

/// What is said where no search path of scripts has a shell.
pub const NO_SHELL: &str = "there is no sh on the search path";

/// Finds the shell of scripts before anything is made for them. `$1` is empty where scripts have no search path, which `$2` is else,
/// and `$3` is the folder.
pub const FIND_SHELL: &str = "exec 9<&2 2>&1
with_path=$1 path=$2 folder=$3
shell=$(PATH=$path; command -v sh)
case $shell in /*) ;; *) echo \"there is no sh on the search path\"; exit 1 ;; esac
";

/// Starts a sandbox, whose processes die with this program: root needs no user namespace, where the system lets it make the others.
/// `$4` and `$5` are the two programs behind this one.
pub const START_SANDBOX: &str = "uid=$(id -u) gid=$(id -g) user=
if [ \"$uid\" = 0 ] && unshare --mount true; then uid=; else user='--user --map-root-user'; fi
exec setpriv --pdeathsig KILL unshare $user --mount --pid --fork --kill-child=KILL --mount-proc \\
    setsid sh -c \"$4\" sh \"$with_path\" \"$path\" \"$shell\" \"$folder\" \"$uid\" \"$gid\" \"$5\"
";

/// Makes a root of its own in the new mount namespace: all folders and links of the machine's root are there, the bench's folder is
/// `/bitbake`, and the project's folder `build` is empty. Then goes back to the user and the group, from a user namespace.
pub const MAKE_ROOT: &str = "with_path=$1 path=$2 shell=$3 folder=$4 uid=$5 gid=$6 jobs=$7
here=$(pwd -P) && build=$(cd build && pwd -P) || exit 1
root=$build/bench/root
mount -n -t tmpfs -o mode=755 none \"$root\" && mkdir \"$root/bitbake\" \"$root/.old\" && cd \"$root\" || exit 1
set --
for one in /*; do [ ! -L \"$one\" ] || set -- \"$@\" \"$one\"; done
[ $# -eq 0 ] || cp -P -- \"$@\" . || exit 1
set --
for one in /*; do
    [ -L \"$one\" ] || [ ! -d \"$one\" ] || [ \"$one\" = /bitbake ] || set -- \"$@\" \".$one\"
done
mkdir -- \"$@\" || exit 1
for one; do mount -n --rbind \"${one#.}\" \"$one\" || exit 1; done
mount -n --bind \"$here/$folder\" bitbake && mount -n -t tmpfs -o mode=755 none \".$build\" || exit 1
pivot_root . .old && cd / && umount -n -l /.old && rmdir /.old || exit 1
set -- \"$with_path\" \"$path\" \"$shell\"
[ -z \"$uid\" ] || exec unshare --user --map-user=\"$uid\" --map-group=\"$gid\" sh -c \"$jobs\" sh \"$@\"
exec sh -c \"$jobs\" sh \"$@\"
";

/// Takes jobs in a sandbox, as the first process of its namespace: what a script started is killed and waited for when it has ended,
/// sessions of their own included.
pub const SANDBOX_JOBS: &str = "exec 2>/dev/null
with_path=$1 path=$2 shell=$3
export WORKDIR=/bitbake/work DEPSDIR=/bitbake/deps FILESDIR=/bitbake/files
echo ready
while read -r job; do
    (cd /bitbake/work || exit 126
    unset OLDPWD
    if [ -n \"$with_path\" ]; then PATH=$path; else unset PATH; fi
    exec \"$shell\" ../script) </dev/null >/bitbake/log 2>&1
    status=$? tries=0
    while kill -9 -1; do
        tries=$((tries + 1))
        if [ $tries -gt 1000 ]; then status=held; break; fi
        sleep 0.01
    done
    echo \"$job $status\"
done
";

/// Takes jobs without a sandbox. A script runs in a session of its own, and what is left of its process group is killed and waited for
/// when it has ended, or when this program dies. Zombies that nobody waits for don't count.
pub const GROUP_JOBS: &str = "exec 2>/dev/null
with_path=$1 path=$2 shell=$3 folder=$4
place=$(cd \"$folder\" && pwd -P) || exit 1
export WORKDIR=\"$place/work\" DEPSDIR=\"$place/deps\" FILESDIR=\"$place/files\"
setsid=$(command -v setsid) || { echo \"there is no setsid (util-linux)\"; exit 1; }
lives() {
    for stat in /proc/[0-9]*/stat; do
        read -r line <\"$stat\" || continue
        set -- ${line##*) }
        [ \"$3\" != \"$group\" ] || [ \"$1\" = Z ] || return 0
    done
    return 1
}
finish() {
    tries=0
    while kill -9 \"-$group\" && lives; do
        tries=$((tries + 1))
        if [ $tries -gt 500 ]; then status=held; break; fi
        sleep 0.02
    done
}
trap 'group=$!; kill -9 \"$group\"; finish; exit 143' HUP INT TERM
echo ready
while read -r job; do
    (cd \"$WORKDIR\" || exit 126
    unset OLDPWD
    if [ -n \"$with_path\" ]; then PATH=$path; else unset PATH; fi
    exec \"$setsid\" \"$shell\" ../script) </dev/null >\"$place/log\" 2>&1 &
    group=$!
    wait \"$group\"
    status=$?
    finish
    echo \"$job $status\"
done
";

/// Has the system end this program where the one that started it dies, and then takes jobs without a sandbox.
pub const START_GROUPS: &str = "if command -v setpriv >/dev/null; then
    exec setpriv --pdeathsig TERM sh -c \"$4\" sh \"$with_path\" \"$path\" \"$shell\" \"$folder\"
fi
exec sh -c \"$4\" sh \"$with_path\" \"$path\" \"$shell\" \"$folder\"
";
