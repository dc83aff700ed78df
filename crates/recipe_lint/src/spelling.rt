// The old spelling of overrides, with underscores where colons stand now.

use std::alloc::Global;
use tree_model::Mem;

/// A late keyword as the old spelling has it: at the end of a name, and before a condition; and as it is written now.
struct Keyword {
    last: &'static str,
    inner: &'static str,
    now: &'static str,
}

/// The late keywords.
const KEYWORDS: &[Keyword] = &[
    Keyword {
        last: "_append",
        inner: "_append_",
        now: ":append",
    },
    Keyword {
        last: "_prepend",
        inner: "_prepend_",
        now: ":prepend",
    },
    Keyword {
        last: "_remove",
        inner: "_remove_",
        now: ":remove",
    },
];

/// The variables of packages, of which a form is written for each package.
const OF_PACKAGES: &[&str] = &[
    "ALLOW_EMPTY",
    "CONFFILES",
    "DESCRIPTION",
    "FILES",
    "INSANE_SKIP",
    "PKG",
    "RCONFLICTS",
    "RDEPENDS",
    "RPROVIDES",
    "RRECOMMENDS",
    "RREPLACES",
    "RSUGGESTS",
    "SECTION",
    "SUMMARY",
    "pkg_postinst",
    "pkg_postrm",
    "pkg_preinst",
    "pkg_prerm",
];

/// Whether a name is one that an operation may be on: a task's, or one that begins with a capital letter.
fn may_be_target(name: &str) -> bool {
    match name.as_bytes().first() {
        Some(first) => first.is_ascii_uppercase() || name.starts_with("do_"),
        None => false,
    }
}

/// The new spelling of a name that has this keyword in the old one.
fn with_keyword(alloc: Global, name: &str, keyword: &Keyword) -> Result<Option<String>, Mem> {
    let now = keyword.now;
    if let Some(target) = name.strip_suffix(keyword.last)
        && may_be_target(target)
    {
        return Ok(Some(format!(in alloc; "{target}{now}")?));
    }
    if let Some((target, when)) = name.split_once(keyword.inner)
        && may_be_target(target)
        && !when.is_empty()
    {
        return Ok(Some(format!(in alloc; "{target}{now}:{when}")?));
    }
    Ok(None)
}

/// The new spelling of a package's variable in the old one.
fn of_package(alloc: Global, name: &str) -> Result<Option<String>, Mem> {
    match name.split_once("_${PN}") {
        Some((variable, rest)) if OF_PACKAGES.iter().any(|known| *known == variable) => {
            Ok(Some(format!(in alloc; "{variable}:${{PN}}{rest}")?))
        }
        _ => Ok(None),
    }
}

/// The new spelling of a name, if it has the old one: `FOO_append`, `FOO_append_arm`, `do_build_append`, `FILES_${PN}`. A name with a
/// colon has the new one.
pub(crate) fn new_spelling(alloc: Global, name: &str) -> Result<Option<String>, Mem> {
    if name.contains(':') {
        return Ok(None);
    }
    for keyword in KEYWORDS {
        if let Some(made) = with_keyword(alloc, name, keyword)? {
            return Ok(Some(made));
        }
    }
    of_package(alloc, name)
}
