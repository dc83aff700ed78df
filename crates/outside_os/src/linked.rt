// Links to folders among the layers: which of them a listing enters, and what is reached through them.
use host_files::{Identity, is_absent, look, look_through};
use std::alloc::Global;
use std::cmp::Ordering;
use std::collections::BTreeSet;
use std::io::ErrorKind;
use std::rt::Files;
use std::{fs, io};
use tree_model::{Text, is_below};

/// Where what is built is kept, from the current folder: no part of the layers, by whatever path.
pub const BUILT: &str = "build";

/// The project's folder, from the current folder.
const HERE: &str = ".";

/// Folders of the layers that were seen, links to folders among them, by their paths from the current folder.
#[derive(Drop)]
pub struct ReachedFolders {
    folders: BTreeSet<String>,
}

impl ReachedFolders {
    /// No folder so far.
    pub fn none(alloc: Global) -> Self {
        ReachedFolders {
            folders: BTreeSet::new(alloc),
        }
    }

    /// Whether all that a path has above it are folders, or links to folders, and none of them is that of what is built.
    pub fn is_reached<R: Files + AllocGlobal>(&mut self, rt: &R, path: &str) -> io::Result<bool> {
        let Some((above, _)) = path.rsplit_once('/') else {
            return Ok(true);
        };
        let mut folder = String::new(rt.alloc());
        for part in above.split('/') {
            if !folder.is_empty() {
                folder.push('/')?;
            }
            folder.push_str(part)?;
            if !self.folders.contains(folder.as_str()) {
                if !is_entered(rt, folder.as_str())? {
                    return Ok(false);
                }
                self.folders
                    .insert(String::from_str(rt.alloc(), folder.as_str())?)?;
            }
        }
        Ok(true)
    }
}

/// Whether a path leads to a folder that isn't that of what is built, nor reached as a part of it by a link.
fn is_entered<R: Files + AllocGlobal>(rt: &R, path: &str) -> io::Result<bool> {
    match look(rt, path)? {
        Some(metadata) if metadata.is_dir() => match look_through(rt, BUILT)? {
            Some(built) => Ok(Identity::of(&built) != Identity::of(&metadata)),
            None => Ok(true),
        },
        Some(metadata) if metadata.is_symlink() => leads_outside(rt, path),
        _ => Ok(false),
    }
}

/// Whether a link leads to a folder outside of what is built.
fn leads_outside<R: Files + AllocGlobal>(rt: &R, link: &str) -> io::Result<bool> {
    match look_through(rt, link)? {
        Some(metadata) if metadata.is_dir() => match (real(rt, link)?, real(rt, BUILT)?) {
            (Some(target), Some(built)) => Ok(!holds(built.as_str(), target.as_str())),
            (target, _) => Ok(target.is_some()),
        },
        _ => Ok(false),
    }
}

/// A link to a folder, by its path from the current folder, and the real path of where it leads.
#[derive(Drop)]
pub struct Link {
    pub path: Text,
    target: String,
}

impl Link {
    /// The link at a path, or `None` where no name for what it leads to is UTF-8.
    pub fn of<R: Files + AllocGlobal>(rt: &R, path: Text) -> io::Result<Option<Self>> {
        match real(rt, path.as_str())? {
            Some(target) => Ok(Some(Link { path, target })),
            None => Ok(None),
        }
    }

    /// The order in which links are looked at: what holds another folder stands before that.
    pub fn order(&self, other: &Link) -> Ordering {
        match self.target.as_str().cmp(other.target.as_str()) {
            Ordering::Equal => self.path.as_str().cmp(other.path.as_str()),
            order => order,
        }
    }
}

/// The links to folders that a listing comes by, and where those lead that it has entered. Each folder is listed once: a link isn't entered
/// where what it leads to is listed already, holds the project, what is built or the link itself, or is what is built.
#[derive(Drop)]
pub struct LinkedFolders {
    /// The folder in which all paths of the listing stand, and where it leads. `None` until a link was met.
    base: Option<String>,
    project: Option<String>,
    built: Option<String>,

    /// Where the links lead that were entered.
    entered: Vec<String>,
}

impl LinkedFolders {
    /// No link so far.
    pub fn none(alloc: Global) -> Self {
        LinkedFolders {
            base: None,
            project: None,
            built: None,
            entered: Vec::new(alloc),
        }
    }

    /// Whether a listing of what begins with a prefix enters this link; then it is one that was entered.
    pub fn enters<R: Files + AllocGlobal>(
        &mut self,
        rt: &R,
        prefix: &str,
        link: &Link,
    ) -> io::Result<bool> {
        if self.project.is_none() {
            self.project = real(rt, HERE)?;
            self.built = real(rt, BUILT)?;
            self.base = real(rt, folder_of(prefix))?;
        }
        let Some(above) = real(rt, folder_of(link.path.as_str()))? else {
            return Ok(false);
        };
        let target = link.target.as_str();
        if holds(target, above.as_str())
            || self.is_apart(target)
            || self.is_listed(prefix, target)
        {
            return Ok(false);
        }
        self.entered.push(String::from_str(rt.alloc(), target)?)?;
        Ok(true)
    }

    /// Whether a folder holds the project or what is built, or is part of that.
    fn is_apart(&self, target: &str) -> bool {
        let project = match &self.project {
            Some(project) => holds(target, project.as_str()),
            None => true,
        };
        let built = match &self.built {
            Some(built) => holds(target, built.as_str()) || holds(built.as_str(), target),
            None => false,
        };
        project || built
    }

    /// Whether all that stands in a folder is listed without this link: through another one, or since it stands where the listing began.
    fn is_listed(&self, prefix: &str, target: &str) -> bool {
        if self
            .entered
            .iter()
            .any(|entered| holds(entered.as_str(), target))
        {
            return true;
        }
        let Some(base) = &self.base else {
            return false;
        };
        let first = prefix.rsplit_once('/').map_or(prefix, |(_, first)| first);
        match target.strip_prefix(base.as_str()) {
            Some("") => true,
            Some(rest) => match rest.strip_prefix('/') {
                Some(inside) => inside.starts_with(first),
                None => false,
            },
            None => false,
        }
    }
}

/// The folder in which what has this path stands, from the current folder.
fn folder_of(path: &str) -> &str {
    match path.rsplit_once('/') {
        Some((folder, _)) => folder,
        None => HERE,
    }
}

/// Whether a folder is another one, or holds it, by their real paths.
fn holds(folder: &str, other: &str) -> bool {
    folder == "/" || folder == other || is_below(folder, other)
}

/// The real path of what a path leads to, or `None` where that is nothing, or no name for it is UTF-8.
fn real<R: Files + AllocGlobal>(rt: &R, path: &str) -> io::Result<Option<String>> {
    match fs::canonicalize(rt, path) {
        Ok(real) => Ok(Some(String::from_str(rt.alloc(), real.as_path().as_str())?)),
        Err(error)
            if is_absent(&error)
                || matches!(
                    error.kind(),
                    ErrorKind::FilesystemLoop | ErrorKind::InvalidFilename
                ) => { Ok(None) }
        Err(error) => Err(error),
    }
}

/// The first link that has a folder's place above all paths with this prefix and leads to none, if there is one.
pub fn lost_link<R: Files + AllocGlobal>(rt: &R, prefix: &str) -> io::Result<Option<String>> {
    let Some((folders, _)) = prefix.rsplit_once('/') else {
        return Ok(None);
    };
    let mut whole = String::new(rt.alloc());
    for part in folders.split('/') {
        if !whole.is_empty() {
            whole.push('/')?;
        }
        whole.push_str(part)?;
        match look_through(rt, whole.as_str())? {
            Some(metadata) if metadata.is_dir() => {}
            _ => {
                return match look(rt, whole.as_str())? {
                    Some(metadata) if metadata.is_symlink() => Ok(Some(whole)),
                    _ => Ok(None),
                };
            }
        }
    }
    Ok(None)
}
