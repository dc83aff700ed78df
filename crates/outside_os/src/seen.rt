// The folders above a disk's entries that needn't be looked at again.
use host_files::{look, look_through, make_folder};
use std::alloc::Global;
use std::collections::BTreeSet;
use std::fs::Metadata;
use std::io;
use std::os::unix::fs::MetadataExt;
use std::rt::Files;
use tree_model::is_below;

/// Folders inside a root that were seen or made, by their paths from the current folder. Who takes a folder away, or lays
/// something else in its place, has to say so by `forget`.
#[derive(Drop)]
pub struct SeenFolders {
    folders: BTreeSet<String>,

    /// The device of the first folder that was seen, and whether a folder on another one was.
    device: Option<u64>,
    is_spread: bool,
}

impl SeenFolders {
    /// No folder so far.
    pub fn none(alloc: Global) -> Self {
        SeenFolders {
            folders: BTreeSet::new(alloc),
            device: None,
            is_spread: false,
        }
    }

    /// Whether each folder that was seen stands on the file system of a root.
    pub fn are_on<R: Files>(&self, rt: &R, root: &str) -> io::Result<bool> {
        if self.is_spread {
            return Ok(false);
        }
        match (look_through(rt, root)?, self.device) {
            (Some(metadata), Some(device)) => Ok(metadata.dev() == device),
            (Some(_), None) => Ok(true),
            (None, _) => Ok(false),
        }
    }

    /// Whether all that a path has above it, inside the root, are folders and no links to folders.
    pub fn is_reached<R: Files + AllocGlobal>(
        &mut self,
        rt: &R,
        root: &str,
        path: &str,
    ) -> io::Result<bool> {
        let Some((above, _)) = path.rsplit_once('/') else {
            return Ok(true);
        };
        let mut folder = String::from_str(rt.alloc(), root)?;
        for part in above.split('/') {
            folder.push('/')?;
            folder.push_str(part)?;
            if !self.is_folder(rt, folder.as_str())? {
                return Ok(false);
            }
        }
        Ok(true)
    }

    /// Makes the folders that a path has above it, inside a root that is there, where they are missing. A file or link in
    /// the place of one is an error.
    pub fn make_above<R: Files + AllocGlobal>(
        &mut self,
        rt: &R,
        root: &str,
        path: &str,
    ) -> io::Result<()> {
        let Some((above, _)) = path.rsplit_once('/') else {
            return Ok(());
        };
        let mut folder = String::from_str(rt.alloc(), root)?;
        for part in above.split('/') {
            folder.push('/')?;
            folder.push_str(part)?;
            self.make(rt, folder.as_str())?;
        }
        Ok(())
    }

    /// Forgets a folder and all below it.
    pub fn forget(&mut self, folder: &str) {
        if self.folders.contains(folder) {
            self.folders.retain(|seen| seen.as_str() != folder && !is_below(folder, seen.as_str()));
        }
    }

    /// Forgets a folder that was taken away while nothing stood in it.
    pub fn forget_empty(&mut self, folder: &str) {
        self.folders.remove(folder);
    }

    /// Whether a folder, and no link to one, stands at a path.
    fn is_folder<R: Files + AllocGlobal>(&mut self, rt: &R, path: &str) -> io::Result<bool> {
        if self.folders.contains(path) {
            return Ok(true);
        }
        match look(rt, path)? {
            Some(metadata) if metadata.is_dir() => {
                self.note(&metadata);
                self.folders.insert(String::from_str(rt.alloc(), path)?)?;
                Ok(true)
            }
            _ => Ok(false),
        }
    }

    /// Makes a folder at a path, unless one is there.
    fn make<R: Files + AllocGlobal>(&mut self, rt: &R, path: &str) -> io::Result<()> {
        if !self.folders.contains(path) {
            if let Some(metadata) = make_folder(rt, path)? {
                self.note(&metadata);
            }
            self.folders.insert(String::from_str(rt.alloc(), path)?)?;
        }
        Ok(())
    }

    /// Notes on which file system a folder stands.
    fn note(&mut self, metadata: &Metadata) {
        match self.device {
            Some(device) if device != metadata.dev() => self.is_spread = true,
            Some(_) => {}
            None => self.device = Some(metadata.dev()),
        }
    }
}
