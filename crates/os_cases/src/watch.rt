// The system's files, where each sync of a file or folder is written down.
use host_files::{Locking, Syncer, Syncing};
use std::alloc::{Allocator, Global};
use std::cell::RefCell;
use std::fs::{File, Metadata, OpenFile, OpenOptions, Permissions};
use std::io;
use std::io::{Read, Seek, SeekFrom, Write};
use std::path::PathBuf;
use std::rt::Files;
use std::time::{Clock, Duration};

/// A runtime whose files write their paths down as they are synced, each with a blank behind.
#[derive(Drop)]
pub struct Watch<'a> {
    rt: HostRuntime,
    synced: &'a RefCell<String>,
}

/// An open file or folder, with its path.
#[derive(Drop)]
pub struct WatchedFile<'a> {
    file: File,
    path: String,
    synced: &'a RefCell<String>,
}

impl<'a> Watch<'a> {
    pub fn new(rt: HostRuntime, synced: &'a RefCell<String>) -> Self {
        Watch { rt, synced }
    }
}

impl<'a> Clone for Watch<'a> {
    fn clone(&self) -> Result<Self, std::alloc::AllocError> {
        Ok(Watch {
            rt: self.rt.clone()?,
            synced: self.synced,
        })
    }
}

impl<'a> Alloc for Watch<'a> {
    type A = Global;

    fn alloc(&self) -> Global {
        self.rt.alloc()
    }
}

impl<'a> Files for Watch<'a> {
    type File = WatchedFile<'a>;

    type Dir = <HostRuntime as Files>::Dir;

    fn open_file(&self, how: &OpenOptions, path: &str) -> io::Result<WatchedFile<'a>> {
        Ok(WatchedFile {
            file: self.rt.open_file(how, path)?,
            path: String::from_str(self.rt.alloc(), path)?,
            synced: self.synced,
        })
    }

    fn open_dir(&self, path: &str) -> io::Result<<HostRuntime as Files>::Dir> {
        self.rt.open_dir(path)
    }

    fn metadata(&self, path: &str) -> io::Result<Metadata> {
        self.rt.metadata(path)
    }

    fn symlink_metadata(&self, path: &str) -> io::Result<Metadata> {
        self.rt.symlink_metadata(path)
    }

    fn copy(&self, from: &str, to: &str) -> io::Result<u64> {
        self.rt.copy(from, to)
    }

    fn rename(&self, from: &str, to: &str) -> io::Result<()> {
        self.rt.rename(from, to)
    }

    fn remove_file(&self, path: &str) -> io::Result<()> {
        self.rt.remove_file(path)
    }

    fn create_dir(&self, path: &str) -> io::Result<()> {
        self.rt.create_dir(path)
    }

    fn remove_dir(&self, path: &str) -> io::Result<()> {
        self.rt.remove_dir(path)
    }

    fn remove_dir_all<B: Allocator>(&self, alloc: B, path: &str) -> io::Result<()> {
        self.rt.remove_dir_all(alloc, path)
    }

    fn read_link<B: Allocator>(&self, alloc: B, path: &str) -> io::Result<PathBuf<B>> {
        self.rt.read_link(alloc, path)
    }

    fn set_permissions(&self, path: &str, perm: Permissions) -> io::Result<()> {
        self.rt.set_permissions(path, perm)
    }

    fn symlink(&self, original: &str, link: &str) -> io::Result<()> {
        self.rt.symlink(original, link)
    }
}

impl<'a> OpenFile for WatchedFile<'a> {
    fn metadata(&self) -> io::Result<Metadata> {
        self.file.metadata()
    }

    fn set_len(&self, size: u64) -> io::Result<()> {
        self.file.set_len(size)
    }

    fn sync_all(&self) -> io::Result<()> {
        self.file.sync_all()?;
        let Ok(mut synced) = self.synced.try_borrow_mut() else {
            return Err(io::Error::from(io::ErrorKind::ResourceBusy));
        };
        synced.push_str(self.path.as_str())?;
        synced.push(' ')?;
        Ok(())
    }

    fn sync_data(&self) -> io::Result<()> {
        self.file.sync_data()
    }

    fn set_permissions(&self, perm: Permissions) -> io::Result<()> {
        self.file.set_permissions(perm)
    }
}

impl<'a> Read for WatchedFile<'a> {
    fn read(&mut self, buf: &mut [u8]) -> io::Result<usize> {
        self.file.read(buf)
    }
}

impl<'a> Write for WatchedFile<'a> {
    fn write(&mut self, buf: &[u8]) -> io::Result<usize> {
        self.file.write(buf)
    }

    fn flush(&mut self) -> io::Result<()> {
        self.file.flush()
    }
}

impl<'a> Seek for WatchedFile<'a> {
    fn seek(&mut self, to: SeekFrom) -> io::Result<u64> {
        self.file.seek(to)
    }
}

impl<'a> Locking for Watch<'a> {
    fn take_lock(&self, path: &str) -> io::Result<File> {
        self.rt.take_lock(path)
    }

    fn find_lock(&self, path: &str) -> io::Result<File> {
        self.rt.find_lock(path)
    }

    fn wait_lock(&self, path: &str) -> io::Result<File> {
        self.rt.wait_lock(path)
    }
}

/// A clock by which each sync takes a second or more, so that it depends on no machine which syncs are slow.
impl<'a> Clock for Watch<'a> {
    fn monotonic(&self) -> io::Result<Duration> {
        match self.synced.try_borrow() {
            Ok(synced) => Ok(Duration::from_secs(synced.len() as u64)),
            Err(_) => Err(io::Error::from(io::ErrorKind::ResourceBusy)),
        }
    }

    fn since_1970(&self) -> io::Result<Duration> {
        self.rt.since_1970()
    }
}

impl<'a> Syncing for Watch<'a> {
    fn start_syncer(&self, _folder: &str) -> io::Result<Option<Syncer>> {
        Ok(None)
    }

    fn sync_all_of(&self, folder: &str) -> io::Result<bool> {
        if self.rt.symlink_metadata("no-sync").is_ok() {
            return Ok(false);
        }
        if self.rt.symlink_metadata("failing-sync").is_ok() {
            return Err(io::Error::new(io::ErrorKind::Other, "it is made to fail"));
        }
        let is_done = self.rt.sync_all_of(folder)?;
        let Ok(mut synced) = self.synced.try_borrow_mut() else {
            return Err(io::Error::from(io::ErrorKind::ResourceBusy));
        };
        synced.push_str("all ")?;
        Ok(is_done)
    }
}
