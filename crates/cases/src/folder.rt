// The files of the current folder.
use std::{fs, io};

/// The names in a folder, in the order of their bytes; none where it is no folder.
pub fn names_in(rt: &HostRuntime, path: &str) -> io::Result<Vec<String>> {
    let mut names = Vec::new(rt.alloc());
    if fs::metadata(rt, path)?.is_dir() {
        for entry in fs::read_dir(rt, path)? {
            names.push(String::from_str(rt.alloc(), entry?.file_name())?)?;
        }
    }
    names.sort()?;
    Ok(names)
}

/// The text of a file.
pub fn read_text(rt: &HostRuntime, path: &str) -> io::Result<String> {
    fs::read_to_string(rt, path)
}
