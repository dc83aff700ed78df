// What stands in the way of a file that a fault names as missing.
use std::rt::Files;
use std::{fs, io};

/// What is said of the path of a missing file, if the real files tell why: a path that leads out of the project's folder, a link on
/// the way that leads to nothing, or something else than a file at its end. `None` where nothing stands there.
pub fn reason_at(rt: &HostRuntime, path: &str) -> io::Result<Option<String>> {
    if path.starts_with('/') {
        return outside(rt, path);
    }
    let mut parts = Vec::new(rt.alloc());
    for part in path.split('/') {
        match part {
            "" | "." => {}
            ".." if parts.pop().is_none() => return outside(rt, path),
            ".." => {}
            part => parts.push(part)?,
        }
    }
    reason_of(rt, parts.as_slice())
}

/// What is said of a layer whose file `conf/layer.conf` is missing: the same, or that the layer itself is, or that only the file is.
pub fn layer_reason(rt: &HostRuntime, layer: &str) -> io::Result<Option<String>> {
    let file = format!(in rt.alloc(); "{layer}/conf/layer.conf")?;
    if let Some(reason) = reason_at(rt, file.as_str())? {
        return Ok(Some(reason));
    }
    let said = match fs::metadata(rt, layer) {
        Ok(there) if there.is_dir() => {
            format!(in rt.alloc(); "the folder {layer} is there, and has no file conf/layer.conf")?
        }
        Ok(_) => format!(in rt.alloc(); "{layer} is no folder")?,
        Err(_) => format!(in rt.alloc(); "there is no folder {layer}")?,
    };
    Ok(Some(said))
}

/// That a path leads out of the project's folder.
fn outside(rt: &HostRuntime, path: &str) -> io::Result<Option<String>> {
    Ok(Some(format!(in rt.alloc();
        "{path} doesn't lead from the project's folder to something in it, and nothing else is read; a link in the project may lead there"
    )?))
}

/// The same of a path by its parts.
fn reason_of(rt: &HostRuntime, parts: &[&str]) -> io::Result<Option<String>> {
    let mut whole = String::new(rt.alloc());
    for part in parts {
        if !whole.is_empty() {
            whole.push('/')?;
        }
        whole.push_str(part)?;
        match fs::metadata(rt, whole.as_str()) {
            Ok(there) if there.is_dir() => {}
            Ok(there) if there.is_file() => return Ok(None),
            _ => return reason_for(rt, whole.as_str()),
        }
    }
    Ok(Some(format!(in rt.alloc(); "{} is a folder", whole.as_str())?))
}

/// What is said of a path that leads to neither a folder nor a file: of a link, that it does.
fn reason_for(rt: &HostRuntime, path: &str) -> io::Result<Option<String>> {
    match fs::symlink_metadata(rt, path) {
        Ok(there) if there.is_symlink() => {
            let said = match fs::metadata(rt, path) {
                Ok(_) => format!(in rt.alloc(); "{path} is a link to something that is no file")?,
                Err(_) => format!(in rt.alloc(); "{path} is a link that leads nowhere")?,
            };
            Ok(Some(said))
        }
        _ => Ok(None),
    }
}
