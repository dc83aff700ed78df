// Standard input, output and error, where the program was started with some of them closed.
use std::fs::File;
use std::os::fd::AsRawFd;

/// What no file that a device opens may have the number of.
const LAST_STREAM: i32 = 2;

/// Opens an empty file for reading in the place of each standard stream that is closed, so that no other file gets its number. What is
/// written to one of these fails, as it would to a closed one.
pub fn closed_streams(rt: &HostRuntime) -> Vec<File> {
    let mut streams = Vec::new(rt.alloc());
    for _ in 0..=LAST_STREAM {
        match File::open(rt, "/dev/null") {
            Ok(file) if file.as_raw_fd() <= LAST_STREAM => {
                if streams.push(file).is_err() {
                    break;
                }
            }
            _ => break,
        }
    }
    streams
}
