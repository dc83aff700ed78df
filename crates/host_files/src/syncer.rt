// A process that makes all durable whenever it is asked to.
use crate::own::SYSTEM_PATH;
use std::alloc::Global;
use std::io;
use std::io::{ErrorKind, Read, Write};
use std::process::{Child, Command, Stdio};

/// Makes all durable at each line that it reads, and answers with a line: an empty one, or why it couldn't. It opens the folder anew each time, so that
/// the system tells it of all that couldn't be written and that nobody was told of; `syncfs` is 306 and O_DIRECTORY 65536 on this processor.
const AT_EACH_LINE: &str = "$| = 1; while (<STDIN>) { \
    print sysopen(my $folder, $ARGV[0], 65536) && !syscall(306, fileno($folder)) ? \"\\n\" : \"$!\\n\" }";

/// The most bytes of an answer.
const ANSWER: usize = 4096;

/// A process that makes all durable that stands on the file system of a folder, as often as it is asked to. It ends where it is dropped.
#[derive(Drop)]
pub struct Syncer {
    child: Child,
}

impl Syncer {
    /// Starts it for a folder. `None` where the machine has nothing that can do it.
    pub fn start(rt: &HostRuntime, folder: &str) -> io::Result<Option<Self>> {
        let mut command = Command::new(rt.alloc(), "perl")?;
        command.env_clear();
        command.env("PATH", SYSTEM_PATH)?;
        command.arg("-e")?;
        command.arg(AT_EACH_LINE)?;
        command.arg(folder)?;
        command.stdin(Stdio::piped());
        command.stdout(Stdio::piped());
        command.stderr(Stdio::null());
        match command.spawn(rt) {
            Ok(child) => Ok(Some(Syncer { child })),
            Err(error) if error.kind() == ErrorKind::NotFound => Ok(None),
            Err(error) => Err(error),
        }
    }

    /// Makes all durable, and waits for it.
    pub fn sync(&mut self, alloc: Global) -> io::Result<()> {
        if let Some(input) = &mut self.child.stdin {
            if input.write_all(b"\n").is_err() {
                return Err(has_ended());
            }
        }
        let answer = self.answer(alloc)?;
        if answer.as_str() == "\n" {
            return Ok(());
        }
        let said = format!(in alloc; "syncfs failed: {}", answer.as_str().trim_end())?;
        Err(io::Error::new(ErrorKind::Other, said.as_str()))
    }

    /// The next line that it answers, with its end; what it wrote, where it ended.
    fn answer(&mut self, alloc: Global) -> io::Result<String> {
        let mut bytes = Vec::new(alloc);
        if let Some(output) = &mut self.child.stdout {
            for _ in 0..ANSWER {
                let mut byte = [0u8; 1];
                if output.read(&mut byte)? == 0 {
                    break;
                }
                bytes.push(byte[0])?;
                if byte[0] == b'\n' {
                    break;
                }
            }
        }
        if bytes.is_empty() {
            return Err(has_ended());
        }
        String::from_utf8(bytes).map_err(|_| io::Error::from(ErrorKind::InvalidData))
    }
}

fn has_ended() -> io::Error {
    io::Error::new(ErrorKind::UnexpectedEof, "the process that syncs has ended")
}
