//! Where the output goes: to standard output, or to a file that is replaced when all is written.

use std::fs::{self, File, OpenFile};
use std::io::{self, Write};
use std::process;
use std::rt::Stdout;

/// Standard output, or a file.
#[derive(Drop)]
enum Sink {
    Stdout(Stdout),
    File(File),
}

/// The writer of a conversion. It counts what was written.
#[derive(Drop)]
pub struct Target<'a> {
    sink: Sink,
    /// The name of the file, for messages.
    pub name: &'a str,
    /// The file that is written in its place, and what it replaces at the end.
    draft: Option<Draft>,
    /// How many bytes were written.
    pub written: u64,
}

/// A file beside the one that is to be written.
#[derive(Drop)]
struct Draft {
    path: String,
    target: String,
}

impl<'a> Target<'a> {
    /// Opens the output. A regular file stays as it is until `finish`. Any other file, such as a
    /// device, is written directly.
    pub fn open(rt: &HostRuntime, output: Option<&'a str>) -> io::Result<Target<'a>> {
        let Some(name) = output else {
            return Ok(Target {
                sink: Sink::Stdout(rt.stdout()),
                name: "standard output",
                draft: None,
                written: 0,
            });
        };
        let (file, draft) = open_file(rt, name)?;
        Ok(Target {
            sink: Sink::File(file),
            name,
            draft,
            written: 0,
        })
    }

    /// Puts the file that was written in the place of the old one.
    pub fn finish(&self, rt: &HostRuntime) -> io::Result<()> {
        match &self.draft {
            Some(draft) => fs::rename(rt, &draft.path, &draft.target),
            None => Ok(()),
        }
    }

    /// Removes the draft, and leaves the old file. It returns false if there was no draft.
    pub fn give_up(&self, rt: &HostRuntime) -> bool {
        match &self.draft {
            Some(draft) => {
                let _ = fs::remove_file(rt, &draft.path);
                true
            }
            None => false,
        }
    }
}

impl Write for Target<'_> {
    fn write(&mut self, buf: &[u8]) -> io::Result<usize> {
        let count = match &mut self.sink {
            Sink::Stdout(stdout) => stdout.write(buf)?,
            Sink::File(file) => file.write(buf)?,
        };
        self.written = self.written.saturating_add(count as u64);
        Ok(count)
    }

    fn flush(&mut self) -> io::Result<()> {
        // Neither sink has a buffer.
        Ok(())
    }
}

/// Opens the draft for a file, with the permissions of that file if it is there. What is no regular
/// file, such as a device, is opened itself, and has no draft.
fn open_file(rt: &HostRuntime, name: &str) -> io::Result<(File, Option<Draft>)> {
    let Ok(old) = fs::metadata(rt, name) else {
        let (file, draft) = open_draft(rt, name)?;
        return Ok((file, Some(draft)));
    };
    if !old.is_file() {
        let file = File::options().write(true).open(rt, name)?;
        return Ok((file, None));
    }
    let (file, draft) = open_draft(rt, name)?;
    let _ = OpenFile::set_permissions(&file, old.permissions());
    Ok((file, Some(draft)))
}

/// Creates the draft for a file.
fn open_draft(rt: &HostRuntime, name: &str) -> io::Result<(File, Draft)> {
    let draft = draft_of(rt, name)?;
    let file = File::create_new(rt, draft.path.as_str())?;
    Ok((file, draft))
}

/// Names the draft for a file. Through a link, the file that it leads to is replaced.
fn draft_of(rt: &HostRuntime, name: &str) -> io::Result<Draft> {
    let target = match fs::canonicalize(rt, name) {
        Ok(path) => path.into_os_string(),
        Err(_) => name.to_string(rt.alloc())?,
    };
    let id = process::id(rt.process());
    let path = format!(in rt.alloc(); "{target}.cesu8conv-{id}")?;
    Ok(Draft { path, target })
}
