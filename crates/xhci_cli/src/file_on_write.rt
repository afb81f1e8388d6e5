//! A file that stands only where something was written to it.
use std::fs::File;
use std::io::{self, ErrorKind, Write};

/// A file that the first write creates, or empties where there is one. A flush waits until the device has what was written.
#[derive(Drop)]
pub struct FileOnWrite<'a> {
    rt: &'a HostRuntime,
    path: &'a str,
    file: Option<File>,
}

impl<'a> FileOnWrite<'a> {
    /// The file of a path, which isn't touched yet.
    pub fn at(rt: &'a HostRuntime, path: &'a str) -> FileOnWrite<'a> {
        FileOnWrite {
            rt,
            path,
            file: None,
        }
    }

    /// The file of a path, which isn't touched yet; of none there is no file.
    pub fn named(rt: &'a HostRuntime, path: Option<&'a str>) -> Option<FileOnWrite<'a>> {
        let path = path?;
        Some(FileOnWrite::at(rt, path))
    }
}

impl<'a> Write for FileOnWrite<'a> {
    fn write(&mut self, buf: &[u8]) -> io::Result<usize> {
        if let Some(file) = &mut self.file {
            return file.write(buf);
        }
        let mut file = File::create(self.rt, self.path)?;
        let written = file.write(buf);
        self.file = Some(file);
        written
    }

    fn flush(&mut self) -> io::Result<()> {
        match &self.file {
            Some(file) => synchronize(file),
            None => Ok(()),
        }
    }
}

/// Waits until the device has what was written: only that may tell that it couldn't be kept. A pipe or a terminal has no such wait.
fn synchronize(file: &File) -> io::Result<()> {
    match file.sync_all() {
        Err(error) if error.kind() == ErrorKind::InvalidInput => Ok(()),
        done => done,
    }
}
