//! What a command reads.
use std::fs::File;
use std::io::{self, ErrorKind, Read, Seek, SeekFrom, Stdin};

/// An open input.
#[derive(Drop)]
pub enum Input {
    Standard(Stdin),
    File(File),
}

/// How an input is called in messages, by its path; of none it is standard input.
pub fn called(path: Option<&str>) -> &str {
    path.unwrap_or("standard input")
}

impl Input {
    /// Opens the file of a path; of none it is standard input.
    pub fn open(rt: &HostRuntime, path: Option<&str>) -> io::Result<Input> {
        match path {
            Some(path) => Ok(Input::File(File::open(rt, path)?)),
            None => Ok(Input::Standard(rt.stdin())),
        }
    }
}

impl Read for Input {
    fn read(&mut self, buf: &mut [u8]) -> io::Result<usize> {
        match self {
            Input::Standard(stdin) => stdin.read(buf),
            Input::File(file) => file.read(buf),
        }
    }
}

impl Seek for Input {
    fn seek(&mut self, to: SeekFrom) -> io::Result<u64> {
        match self {
            Input::Standard(_) => Err(ErrorKind::Unsupported.into()),
            Input::File(file) => file.seek(to),
        }
    }
}
