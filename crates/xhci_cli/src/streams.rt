//! Standard streams that were closed when the program began.
use std::fs::File;
use std::io;
use std::os::fd::{AsFd, IntoRawFd};

/// The file that stands in for a closed stream.
pub const NULL: &str = "/dev/null";

/// `EBADF`, the system's error that a number is no open file's.
const NO_OPEN_FILE: i32 = 9;

/// Sees that the numbers of the three standard streams are taken, so that no file that the program opens becomes one of them. One that
/// was closed is the null device from now on, opened the wrong way round, so that each read or write of it fails as of a closed one.
pub fn hold_streams(rt: &HostRuntime) -> io::Result<()> {
    if is_closed(&rt.stdin()) {
        let mut options = File::options();
        options.write(true);
        keep_open(options.open(rt, NULL)?);
    }
    if is_closed(&rt.stdout()) {
        keep_open(File::open(rt, NULL)?);
    }
    if is_closed(&rt.stderr()) {
        keep_open(File::open(rt, NULL)?);
    }
    Ok(())
}

/// Whether a stream is closed: another descriptor of it is refused for that.
fn is_closed<S: AsFd>(stream: &S) -> bool {
    match stream.as_fd().try_clone_to_owned() {
        Ok(_) => false,
        Err(error) => error.raw_os_error() == Some(NO_OPEN_FILE),
    }
}

/// Keeps a file open until the process ends. It has the least number that was free.
fn keep_open(file: File) {
    let _number = file.into_raw_fd();
}
