//! The file that is read.
use std::fs::{self, File};
use std::io;

/// The system's error number for a file that is a folder.
const IS_A_FOLDER: i32 = 21;

/// Opens a file to read it. The error is the system's; a folder is one.
pub fn open(rt: &HostRuntime, path: &str) -> io::Result<File> {
    let file = fs::open(rt, path)?;
    if file.metadata()?.is_dir() {
        return Err(io::Error::from_raw_os_error(IS_A_FOLDER));
    }
    Ok(file)
}
