//! The folder for the scripts of a search.
use mcs_explore_report::{MARK, Saves, UserScript, is_script_name};
use mcs_lab_check::LabFault;
use mcs_plan_words::Path;
use std::alloc::Global;
use std::fs::{self, DirEntry, File};
use std::io::{self, ErrorKind, Read, Write};

/// A folder in which scripts are saved; None if none are wanted.
#[derive(Drop)]
pub struct Folder<'a> {
    rt: &'a HostRuntime,
    path: Option<&'a str>,
    is_forced: bool,
}

impl<'a> Folder<'a> {
    /// Returns the folder with this path, if one is given. Scripts overwrite other files only if
    /// `is_forced`.
    pub fn new(rt: &'a HostRuntime, path: Option<&'a str>, is_forced: bool) -> Folder<'a> {
        Folder {
            rt,
            path,
            is_forced,
        }
    }

    /// Writes a file. `AlreadyExists` if there is one that must not be overwritten.
    fn write(&self, path: &str, text: &[u8]) -> io::Result<()> {
        if self.is_forced {
            return fs::write(self.rt, path, text);
        }
        let mut file = File::create_new(self.rt, path)?;
        file.write_all(text)
    }
}

impl Saves for Folder<'_> {
    fn wants(&self) -> bool {
        self.path.is_some()
    }

    fn save(
        &mut self,
        alloc: Global,
        _script: &UserScript,
        name: &str,
        text: &[u8],
    ) -> Result<(), LabFault> {
        let Some(folder) = self.path else {
            return Ok(());
        };
        let path = format!(in alloc; "{folder}/{name}")?;
        match self.write(path.as_str(), text) {
            Ok(()) => Ok(()),
            Err(error) if error.kind() == ErrorKind::AlreadyExists => {
                let rt = self.rt;
                let path = Path(path.as_str());
                let _ = eprintln!(rt;
                    "mcslab: {path} is not a script of mcslab; --force overwrites it"
                );
                Err(LabFault::Write)
            }
            Err(error) => Err(LabFault::from(error)),
        }
    }
}

/// Returns whether a file is a script saved by a search, by its first line.
fn is_ours(rt: &HostRuntime, path: &str) -> io::Result<bool> {
    let mut file = fs::open(rt, path)?;
    let mut head = [0; MARK.len()];
    match file.read_exact(&mut head) {
        Ok(()) => Ok(head.as_slice() == MARK),
        Err(error) if error.kind() == ErrorKind::UnexpectedEof => Ok(false),
        Err(error) => Err(error),
    }
}

/// Removes a file of a folder, if it is a script of an older search.
fn remove_script(rt: &HostRuntime, entry: &DirEntry<HostRuntime>) -> io::Result<()> {
    if !is_script_name(entry.file_name()) {
        return Ok(());
    }
    let path = entry.path();
    if is_ours(rt, path.as_str())? {
        fs::remove_file(rt, path)?;
    }
    Ok(())
}

/// Makes the folder of scripts if it does not exist, tests that it is writable, and removes the
/// scripts of an older search. The error is that of the folder or of a file.
pub fn make_folder(rt: &HostRuntime, path: &str) -> Result<(), io::Error> {
    if path.is_empty() {
        return Err(io::Error::from(ErrorKind::NotFound));
    }
    fs::create_dir_all(rt, path)?;
    let Ok(probe) = format!(in rt.alloc(); "{path}/.mcslab") else {
        return Err(io::Error::from(ErrorKind::OutOfMemory));
    };
    fs::write(rt, probe.as_str(), b"")?;
    fs::remove_file(rt, probe.as_str())?;
    for entry in fs::read_dir(rt, path)? {
        remove_script(rt, &entry?)?;
    }
    Ok(())
}
