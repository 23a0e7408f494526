//! Folders, which are walked for the files in them.

ghost use Rattle.std.specs.Prelude.{◌≡◌, IfErr};

use crate::words::escaped;
use mp4_io::{Failure, read_failure};
use std::alloc::AllocError;
use std::fs::DirEntry;
use std::io::ErrorKind;
use std::{fs, io};

/// The files in folders.
#[derive(Debug, Drop)]
pub struct Listed {
    /// The paths of the files, in order.
    pub files: Vec<String>,
    /// True if a folder, or a name in one, could not be read.
    pub failed: bool,
}

/// Prints to standard error that `program` could not read a folder, or a name in it.
fn tell(
    rt: &HostRuntime,
    program: &str,
    folder: &str,
    error: &io::Error,
) -> Result<(), AllocError> {
    let shown = escaped(rt.alloc(), folder)?;
    let _ = match error.kind() {
        ErrorKind::InvalidFilename => eprintln!(rt;
            "{program}: {shown}: a name in this folder is not UTF-8, and only names that are can be opened"
        ),
        _ => eprintln!(rt; "{program}: {shown}: {error}"),
    };
    Ok(())
}

/// Returns the failure if memory was refused. Otherwise prints the error of `folder` to standard error.
fn or_tell(rt: &HostRuntime, program: &str, folder: &str, error: &io::Error) -> Result<(), Failure>
    ensures memory { IfErr result (λ failure. failure ≡ Failure.Memory) }
{
    match read_failure(error) {
        Failure::Memory => Err(Failure::Memory),
        Failure::Read | Failure::Write => Ok(tell(rt, program, folder, error)?),
    }
}

/// Returns whether `name` is a folder, or a symbolic link to one. `-` is the standard input.
fn is_folder(rt: &HostRuntime, name: &str) -> bool {
    match fs::metadata(rt, name) {
        Ok(metadata) => name != "-" && metadata.is_dir(),
        Err(_) => false,
    }
}

/// Appends the path of `entry` to `paths`, if it is a regular file or a folder. The path of a folder ends with a slash.
fn push_entry(rt: &HostRuntime, entry: &DirEntry, paths: &mut Vec<String>) -> io::Result<()> {
    let kind = entry.file_type()?;
    if kind.is_file() || kind.is_dir() {
        let mut path = String::from_str(rt.alloc(), entry.path().to_string_lossy())?;
        if kind.is_dir() {
            path.push('/')?;
        }
        paths.push(path)?;
    }
    Ok(())
}

/// Appends `path` to `paths`.
fn push(paths: &mut Vec<String>, path: String) -> Result<(), AllocError> {
    paths.push(path)?;
    Ok(())
}

impl Listed {
    /// Appends to `paths` those of the regular files and folders in `folder`, sorted from the last to the first.
    /// `program` prints to standard error what can't be read.
    fn push_folder(
        &mut self,
        rt: &HostRuntime,
        program: &str,
        folder: &str,
        paths: &mut Vec<String>,
    ) -> Result<(), Failure>
        ensures memory { IfErr result (λ failure. failure ≡ Failure.Memory) }
    {
        let entries = match fs::read_dir(rt, folder) {
            Ok(entries) => entries,
            Err(error) => {
                self.failed = true;
                return or_tell(rt, program, folder, &error);
            }
        };
        let mut inside = Vec::new(rt.alloc());
        for entry in entries {
            let pushed = match entry {
                Ok(entry) => push_entry(rt, &entry, &mut inside),
                Err(error) => Err(error),
            };
            if let Err(error) = pushed {
                self.failed = true;
                or_tell(rt, program, folder, &error)?;
            }
        }
        inside.sort()?;
        for path in inside.into_iter().rev() {
            push(paths, path)?;
        }
        Ok(())
    }

    /// Appends `name`, or the files in it and in the folders below it if it is a folder.
    fn push_below(&mut self, rt: &HostRuntime, program: &str, name: String) -> Result<(), Failure>
        ensures memory { IfErr result (λ failure. failure ≡ Failure.Memory) }
    {
        let mut paths = Vec::new(rt.alloc());
        push(&mut paths, name)?;
        for _ in 0..u64::MAX {
            let Some(path) = paths.pop() else {
                return Ok(());
            };
            if is_folder(rt, path.as_str()) {
                self.push_folder(rt, program, path.as_str(), &mut paths)?;
            } else {
                push(&mut self.files, path)?;
            }
        }
        Err(Failure::Memory)
    }
}

/// Returns `names` with each folder replaced by the regular files in it and in the folders below it, in the order of
/// the bytes of their paths. Symbolic links in folders are left out. If a folder can't be read, `program` prints the
/// reason to standard error, and the others are read. Fails only if memory is refused.
pub fn files_below(rt: &HostRuntime, program: &str, names: &[String]) -> Result<Listed, Failure>
    ensures memory { IfErr result (λ failure. failure ≡ Failure.Memory) }
{
    let mut listed = Listed {
        files: Vec::new(rt.alloc()),
        failed: false,
    };
    for name in names {
        listed.push_below(rt, program, String::from_str(rt.alloc(), name.as_str())?)?;
    }
    Ok(listed)
}
