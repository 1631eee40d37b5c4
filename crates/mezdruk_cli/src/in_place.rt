// Files that are changed in place: the edge to the system, which no contract describes.
use std::fs::{File, Metadata, OpenOptions};
use std::io::Write;
use std::os::unix::fs::{MetadataExt, OpenOptionsExt, fchown};
use std::{fs, io};

/// How many names are tried for the file beside.
const NAMES: u32 = 100;

// Writes the text into a new file, which gets the permissions of the file that it is to replace,
// and its owner if the system allows that.
fn fill(file: &mut File, text: &[u8], replaced: &Metadata) -> io::Result<()> {
    file.write_all(text)?;
    let _ = fchown(&*file, Some(replaced.uid()), Some(replaced.gid()));
    file.set_permissions(replaced.permissions())?;
    file.sync_all()
}

// Makes a file beside another, which has a name that is free and can be read by its owner alone.
fn create_beside(rt: &HostRuntime, path: &str) -> io::Result<(String, File)> {
    let mut options = OpenOptions::new();
    options.write(true).create_new(true).mode(0o600);
    for number in 0..NAMES {
        let name = format!(in rt.alloc(); "{path}.{number}.mezdruk")?;
        match options.open(rt, name.as_str()) {
            Ok(file) => return Ok((name, file)),
            Err(error) if error.kind() == io::ErrorKind::AlreadyExists => {}
            Err(error) => return Err(error),
        }
    }
    Err(io::Error::from(io::ErrorKind::AlreadyExists))
}

/// Replaces the content of a file. The text is written to a file beside it, which is synced, given
/// the permissions of the file, and renamed over it; a link is followed to the file that it names.
/// Where anything fails, the file is as it was, and the file beside it is removed.
pub fn replace_content(rt: &HostRuntime, path: &str, text: &[u8]) -> io::Result<()> {
    let target = fs::canonicalize(rt, path)?;
    let replaced = fs::metadata(rt, target.as_path())?;
    if !replaced.is_file() {
        return Err(io::Error::from(io::ErrorKind::InvalidInput));
    }
    let (beside, mut file) = create_beside(rt, target.as_str())?;
    let renamed = match fill(&mut file, text, &replaced) {
        Ok(()) => fs::rename(rt, beside.as_str(), target.as_path()),
        Err(error) => Err(error),
    };
    if renamed.is_err() {
        let _ = fs::remove_file(rt, beside.as_str());
    }
    renamed
}
