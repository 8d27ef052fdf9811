//! A file of the system put whole: written under a free name beside it, and then renamed to it; or in place, where
//! nothing can be renamed.

use std::alloc::Global;
use std::fs::{File, OpenFile, OpenOptions, Permissions};
use std::io::{ErrorKind, Seek, Write};
use std::os::unix::fs::{MetadataExt, OpenOptionsExt, PermissionsExt};
use std::rt::Files;
use std::{fs, io};

// How many names beside a file are tried: more than killed puts leave on any disk.
const MOST_TRIES: u32 = 1_000_000;

// Permissions of a new file, which the system lessens by the user's mask.
const NEW_MODE: u32 = 0o666;

// Permissions of a file that is to replace another, until it has those of the other.
const OWNER_MODE: u32 = 0o600;

// What is kept of the other's mode: who may read, write and run it, and neither set-uid nor set-gid.
const KEPT_BITS: u32 = 0o777;

// What a name is found to be.
#[derive(Drop)]
enum Found {
    Nothing,
    File(Permissions),
    Link,
    Other,
}

// A link is not followed.
fn found_at<R: Files>(rt: &R, name: &str) -> Found {
    match fs::symlink_metadata(rt, name) {
        Ok(known) if known.is_file() => Found::File(Permissions::from_mode(
            known.permissions().mode() & KEPT_BITS,
        )),
        Ok(known) if known.is_symlink() => Found::Link,
        Err(e) if e.kind() == ErrorKind::NotFound => Found::Nothing,
        _ => Found::Other,
    }
}

// Whether a name is an open file of a process, which is written as it is open there, and not replaced.
fn is_open_file(name: &str) -> bool {
    name.starts_with("/dev/") || name.starts_with("/proc/")
}

// The name of the regular file that a link leads to, without links, where the system itself follows the link there.
fn target_of<R: Files>(rt: &R, alloc: Global, link: &str) -> Option<String> {
    let Ok(known) = fs::metadata(rt, link) else {
        return None;
    };
    if !known.is_file() || is_open_file(link) {
        return None;
    }
    let Ok(path) = rt.canonicalize(alloc, link) else {
        return None;
    };
    let target = path.into_string();
    let Ok(found) = fs::symlink_metadata(rt, target.as_str()) else {
        return None;
    };
    (found.dev() == known.dev() && found.ino() == known.ino()).then_some(target)
}

// A file that was not there before. The call fails where anything has the name, be it a link to nothing.
fn open_new<R: Files>(rt: &R, name: &str, mode: u32) -> io::Result<R::File> {
    OpenOptions::new()
        .write(true)
        .create_new(true)
        .mode(mode)
        .open(rt, name)
}

// A new file beside a name, under the first name that is free, and that name.
fn file_beside<R: Files>(
    rt: &R,
    alloc: Global,
    name: &str,
    mode: u32,
) -> io::Result<(String, R::File)> {
    for number in 0..MOST_TRIES {
        let beside = format!(in alloc; "{name}.{number}.part")?;
        match open_new(rt, &beside, mode) {
            Ok(file) => return Ok((beside, file)),
            Err(e) if e.kind() == ErrorKind::AlreadyExists => {}
            Err(e) => return Err(e),
        }
    }
    Err(io::Error::from(ErrorKind::AlreadyExists))
}

// Whether all is written down to the disk. A pipe, a device and some systems of files have no such call.
fn synced(done: io::Result<()>) -> io::Result<()> {
    match done {
        Err(e) if matches!(e.kind(), ErrorKind::InvalidInput | ErrorKind::Unsupported) => Ok(()),
        done => done,
    }
}

// Why a file was not written beside a name and renamed to it.
#[derive(Drop)]
enum Stop {
    // The system refuses a file there, or its renaming, where it may still take the bytes in place.
    Refused,
    Failed(io::Error),
}

// What an error stops of a call that makes, marks or renames a file. Refused are: a folder that may not be written, or
// is on a disk that may not; another's file in a folder where only its owner may rename it; a name on which a file is
// mounted, or that is on another disk; a name beside it that is too long; no free name beside it, or no memory for one;
// permissions on a disk that has none.
fn stop_of(e: io::Error) -> Stop {
    match e.kind() {
        ErrorKind::PermissionDenied
        | ErrorKind::ReadOnlyFilesystem
        | ErrorKind::ResourceBusy
        | ErrorKind::CrossesDevices
        | ErrorKind::InvalidFilename
        | ErrorKind::AlreadyExists
        | ErrorKind::OutOfMemory
        | ErrorKind::Unsupported => Stop::Refused,
        _ => Stop::Failed(e),
    }
}

// Writes a new file whole and down to the disk, with the permissions of the file that it is to replace.
fn fill<F: Write + OpenFile>(
    file: &mut F,
    bytes: &[u8],
    kept: Option<Permissions>,
) -> Result<(), Stop> {
    if let Err(e) = file.write_all(bytes) {
        return Err(Stop::Failed(e));
    }
    if let Some(permissions) = kept {
        if let Err(e) = file.set_permissions(permissions) {
            return Err(stop_of(e));
        }
    }
    synced(file.sync_all()).map_err(Stop::Failed)
}

// The folder that a name is in.
fn folder_of(name: &str) -> &str {
    match name.rsplit_once('/') {
        Some(("", _)) => "/",
        Some((folder, _)) => folder,
        None => ".",
    }
}

// Writes a name that was changed down to the disk. A folder that may not be read cannot be opened for that.
fn sync_folder<R: Files>(rt: &R, folder: &str) -> io::Result<()> {
    match File::open(rt, folder) {
        Ok(opened) => synced(opened.sync_all()),
        Err(_) => Ok(()),
    }
}

// Makes a name hold these bytes by a file beside it. Where that stops, the old file stays, but where only the name was
// not written down to the disk.
fn put_beside<R: Files>(
    rt: &R,
    alloc: Global,
    name: &str,
    bytes: &[u8],
    kept: Option<Permissions>,
) -> Result<(), Stop> {
    let mode = if kept.is_some() { OWNER_MODE } else { NEW_MODE };
    let (beside, mut file) = match file_beside(rt, alloc, name, mode) {
        Ok(made) => made,
        Err(e) => return Err(stop_of(e)),
    };
    let filled = fill(&mut file, bytes, kept);
    drop(file);
    let done = match filled {
        Ok(()) => fs::rename(rt, &beside, name).map_err(stop_of),
        Err(stop) => Err(stop),
    };
    if done.is_err() {
        let _removed = fs::remove_file(rt, &beside);
    }
    drop(beside);
    match done {
        Ok(()) => sync_folder(rt, folder_of(name)).map_err(Stop::Failed),
        Err(stop) => Err(stop),
    }
}

// Cuts away what stands in a file behind the bytes that were written. Where none were, the file stays as it is.
fn cut<F: Seek + OpenFile>(file: &mut F, done: bool) -> io::Result<()> {
    let known = file.metadata()?;
    if !known.is_file() {
        return Ok(());
    }
    let at = file.stream_position()?;
    if at < known.len() && (done || at > 0) {
        return file.set_len(at);
    }
    Ok(())
}

// A file that is there, or else a new one. Where one is there it is opened as such: some systems let nobody make what
// is another's in a folder for all.
fn open_in_place<R: Files>(rt: &R, name: &str) -> io::Result<R::File> {
    match OpenOptions::new().write(true).open(rt, name) {
        Err(e) if e.kind() == ErrorKind::NotFound => OpenOptions::new()
            .write(true)
            .create(true)
            .open(rt, name),
        opened => opened,
    }
}

// Writes a name as it is: a file's bytes from its front on, and what it had behind them is cut away when they are
// there.
fn put_in_place<R: Files>(rt: &R, name: &str, bytes: &[u8]) -> io::Result<()> {
    let mut file = open_in_place(rt, name)?;
    let done = file.write_all(bytes);
    cut(&mut file, done.is_ok())?;
    done?;
    synced(file.sync_all())
}

// Makes a name that leads to no other hold these bytes.
fn put_found<R: Files>(
    rt: &R,
    alloc: Global,
    name: &str,
    bytes: &[u8],
    found: Found,
) -> io::Result<()> {
    let kept = match found {
        Found::Nothing => None,
        Found::File(permissions) => Some(permissions),
        Found::Link | Found::Other => return put_in_place(rt, name, bytes),
    };
    match put_beside(rt, alloc, name, bytes, kept) {
        Ok(()) => Ok(()),
        Err(Stop::Refused) => put_in_place(rt, name, bytes),
        Err(Stop::Failed(e)) => Err(e),
    }
}

/// Makes a name hold these bytes. A link to a regular file stays, and that file is put whole. A device, a pipe, an open
/// file of a process and what any other link leads to are written in place, and so is a file where none may be made
/// beside it or renamed to it.
pub(crate) fn put_at<R: Files>(rt: &R, alloc: Global, name: &str, bytes: &[u8]) -> io::Result<()> {
    match found_at(rt, name) {
        Found::Link => match target_of(rt, alloc, name) {
            Some(target) => put_found(rt, alloc, &target, bytes, found_at(rt, &target)),
            None => put_in_place(rt, name, bytes),
        },
        found => put_found(rt, alloc, name, bytes, found),
    }
}
