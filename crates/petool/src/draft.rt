//! `Draft`: a file that is written beside the one that it replaces.

ghost use Rattle.std.specs.Prelude.{◌≤◌, length, IfOk};

use std::alloc::Allocator;
use std::fs::{self, File, Metadata, OpenFile, OpenOptions, Permissions};
use std::io::{self, Error, ErrorKind, Read, Seek, SeekFrom, Write};
use std::os::fd::AsFd;
use std::os::unix::fs::{MetadataExt, PermissionsExt, fchown};
use std::path::{Path, PathBuf};
use std::rt::Files;

/// How many names are tried for a draft.
const DRAFT_NAMES: u32 = 100;

/// Where Linux gives random bytes. In a folder that others may write, whoever can tell a draft's name before can stand in its way.
const RANDOM: &str = "/dev/urandom";

/// As many zero bytes as a piece may have that is left out of the file.
static ZEROS: [u8; 1 << 12] = [0; 1 << 12];

/// The file in which Linux lists the limits of a process, and what the line of the size of files begins with.
const LIMITS: &str = "/proc/self/limits";

const FILE_SIZE_LIMIT: &str = "Max file size";

/// The number of Linux's error for a file that is larger than its limit: EFBIG.
const FILE_TOO_LARGE: i32 = 27;

/// A new file in the folder of the place where it is to be.
#[derive(Drop)]
pub(crate) struct Draft<F, A: Allocator> {
    file: F,
    path: PathBuf<A>,
    place: PathBuf<A>,
    /// How many bytes may still be written.
    left: u64,
    /// How many bytes it has so far.
    len: u64,
    /// Whether its last bytes, which are 0, are not written: a hole, for which a file system that can keeps no blocks.
    ends_in_hole: bool,
}

/// Whether a piece is left out: it has no byte but 0.
fn is_hole(bytes: &[u8]) -> bool {
    !bytes.is_empty() && bytes.len() <= ZEROS.len() && bytes == &ZEROS[..bytes.len()]
}

/// Whether the file at a place may be written, or why not: a file that is protected is not replaced either. None may be there.
fn check_protection(rt: &impl Files, place: Path<'_>) -> io::Result<()> {
    match OpenOptions::new().write(true).open(rt, place) {
        Ok(_file) => Ok(()),
        Err(error) if error.kind() == ErrorKind::NotFound => Ok(()),
        Err(error) => Err(error),
    }
}

/// A number that nobody can foresee.
fn random_number(rt: &impl Files) -> io::Result<u64> {
    let mut bytes = [0; 8];
    File::open(rt, RANDOM)?.read_exact(&mut bytes)?;
    Ok(u64::from_le_bytes(bytes))
}

/// A new file in the folder of a place, and its path. Its name has a random number, or if the system gives none, how many names were
/// tried before.
fn new_file<R: Files + Alloc>(rt: &R, place: Path<'_>) -> io::Result<(R::File, PathBuf<R::A>)> {
    for tried in 0..DRAFT_NAMES {
        let number = random_number(rt).unwrap_or(u64::from(tried));
        let name = format!(in rt.alloc(); ".petool-{number:016x}.tmp")?;
        let path = place.with_file_name(rt.alloc(), name.as_str())?;
        match File::create_new(rt, path.as_path()) {
            Ok(file) => return Ok((file, path)),
            Err(error) if error.kind() == ErrorKind::AlreadyExists => {}
            Err(error) => return Err(error),
        }
    }
    Err(Error::from(ErrorKind::AlreadyExists))
}

/// The permissions of a file that replaces one with this mode. If it does not have the owner and the group of that one, it runs as
/// neither, and its group may do what others may.
fn mode_of(mode: u32, is_owner_kept: bool) -> u32 {
    if is_owner_kept {
        return mode & 0o7777;
    }
    (mode & 0o707) | ((mode & 0o007) << 3)
}

/// Gives a new file the owner and the group of the one that it replaces, if the system allows that, and its permissions. It is named
/// by what is open, and not by its path: whoever owns the folder may have put a link to another file there.
fn keep_permissions<F: OpenFile + AsFd>(file: &F, old: &Metadata) -> io::Result<()> {
    let is_owner_kept = fchown(file, Some(old.uid()), Some(old.gid())).is_ok();
    let mode = mode_of(old.permissions().mode(), is_owner_kept);
    file.set_permissions(Permissions::from_mode(mode))
}

/// The limit in a line of Linux's list of limits, if it is that of the size of files, and not `unlimited`.
fn limit_in(line: &str) -> Option<u64> {
    let numbers = line.strip_prefix(FILE_SIZE_LIMIT)?;
    numbers.split_whitespace().next()?.parse().ok()
}

/// The greatest size of a file that this process may write, if the system says one. A write past it would end the process.
fn size_limit<R: Files + Alloc>(rt: &R) -> u64 {
    let Ok(limits) = fs::read_to_string(rt, LIMITS) else {
        return u64::MAX;
    };
    limits.lines().find_map(limit_in).unwrap_or(u64::MAX)
}

impl<F: Write + Seek + OpenFile + AsFd + Drop, A: Allocator> Draft<F, A> {
    /// Makes a draft for a place, with the permissions of the file there.
    pub fn new<R: Files<File = F> + Alloc<A = A>>(
        rt: &R,
        place: PathBuf<A>,
    ) -> io::Result<Draft<F, A>> {
        check_protection(rt, place.as_path())?;
        let (file, path) = new_file(rt, place.as_path())?;
        let draft = Draft {
            file,
            path,
            place,
            left: size_limit(rt),
            len: 0,
            ends_in_hole: false,
        };
        match draft.keep_permissions(rt) {
            Ok(()) => Ok(draft),
            Err(error) => {
                draft.discard(rt);
                Err(error)
            }
        }
    }

    /// Gives it the permissions of the file at its place, if there is one. No link is followed: the place is behind the last one.
    fn keep_permissions<R: Files<File = F>>(&self, rt: &R) -> io::Result<()> {
        match fs::symlink_metadata(rt, self.place.as_path()) {
            Ok(old) if old.is_file() => keep_permissions(&self.file, &old),
            _ => Ok(()),
        }
    }

    /// Removes it.
    pub fn discard(self, rt: &impl Files) {
        let _ = fs::remove_file(rt, self.path.as_path());
    }

    /// Puts it in its place, once the system has stored its bytes.
    fn put(&self, rt: &impl Files) -> io::Result<()> {
        if self.ends_in_hole {
            self.file.set_len(self.len)?;
        }
        self.file.sync_all()?;
        fs::rename(rt, self.path.as_path(), self.place.as_path())
    }

    /// Puts it in its place, or removes it.
    pub fn publish(self, rt: &impl Files) -> io::Result<()> {
        let answer = self.put(rt);
        if answer.is_err() {
            self.discard(rt);
        }
        answer
    }
}

impl<F: Write + Seek, A: Allocator> Draft<F, A> {
    /// Writes bytes after those that it has, or leaves out a piece of zero bytes.
    fn write_next(&mut self, bytes: &[u8]) -> io::Result<usize>
        ensures { IfOk result (λ count. count ≤ length bytes.now) }
    {
        if is_hole(bytes) {
            self.ends_in_hole = true;
            return Ok(bytes.len());
        }
        if self.ends_in_hole {
            self.file.seek(SeekFrom::Start(self.len))?;
            self.ends_in_hole = false;
        }
        self.file.write(bytes)
    }
}

impl<F: Write + Seek, A: Allocator> Write for Draft<F, A> {
    fn write(&mut self, bytes: &[u8]) -> io::Result<usize> {
        if bytes.len() as u64 > self.left {
            return Err(Error::from_raw_os_error(FILE_TOO_LARGE));
        }
        let count = self.write_next(bytes)?;
        self.left = self.left.saturating_sub(count as u64);
        self.len = self.len.saturating_add(count as u64);
        Ok(count)
    }

    fn flush(&mut self) -> io::Result<()> {
        self.file.flush()
    }
}
