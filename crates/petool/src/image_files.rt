//! The option `--write` of `map`: each image of a set as a file of a folder.

use crate::messages::{refuse_map, refuse_memory};
use crate::new_file::{refuse_target, refuse_word};
use crate::place::{Place, place_of};
use crate::statuses::{DEVICE_FAILED, DONE, REFUSED};
use crate::target::Target;
use crate::word_bytes::{bytes_of, is_marked};
use pe_page::ShownName;
use pe_space::{MapError, Policy, SetEntry};
use pe_space_file::MappedImages;
use pe_text::Counted;
use pe_words::MapFile;
use std::alloc::{AllocError, Allocator};
use std::fs;
use std::io::Error;
use std::os::fd::AsFd;
use std::os::unix::fs::MetadataExt;
use std::path::{Path, PathBuf};
use std::rt::Files;

/// How many images a set has at most: of more files none is written, since they are refused.
const MOST_IMAGES: usize = 256;

/// The number of Linux's error for what is no folder: ENOTDIR.
const NO_FOLDER: i32 = 20;

/// Where the images of a set are written, and how many bytes they may have together.
#[derive(Clone, Copy)]
pub(crate) struct ImageFolder<'a> {
    pub path: &'a str,
    pub most: u64,
}

/// The path of the file of an image.
fn path_of<A: Allocator>(alloc: A, folder: &str, file: &MapFile) -> Result<PathBuf<A>, AllocError> {
    Path::new(folder).join(alloc, Path::new(file.name.as_str()))
}

/// Reports why the file of an image cannot be written, and returns the exit status; `None` if it can, as far as is known before.
fn refuse_file<R: Files + Eprint + Alloc>(rt: &R, files: &[MapFile], target: &str) -> Option<u8> {
    if !is_marked(target) && fs::metadata(rt, target).is_err() {
        return None;
    }
    let Ok(name) = bytes_of(rt.alloc(), target) else {
        return Some(refuse_memory(rt));
    };
    for file in files {
        let refusal = refuse_word(rt, &name, file.path.as_str(), target);
        if refusal.is_some() {
            return refusal;
        }
    }
    None
}

/// Reports which file of a folder cannot be written, and returns the exit status; `None` if all can, as far as is known before.
fn refuse_files<R: Files + Eprint + Alloc>(rt: &R, folder: &str, files: &[MapFile]) -> Option<u8> {
    for file in files {
        let Ok(path) = path_of(rt.alloc(), folder, file) else {
            return Some(refuse_memory(rt));
        };
        let refusal = refuse_file(rt, files, path.as_path().as_str());
        if refusal.is_some() {
            return refusal;
        }
    }
    None
}

/// Where a file is to be, once links are followed.
#[derive(Drop)]
struct Position<A: Allocator> {
    /// The folder, by the numbers of the system.
    device: u64,
    node: u64,
    path: PathBuf<A>,
}

impl<A: Allocator> Position<A> {
    /// Whether it is that of the same file.
    fn is_same(&self, other: &Position<A>) -> bool {
        self.device == other.device
            && self.node == other.node
            && self.path.as_path().file_name() == other.path.as_path().file_name()
    }
}

/// The folder of a path.
fn folder_of(path: Path<'_>) -> Path<'_> {
    match path.parent() {
        Some(folder) if !folder.as_str().is_empty() => folder,
        _ => Path::new("."),
    }
}

/// The position of a file at a path behind the last link, if its folder is there.
fn position_at<R: Files + Alloc>(rt: &R, path: PathBuf<R::A>) -> Option<Position<R::A>> {
    match fs::metadata(rt, folder_of(path.as_path())) {
        Ok(found) => Some(Position {
            device: found.dev(),
            node: found.ino(),
            path,
        }),
        Err(_) => None,
    }
}

/// Where the file at a path is to be, if it is to be in a folder that there is.
fn position_of<R: Files + Alloc>(rt: &R, target: &str) -> Option<Position<R::A>> {
    match place_of(rt, target) {
        Ok(Place::Path(path)) => position_at(rt, path),
        _ => None,
    }
}

/// The path of a file of a folder that is to be where another is to be too, by links.
fn shared_file<R: Files + Alloc>(
    rt: &R,
    folder: &str,
    files: &[MapFile],
) -> Result<Option<PathBuf<R::A>>, AllocError> {
    let mut positions: Vec<Position<R::A>, R::A> = Vec::new(rt.alloc());
    for file in files {
        let path = path_of(rt.alloc(), folder, file)?;
        if let Some(position) = position_of(rt, path.as_path().as_str()) {
            if positions.iter().any(|other| other.is_same(&position)) {
                return Ok(Some(path));
            }
            positions.push(position)?;
        }
    }
    Ok(None)
}

/// Reports which file of a folder another image would replace again, and returns the exit status; `None` if each has its own.
fn refuse_shared<R: Files + Eprint + Alloc>(rt: &R, folder: &str, files: &[MapFile]) -> Option<u8> {
    match shared_file(rt, folder, files) {
        Ok(Some(path)) => {
            let name = ShownName(path.as_path().as_str().as_bytes());
            let _ = eprintln!(rt; "petool: {name}: is the file of another image too");
            Some(DEVICE_FAILED)
        }
        Ok(None) => None,
        Err(_) => Some(refuse_memory(rt)),
    }
}

/// Why there is no folder at a path, if there is none.
fn folder_error(rt: &impl Files, path: &str) -> Option<Error> {
    match fs::metadata(rt, path) {
        Ok(found) if found.is_dir() => None,
        Ok(_) => Some(Error::from_raw_os_error(NO_FOLDER)),
        Err(error) => Some(error),
    }
}

/// Reports why images cannot be written to a folder, and returns the exit status; `None` if they can, as far as is known before.
pub(crate) fn refuse_folder<R: Files + Eprint + Alloc>(
    rt: &R,
    folder: &str,
    files: &[MapFile],
) -> Option<u8> {
    let files = files.get(..MOST_IMAGES).unwrap_or(files);
    let refusal = refuse_files(rt, folder, files);
    if refusal.is_some() {
        return refusal;
    }
    match folder_error(rt, folder) {
        Some(error) => Some(refuse_target(rt, folder.as_bytes(), error)),
        None => refuse_shared(rt, folder, files),
    }
}

/// Writes an image to a file, and returns the exit status.
fn write_image<R: Files + Print + Eprint + Alloc>(
    rt: &R,
    images: &MappedImages<'_, R::A>,
    number: u16,
    target: &str,
) -> u8
where
    R::A: Copy,
    R::File: AsFd,
{
    let mut output = Target::new(rt, target);
    let answer = images.write_image(number, &mut Counted::new(&mut output));
    match output.finish(answer.is_ok()) {
        Some(error) => refuse_target(rt, target.as_bytes(), error),
        None => DONE,
    }
}

/// Reports that the images are larger than allowed, and returns the exit status.
fn tell_size(rt: &impl Eprint, size: u64) -> u8 {
    let _ = eprintln!(rt;
        "petool: map: the images have {size} bytes together, more than --within allows"
    );
    REFUSED
}

/// Writes each image to its file, up to the first that fails, and returns the exit status.
fn write_each<R: Files + Print + Eprint + Alloc>(
    rt: &R,
    folder: &str,
    images: &MappedImages<'_, R::A>,
    files: &[MapFile],
) -> u8
where
    R::A: Copy,
    R::File: AsFd,
{
    for (number, file) in (0..images.count()).zip(files) {
        let Ok(path) = path_of(rt.alloc(), folder, file) else {
            return refuse_memory(rt);
        };
        let status = write_image(rt, images, number, path.as_path().as_str());
        if status != DONE {
            return status;
        }
    }
    DONE
}

/// The images of a set, with delay-loaded imports bound too if `is_delayed` is set.
fn open_images<'a, A: Allocator + Copy>(
    alloc: A,
    set: &[SetEntry<'a>],
    policy: Policy,
    is_delayed: bool,
) -> Result<MappedImages<'a, A>, MapError> {
    if is_delayed {
        MappedImages::open_delayed(alloc, set, policy)
    } else {
        MappedImages::open(alloc, set, policy)
    }
}

/// Writes the images of an accepted set to a folder, unless they have too many bytes together, and returns the exit status.
pub(crate) fn write_images<R: Files + Print + Eprint + Alloc>(
    rt: &R,
    folder: ImageFolder<'_>,
    policy: Policy,
    is_delayed: bool,
    set: &[SetEntry],
    files: &[MapFile],
) -> u8
where
    R::A: Copy,
    R::File: AsFd,
{
    let Ok(images) = open_images(rt.alloc(), set, policy, is_delayed) else {
        return refuse_map(rt);
    };
    let size = images.total_size();
    if size > folder.most {
        return tell_size(rt, size);
    }
    write_each(rt, folder.path, &images, files)
}
