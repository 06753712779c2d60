ghost use Rattle.std.specs.Prelude.{◌≡◌, None};
ghost use Rattle.wt_files.specs.File.{IsWithin};

use crate::device::{FetchRefusal, Fetched, Folder};
use std::alloc::Global;
use std::fs;
use std::io::ErrorKind;
use std::rt::Files;
use wt_files::{FileRead, read_most};
use wt_names::file_name;
use wt_span::List;

/// A directory of the machine, in which each page is the file that `wt_names::file_name` gives for
/// its full name. Such a name has no `/` and is neither `.` nor `..`, so no full name leads out of the
/// directory. Contracts can name none of its pages.
///
/// A file that isn't there is an absent page, also one that can't be there, since its name is longer than the
/// file system allows. Every other error is a fault.
#[derive(Drop)]
pub struct DirFolder<'r, R> {
    rt: &'r R,
    directory: &'r str,
    faults: u64,
}

impl<'r, R: Files> DirFolder<'r, R> {
    /// The directory of this path.
    pub fn new(rt: &'r R, directory: &'r str) -> DirFolder<'r, R>
        ensures { ⟦<DirFolder<'r, R> as Folder>⟧.fault_count result ≡ 0 }
    {
        DirFolder {
            rt,
            directory,
            faults: 0,
        }
    }
}

/// Whether an error of `open` says that there is no file of this name: it isn't there, or its name is longer than
/// the file system allows, so that none can be.
fn is_absent(kind: ErrorKind) -> bool {
    kind == ErrorKind::NotFound || kind == ErrorKind::InvalidFilename
}

fn read_file<R: Files>(alloc: Global, rt: &R, path: &str, most: usize) -> FileRead
    ensures { IsWithin most result }
{
    match fs::open(rt, path) {
        Ok(file) => {
            let mut file = file;
            read_most(alloc, &mut file, most)
        }
        Err(e) => {
            if is_absent(e.kind()) {
                FileRead::Absent
            } else {
                FileRead::Failed
            }
        }
    }
}

impl<R: Files> Folder for DirFolder<'_, R> {
    ghost pages = { λ _. None };

    ghost answered = { λ _. None };

    ghost most_asked = { λ _. None };

    ghost fault_count = { λ f. f.faults };

    fn fetch(&mut self, alloc: Global, name: &str, most: u32) -> Result<Fetched, FetchRefusal> {
        let Ok(file) = file_name(alloc, name) else {
            return Err(FetchRefusal::NoMemory);
        };
        let Ok(path) = format!(in alloc; "{}/{}", self.directory, file.as_str()) else {
            return Err(FetchRefusal::NoMemory);
        };
        match read_file(alloc, self.rt, path.as_str(), most as usize) {
            FileRead::Read(bytes) => Ok(Fetched::Found(List::from_vec(bytes))),
            FileRead::Absent => Ok(Fetched::Absent),
            FileRead::NoMemory => Err(FetchRefusal::NoMemory),
            FileRead::Failed => {
                self.faults = self.faults.saturating_add(1);
                Err(FetchRefusal::Failed)
            }
        }
    }

    fn faults(&self) -> u64 {
        self.faults
    }
}
