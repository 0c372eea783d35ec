//! The file that a fill library goes to: a regular file is written aside and put in its place once it is whole.
use std::alloc::Global;
use std::fs::{self, File, Metadata, OpenFile, OpenOptions};
use std::io::{self, ErrorKind, Write};
use std::os::unix::fs::{MetadataExt, lchown};
use std::path::PathBuf;
use std::rt::Files;

/// The file that standard output goes to, if it goes to one.
const STANDARD_OUTPUT: &str = "/dev/stdout";

/// How many links the system follows in one path.
const MOST_LINKS: u32 = 40;

/// A file that is written aside, and the path that it is to have once it is whole.
#[derive(Drop)]
struct Aside {
    from: String,
    to: String,
}

/// The file that a library goes to. A flush settles it: what was written is on the device then, and the file is at its path.
#[derive(Drop)]
pub(crate) struct Target<'a, R: Files> {
    rt: &'a R,
    file: R::File,
    aside: Option<Aside>,
}

impl<R: Files> Write for Target<'_, R> {
    ghost contents = { λ target. R.File.contents target.file };

    /// Passes the write on.
    fn write(&mut self, buf: &[u8]) -> io::Result<usize> {
        self.file.write(buf)
    }

    /// Puts a file that was written aside in its place, once all of it is on the device.
    fn flush(&mut self) -> io::Result<()> {
        self.file.flush()?;
        if let Some(aside) = &self.aside {
            self.file.sync_all()?;
            fs::rename(self.rt, aside.from.as_str(), aside.to.as_str())?;
        }
        self.aside = None;
        Ok(())
    }
}

impl<'a, R: Files + Alloc<A = Global>> Target<'a, R> {
    /// The file at a path. One that is there and isn't regular is written in place. Any other is written aside, under the
    /// name that links lead to, with `.unfinished` behind it, and nothing that stands under that name is written to. It has the
    /// rights and the group of the one that is there, and its owner where the system allows that; that one must be open to
    /// writers. Neither of the two may be in use.
    pub(crate) fn create(rt: &'a R, path: &str, inputs: &[&str]) -> io::Result<Target<'a, R>> {
        match fs::metadata(rt, path) {
            Ok(found) if !found.is_file() => Ok(Target {
                rt,
                file: File::create(rt, path)?,
                aside: None,
            }),
            Ok(found) => {
                refuse_in_use(rt, path, inputs)?;
                OpenOptions::new().write(true).open(rt, path)?;
                let path = fs::canonicalize(rt, path)?;
                Target::create_aside(rt, path.as_str(), inputs, Some(&found))
            }
            Err(error) if error.kind() == ErrorKind::NotFound && !path.is_empty() => {
                let path = link_end(rt, path)?;
                Target::create_aside(rt, path.as_str(), inputs, None)
            }
            Err(error) => Err(error),
        }
    }

    /// A new file beside a path, in the place of the one that was found there.
    fn create_aside(
        rt: &'a R,
        path: &str,
        inputs: &[&str],
        found: Option<&Metadata>,
    ) -> io::Result<Target<'a, R>> {
        let alloc = rt.alloc();
        let aside = Aside {
            from: format!(in alloc; "{path}.unfinished")?,
            to: String::from_str(alloc, path)?,
        };
        refuse_in_use(rt, aside.from.as_str(), inputs)?;
        // What a killed run left may be another's.
        let _ = fs::remove_file(rt, aside.from.as_str());
        let file = OpenOptions::new()
            .write(true)
            .create_new(true)
            .open(rt, aside.from.as_str())?;
        if let Some(found) = found {
            keep_owner(rt, aside.from.as_str(), found);
            file.set_permissions(found.permissions())?;
        }
        Ok(Target {
            rt,
            file,
            aside: Some(aside),
        })
    }
}

/// Gives a new file the owner and the group of another one, or the group alone, as far as the system allows it.
fn keep_owner<R: Files>(rt: &R, path: &str, other: &Metadata) {
    if lchown(rt, path, Some(other.uid()), Some(other.gid())).is_err() {
        let _ = lchown(rt, path, None, Some(other.gid()));
    }
}

/// The path at which a chain of links ends that leads to nothing: the path itself where it is no link.
fn link_end<R: Files + Alloc<A = Global>>(rt: &R, path: &str) -> io::Result<PathBuf> {
    let mut end = PathBuf::from_str(rt.alloc(), path)?;
    for _ in 0..MOST_LINKS {
        let Ok(next) = fs::read_link(rt, end.as_str()) else {
            return Ok(end);
        };
        end.pop();
        end.push(next.as_str())?;
    }
    Err(io::Error::from(ErrorKind::FilesystemLoop))
}

/// Whether both are of one file.
fn are_one(a: &Metadata, b: &Metadata) -> bool {
    a.dev() == b.dev() && a.ino() == b.ino()
}

/// An error where the regular file at a path is one of these inputs, or the one that standard output goes to.
fn refuse_in_use<R: Files>(rt: &R, path: &str, inputs: &[&str]) -> io::Result<()> {
    let Ok(target) = fs::metadata(rt, path) else {
        return Ok(());
    };
    let is_other = |other: &&str| fs::metadata(rt, *other).is_ok_and(|other| are_one(
        &target, &other,
    ));
    if target.is_file() && (inputs.iter().any(is_other) || is_other(&STANDARD_OUTPUT)) {
        return Err(io::Error::from(ErrorKind::ResourceBusy));
    }
    Ok(())
}
