// What the system says of a file: its kind, mode and owner, and which file it is; and what a link names.
//
// No contract can say what the system answers, so the public ones say only in what ranges the numbers are.
#![tactic(auto)]

ghost use Rattle.std.specs.Prelude.{◌<◌, ◌≤◌, ◌≡◌, eqb, length, IfOk, IfSome};
ghost use Rattle.std.specs.Fs.{metadata_mode};

use errors::{EILSEQ, EINVAL, ENOENT};
use std::fs::{File, Metadata};
use std::os::unix::fs::MetadataExt;
use std::path::PathBuf;
use std::rt::Files;
use std::{fmt, fs, io, str};

pub mod errors;

// A path has fewer bytes than this: the system reads so many, and the last is a 0.
pub const PATH_MAX: usize = 4096;

// The kinds of files. A device is what is none of the others.
#[derive(Clone, Copy, PartialEq, Eq)]
pub enum Kind {
    Fifo,
    Folder,
    Regular,
    Socket,
    Device,
}

impl Kind {
    ghost use Rattle.file_status.specs.Known.{kind_of};

    // By C's S_IFMT, in 4096ths.
    fn of(format: u32) -> Kind
        ensures { result ≡ kind_of format }
    {
        match format {
            1 => Kind::Fifo,
            4 => Kind::Folder,
            8 => Kind::Regular,
            12 => Kind::Socket,
            _ => Kind::Device,
        }
    }
}

impl fmt::Display for Kind {
    fn fmt<W: fmt::Write>(&self, f: &mut fmt::Formatter<W>) -> fmt::Result {
        f.write_str(match self {
            Kind::Fifo => "a FIFO",
            Kind::Folder => "a folder",
            Kind::Regular => "a regular file",
            Kind::Socket => "a socket",
            Kind::Device => "a device",
        })
    }
}

// What is known of a file. `mode` has the twelve bits that C's fchmod takes. Two names are of one file where `device` and `number` are the same.
#[derive(Clone, Copy)]
pub struct Known {
    pub kind: Kind,
    pub mode: u32,
    pub owner: u32,
    pub group: u32,
    pub device: u64,
    pub number: u64,
    pub ghost twelve_bits: { mode < 4096 },
}

// What the system answered of a file: C's st_mode, st_uid, st_gid, st_dev and st_ino.
#[derive(Clone, Copy)]
pub struct Asked {
    pub mode: u32,
    pub owner: u32,
    pub group: u32,
    pub device: u64,
    pub number: u64,
}

impl Asked {
    fn of(m: &Metadata) -> Asked
        ensures { result.mode ≡ metadata_mode m.now }
    {
        Asked {
            mode: m.mode(),
            owner: m.uid(),
            group: m.gid(),
            device: m.dev(),
            number: m.ino(),
        }
    }
}

impl From<Asked> for Known {
    ghost use Rattle.file_status.specs.Known.{Tells};

    ghost from_gives = { Tells };

    fn from(a: Asked) -> Known {
        Known {
            kind: Kind::of(a.mode / 4096 % 16),
            mode: a.mode % 4096,
            owner: a.owner,
            group: a.group,
            device: a.device,
            number: a.number,
        }
    }
}

impl Known {
    ghost use Rattle.file_status.specs.Known.{both};

    // Of an open file.
    pub fn of_descriptor(file: &File) -> io::Result<Known> {
        Ok(Asked::of(&file.metadata()?).into())
    }

    // Of the file that a path leads to, through a link too. It opens nothing, so it waits for no FIFO.
    pub fn of_path(rt: &impl Files, path: &[u8]) -> io::Result<Known> {
        Ok(Asked::of(&fs::metadata(rt, path_text(path)?)?).into())
    }

    // Whether two files that are known are one.
    pub fn is_same(self, other: Known) -> bool
        ensures { result ≡ both (eqb self.device other.device) (eqb self.number other.number) }
    {
        self.device == other.device && self.number == other.number
    }
}

// Of a link that cannot be read: EINVAL says that the file is no link, ENOENT that nothing is there.
fn is_no_link(error: io::Error) -> bool {
    matches!(errors::number_of(error), EINVAL | ENOENT)
}

// Puts a name at the start of a buffer, as much as it has room for.
fn put<'a>(name: &[u8], to: &'a mut [u8]) -> &'a [u8]
    ensures { length result.now ≤ length to.old }
{
    let n = name.len().min(to.len());
    to[..n].copy_from_slice(&name[..n]);
    &to[..n]
}

// What the link that a path leads to names, at the start of a buffer; none where there is no link. An error where it is not known whether there is
// one.
pub fn link_at<'a, R: Files + Alloc>(
    rt: &R,
    path: &[u8],
    to: &'a mut [u8],
) -> io::Result<Option<&'a [u8]>>
    ensures { IfOk result (λ link. IfSome link (λ name. length name.now ≤ length to.old)) }
{
    if path.contains(&0) {
        return Err(io::Error::from_raw_os_error(EINVAL));
    }
    match read_link(rt, path) {
        Ok(name) => Ok(Some(put(name.as_str().as_bytes(), to))),
        Err(e) if is_no_link(e) => Ok(None),
        Err(e) => Err(e),
    }
}

fn read_link<R: Files + Alloc>(rt: &R, path: &[u8]) -> io::Result<PathBuf<R::A>> {
    fs::read_link(rt, path_text(path)?)
}

// A path as std takes it, which opens files by names that are text alone: one that is not UTF-8 leads to no file. The system's own bounds, of 4,095
// bytes and no 0, are std's too.
pub fn path_text(path: &[u8]) -> io::Result<&str> {
    str::from_utf8(path).map_err(|_| io::Error::from_raw_os_error(EILSEQ))
}
