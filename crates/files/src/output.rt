// The file that an output's name leads to, and how it is replaced.
ghost use Rattle.std.specs.Prelude.{◌≡◌, ◌≤◌, length, take, IfOk};

use crate::{Failed, fail, fail_by, limits, read_at};
use file_status::errors::{EEXIST, ENAMETOOLONG, ENOENT, number_of};
use file_status::{Kind, Known, PATH_MAX, link_at, path_text};
use std::fs::{File, OpenOptions, Permissions};
use std::io::{ErrorKind, Write};
use std::os::unix::fs::{OpenOptionsExt, PermissionsExt, fchown};
use std::random::RandomSource;
use std::{fs, io};
use text::Line;

// ---- finding it

type Path = Line<PATH_MAX>;

// How much of a path is the folder's, with the slash behind it.
fn folder_of(path: &[u8]) -> &[u8]
    ensures within { length result.now ≤ length path.now }
    ensures front { result.now ≡ take (length result.now) path.now }
{
    match path.iter().rposition(|&b| b == b'/') {
        Some(i) => &path[..i + 1],
        None => &path[..0],
    }
}

// Follows one link: the path of what it names, as much as there is room for, in the path's place. False where the path leads to no link.
fn follow_link(rt: &HostRuntime, path: &mut Path) -> io::Result<bool> {
    let mut link = [0u8; PATH_MAX];
    let Some(named) = link_at(rt, path.as_bytes(), &mut link)? else {
        return Ok(false);
    };
    if named.is_empty() {
        return Ok(false);
    }
    let folder = if named.starts_with(b"/") {
        0
    } else {
        folder_of(path.as_bytes()).len()
    };
    path.truncate(folder);
    path.push_bytes(named);
    Ok(true)
}

// How often a link is looked for: the system follows 40, and the last look finds none.
const LOOKS: usize = 41;

// Follows links until none is left: the path is then the file's. One that has no room is as long as a path cannot be; so is told, too, what has more
// links.
fn follow_links(rt: &HostRuntime, path: &mut Path) -> io::Result<()> {
    for _ in 0..LOOKS {
        match follow_link(rt, path) {
            Ok(true) => {}
            Ok(false) if path.len() < PATH_MAX => return Ok(()),
            Err(e) if path.len() < PATH_MAX => return Err(e),
            _ => {
                break;
            }
        }
    }
    Err(io::Error::from_raw_os_error(ENAMETOOLONG))
}

// What is known of the file that an output's name leads to: a regular file, or none yet. Where it is another, that is said.
fn find_file(rt: &HostRuntime, name: &[u8]) -> Result<Option<Known>, Failed> {
    match Known::of_path(rt, name) {
        Ok(known) => match known.kind {
            Kind::Regular => Ok(Some(known)),
            kind => Err(fail(
                rt,
                name,
                format_args!(": {kind}; only a regular file is replaced"),
            )),
        },
        Err(e) if number_of(e) == ENOENT => Ok(None),
        Err(e) => Err(fail_by(rt, name, "", e)),
    }
}

// An output: its name, the path of the file that this leads to, through links, and what is known of the file, where there is one.
#[derive(Drop)]
pub struct Target<'a> {
    name: &'a [u8],
    path: Path,
    known: Option<Known>,
}

impl<'a> Target<'a> {
    // Where nothing may be written there, that is said. Nothing is opened.
    pub fn find(rt: &HostRuntime, name: &'a [u8]) -> Result<Target<'a>, Failed> {
        let known = find_file(rt, name)?;
        let mut path = Path::of(name);
        match follow_links(rt, &mut path) {
            Ok(()) => Ok(Target { name, path, known }),
            Err(e) => Err(fail_by(rt, name, "", e)),
        }
    }

    pub fn name(&self) -> &'a [u8] {
        self.name
    }

    // What is in the file, as many bytes as the buffer has room for. It is read at the path that is replaced, and not by its name: between the two a
    // link may lead elsewhere. Where it cannot be read, that is said.
    pub fn read<'b>(&self, rt: &HostRuntime, buf: &'b mut [u8]) -> Result<&'b [u8], Failed>
        ensures { IfOk result (λ bytes. length bytes.now ≤ length buf.old) }
    {
        read_at(rt, self.name, self.path.as_bytes(), None, buf)
    }

    // Whether a file is the output's.
    pub fn is_file(&self, file: Known) -> bool {
        match self.known {
            Some(known) => known.is_same(file),
            None => false,
        }
    }
}

// ---- the file beside it

// What the name of a file beside has behind the folder: `START`, and six letters by chance, so that two runs do not meet. It is short, so that it has
// room where the file's own name is as long as a name can be.
const START: &[u8] = b".vanc-";

const CHANCE: usize = 6;

const BESIDE_MAX: usize = PATH_MAX + START.len() + CHANCE;

type BesidePath = Line<BESIDE_MAX>;

const LETTERS: &[u8; 62] = b"0123456789abcdefghijklmnopqrstuvwxyzABCDEFGHIJKLMNOPQRSTUVWXYZ";

// A file beside: its path, and the file.
#[derive(Drop)]
struct Beside {
    path: BesidePath,
    file: File,
}

fn path_beside(rt: &impl RandomSource, path: &[u8]) -> BesidePath {
    let mut name = BesidePath::of(folder_of(path));
    name.push_bytes(START);
    let mut chance = [0u8; CHANCE];
    let _ = rt.fill_bytes(&mut chance);
    for c in chance {
        name.push(LETTERS[usize::from(c) % 62]);
    }
    name
}

// Makes a file that is not there yet, with at most this mode.
fn create(rt: &HostRuntime, path: &[u8], mode: u32) -> io::Result<File> {
    let mut how = OpenOptions::new();
    how.write(true).create_new(true).mode(mode);
    how.open(rt, path_text(path)?)
}

// Makes the file beside one that is to be made: it has the mode that new files get.
fn make_new(rt: &HostRuntime, path: &[u8]) -> io::Result<Beside> {
    let path = path_beside(rt, path);
    let file = create(rt, path.as_bytes(), 0o666)?;
    Ok(Beside { path, file })
}

// How often another name is tried where one is taken, as C's mkstemp does.
const TRIES: usize = 238328;

// Makes the file beside one that is to be replaced: its owner alone may read it, until it has the mode of the other.
fn make_successor(rt: &HostRuntime, path: &[u8]) -> io::Result<Beside> {
    for _ in 0..TRIES {
        let path = path_beside(rt, path);
        match create(rt, path.as_bytes(), 0o600) {
            Ok(file) => return Ok(Beside { path, file }),
            Err(e) if e.kind() == ErrorKind::AlreadyExists => {}
            Err(e) => return Err(e),
        }
    }
    Err(io::Error::from_raw_os_error(EEXIST))
}

// ---- replacing

// Gives a new file the owner, the group and the mode of the one that it replaces. Where the owner may not be given away, the bits of the mode that
// make others run a file as its owner are left out.
fn succeed(file: &File, known: Known) -> io::Result<()> {
    if fchown(file, Some(known.owner), Some(known.group)).is_ok() {
        return file.set_permissions(Permissions::from_mode(known.mode));
    }
    let _ = fchown(file, None, Some(known.group));
    file.set_permissions(Permissions::from_mode(known.mode % 512))
}

fn rename(rt: &HostRuntime, from: &[u8], to: &[u8]) -> io::Result<()> {
    fs::rename(rt, path_text(from)?, path_text(to)?)
}

fn remove(rt: &HostRuntime, path: &[u8]) -> io::Result<()> {
    fs::remove_file(rt, path_text(path)?)
}

impl Target<'_> {
    fn make_beside(&self, rt: &HostRuntime) -> io::Result<Beside> {
        match self.known {
            Some(_) => make_successor(rt, self.path.as_bytes()),
            None => make_new(rt, self.path.as_bytes()),
        }
    }

    // Writes all the bytes, to the disk, and closes the file.
    fn write(&self, rt: &HostRuntime, mut file: File, bytes: &[u8]) -> io::Result<()> {
        limits::check(rt, bytes)?;
        file.write_all(bytes)?;
        if let Some(known) = self.known {
            succeed(&file, known)?;
        }
        file.sync_all()
    }

    fn write_and_rename(
        &self,
        rt: &HostRuntime,
        beside: &[u8],
        file: File,
        bytes: &[u8],
    ) -> io::Result<()> {
        self.write(rt, file, bytes)?;
        rename(rt, beside, self.path.as_bytes())
    }

    fn not_written(&self, rt: &HostRuntime, error: io::Error) -> Failed {
        fail_by(rt, self.name, ": not written", error)
    }

    // Replaces the file whole or not at all: the bytes are written to a file beside it, which then takes its name. Where that fails it is said, and
    // the file is as it was.
    pub fn replace(&self, rt: &HostRuntime, bytes: &[u8]) -> Result<(), Failed> {
        let Beside { path, file } = match self.make_beside(rt) {
            Ok(beside) => beside,
            Err(e) => return Err(self.not_written(rt, e)),
        };
        let beside = path.as_bytes();
        match self.write_and_rename(rt, beside, file, bytes) {
            Ok(()) => Ok(()),
            Err(e) => {
                let failed = self.not_written(rt, e);
                let _ = remove(rt, beside);
                Err(failed)
            }
        }
    }

    // Replaces it by the first n of the bytes. Where there are not so many, or that fails, the file is as it was.
    pub fn replace_by_first(&self, rt: &HostRuntime, bytes: &[u8], n: u64) -> Result<(), Failed> {
        let k = n as usize;
        if bytes.len() < k {
            return Err(Failed);
        }
        self.replace(rt, &bytes[..k])
    }
}
