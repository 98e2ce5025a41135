// The folder of a store, by the calls of the system.
ghost use Rattle.std.specs.Prelude.{◌≡◌, ◌<◌, IfOk, codes, length};
ghost use Rattle.store_file.specs.Names.{NamesNoFile};

use crate::folder::{Compared, FileFacts, Folder, Found, Name, Stage};
use crate::making::make;
use crate::page::PAGE_BYTES;
use os::RangeLock;
use std::alloc::Global;
use std::fs::{self, File, Metadata, OpenOptions, Permissions};
use std::io::{self, ErrorKind, Write};
use std::os::fd::AsRawFd;
use std::os::unix::fs::{MetadataExt, OpenOptionsExt, PermissionsExt};

/// What the file's owner may do, and nobody else: read and write.
const OWNER_ALONE: u32 = 0o600;

/// The bytes of a file that SQLite locks.
const LOCKED_FROM: u64 = 1 << 30;

const LOCKED_BYTES: u64 = 512;

/// The folder of a store. Each call of `Folder` makes the call of the system that it tells, or the few
/// by which it compares, and no other.
#[derive(Drop)]
struct HostFolder<'a> {
    rt: &'a HostRuntime,
    store: &'a str,
    unfinished: String,
    log: String,
    /// The file with the other name, once it is open.
    file: Option<File>,
    /// The file of no bytes at the store's name, once this making has its lock.
    guarded: Option<File>,
    stage: Stage,
}

/// What lies where the system looked.
fn found_by(answer: io::Result<Metadata>) -> io::Result<Found> {
    match answer {
        Ok(found) if found.is_file() => Ok(Found::File(FileFacts {
            device: found.dev(),
            node: found.ino(),
            bytes: found.len(),
            names: found.nlink(),
        })),
        Ok(_) => Ok(Found::Other),
        Err(error) if error.kind() == ErrorKind::NotFound => Ok(Found::Nothing),
        Err(error) => Err(error),
    }
}

/// The name of the folder of what has this in front of its last slash: with nothing there it is the root.
fn folder_before(front: &str) -> &str
    ensures root { length front.now ≡ 0 → result.now ≡ codes "/" }
    ensures named { 0 < length front.now → result.now ≡ front.now }
{
    if front.is_empty() { "/" } else { front }
}

/// The name of the folder in which a path lies.
fn folder_of(path: &str) -> &str {
    match path.rsplit_once('/') {
        None => ".",
        Some((front, _)) => folder_before(front),
    }
}

/// Takes the lock by which a server has a store: SQLite's, on its pending, reserved and shared bytes.
fn lock_as_store(file: &File) -> io::Result<()> {
    if os::try_lock_range(
        file.as_raw_fd(),
        RangeLock::Exclusive,
        LOCKED_FROM,
        LOCKED_BYTES,
    ) == 0
    {
        Ok(())
    } else {
        Err(io::Error::from_raw_os_error(os::errno()))
    }
}

impl<'a> HostFolder<'a> {
    /// The folder of the store at this path.
    fn new(rt: &'a HostRuntime, alloc: Global, path: &'a str) -> io::Result<HostFolder<'a>>
        ensures { IfOk result (λ folder. folder.stage ≡ Stage.Begun) }
    {
        Ok(HostFolder {
            rt,
            store: path,
            unfinished: format!(in alloc; "{path}-new")?,
            log: format!(in alloc; "{path}-wal")?,
            file: None,
            guarded: None,
            stage: Stage::Begun,
        })
    }

    /// The path at which a name lies.
    fn path_of(&self, name: Name) -> &str {
        match name {
            Name::Store => self.store,
            Name::Unfinished => self.unfinished.as_str(),
            Name::Log => self.log.as_str(),
        }
    }

    /// The open file.
    fn held(&self) -> io::Result<&File> {
        match &self.file {
            Some(file) => Ok(file),
            None => Err(ErrorKind::InvalidInput.into()),
        }
    }
}

impl Folder for HostFolder<'_> {
    ghost stage = { λ folder. folder.stage };

    fn look(&mut self, name: Name) -> io::Result<Found> {
        let found = found_by(fs::symlink_metadata(self.rt, self.path_of(name)))?;
        self.stage = self.stage.looked(name, found);
        Ok(found)
    }

    fn follow(&mut self) -> io::Result<Found> {
        let found = found_by(fs::metadata(self.rt, self.store))?;
        if found.has_bytes() {
            self.stage = Stage::There;
        }
        Ok(found)
    }

    fn make(&mut self) -> io::Result<()> {
        let made = OpenOptions::new()
            .write(true)
            .create_new(true)
            .mode(OWNER_ALONE)
            .open(self.rt, self.unfinished.as_str())?;
        self.file = Some(made);
        self.stage = Stage::Opened;
        Ok(())
    }

    fn open(&mut self) -> io::Result<()> {
        let found = OpenOptions::new()
            .write(true)
            .open(self.rt, self.unfinished.as_str())?;
        self.file = Some(found);
        self.stage = Stage::Opened;
        Ok(())
    }

    fn lock(&mut self) -> io::Result<()> {
        self.held()?.try_lock()?;
        self.stage = Stage::Locked;
        Ok(())
    }

    fn compare(&mut self) -> io::Result<Compared> {
        let compared = Compared {
            held: found_by(self.held()?.metadata())?,
            named: found_by(fs::symlink_metadata(self.rt, self.unfinished.as_str()))?,
        };
        if compared.is_left() {
            self.stage = Stage::Alone;
        }
        Ok(compared)
    }

    fn restrict(&mut self) -> io::Result<()> {
        self.held()?
            .set_permissions(Permissions::from_mode(OWNER_ALONE))?;
        self.stage = Stage::Private;
        Ok(())
    }

    fn cut(&mut self) -> io::Result<()> {
        self.held()?.set_len(0)?;
        self.stage = Stage::Cut;
        Ok(())
    }

    fn write(&mut self, page: &[u8; PAGE_BYTES]) -> io::Result<()> {
        let Some(file) = &mut self.file else {
            return Err(ErrorKind::InvalidInput.into());
        };
        file.write_all(page)?;
        self.stage = Stage::Written;
        Ok(())
    }

    fn sync(&mut self) -> io::Result<()> {
        self.held()?.sync_all()?;
        self.stage = Stage::Synced;
        Ok(())
    }

    fn guard(&mut self) -> io::Result<Compared> {
        let file = OpenOptions::new()
            .read(true)
            .write(true)
            .open(self.rt, self.store)?;
        lock_as_store(&file)?;
        let compared = Compared {
            held: found_by(file.metadata())?,
            named: found_by(fs::symlink_metadata(self.rt, self.store))?,
        };
        self.guarded = Some(file);
        if compared.is_replaceable() {
            self.stage = Stage::Vacant;
        }
        Ok(compared)
    }

    fn rename(&mut self) -> io::Result<()> {
        fs::rename(self.rt, self.unfinished.as_str(), self.store)?;
        self.stage = Stage::Named;
        Ok(())
    }

    fn sync_folder(&mut self) -> io::Result<()> {
        File::open(self.rt, folder_of(self.store))?.sync_all()?;
        self.stage = Stage::Kept;
        Ok(())
    }

    fn remove(&mut self) -> io::Result<()> {
        let removed = fs::remove_file(self.rt, self.unfinished.as_str());
        self.stage = if removed.is_ok() {
            Stage::Removed
        } else {
            Stage::Left
        };
        removed
    }
}

/// Makes the file of the store at this path, where there is none, or one of no bytes: an empty database
/// with pages of `PAGE_BYTES` bytes, which its owner alone may read, as `make` makes it. The other name
/// is `<path>-new`. An opening of the store then takes it as no store yet, and gives the log that it
/// makes beside it, as `<path>-wal`, the same mode.
///
/// # Errors
///
/// Those of `make`, and want of memory.
pub fn make_store_file(rt: &HostRuntime, alloc: Global, path: &str) -> io::Result<()>
    requires { ¬ NamesNoFile path.now }
{
    make(&mut HostFolder::new(rt, alloc, path)?)
}
