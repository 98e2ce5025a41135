// The folder of a store, as the making of its file sees it.
ghost use Rattle.std.specs.Prelude.{◌≡◌, cond, IfOk, IsTrue, OnErr, OnOk};
ghost use Rattle.store_file.specs.Page.{IsPage};
ghost use Rattle.store_file.specs.Stages.{has_bytes, has_nothing, is_left, is_ours, is_replaceable, is_same_file, is_vacant, looked};

use crate::page::PAGE_BYTES;
use std::io;

/// A name in the folder.
#[derive(Clone, Copy, Debug, PartialEq, Eq)]
pub enum Name {
    /// That of the store.
    Store,
    /// That of its file while it is made.
    Unfinished,
    /// That of its log.
    Log,
}

/// What is known of a file.
#[derive(Clone, Copy, Debug, PartialEq, Eq)]
pub struct FileFacts {
    /// The device on which it lies.
    pub device: u64,
    /// Its number there.
    pub node: u64,
    /// How many bytes it has.
    pub bytes: u64,
    /// How many names it has.
    pub names: u64,
}

/// What lies at a name.
#[derive(Clone, Copy, Debug, PartialEq, Eq)]
pub enum Found {
    /// Nothing.
    Nothing,
    /// A file.
    File(FileFacts),
    /// A link, a folder or something else that is no file.
    Other,
}

impl Found {
    /// Whether it is a file that has bytes.
    pub fn has_bytes(self) -> bool
        ensures { result ≡ has_bytes self }
    {
        match self {
            Found::File(facts) => facts.bytes > 0,
            Found::Nothing | Found::Other => false,
        }
    }

    /// Whether there is no file, or one of no bytes.
    pub fn has_nothing(self) -> bool
        ensures { result ≡ has_nothing self }
    {
        match self {
            Found::Nothing => true,
            Found::File(facts) => facts.bytes == 0,
            Found::Other => false,
        }
    }

    /// Whether a store in its place would take nothing away: there is no file, or one of no bytes that has
    /// no other name.
    pub fn is_vacant(self) -> bool
        ensures { result ≡ is_vacant self }
    {
        match self {
            Found::Nothing => true,
            Found::File(facts) => facts.bytes == 0 && facts.names == 1,
            Found::Other => false,
        }
    }
}

/// Whether these are facts of one file.
fn is_same_file(a: FileFacts, b: FileFacts) -> bool
    ensures { result ≡ is_same_file a b }
{
    a.device == b.device && a.node == b.node
}

/// An open file beside what lies at its name.
#[derive(Clone, Copy, Debug, PartialEq, Eq)]
pub struct Compared {
    /// The open file.
    pub held: Found,
    /// What lies at the name by which it was opened.
    pub named: Found,
}

impl Compared {
    /// Whether the open file is the one at its name, has no other name, and has no more bytes than a
    /// making leaves.
    pub fn is_left(self) -> bool
        ensures { result ≡ is_left self.held self.named }
    {
        match (self.held, self.named) {
            (Found::File(held), Found::File(named)) => {
                is_same_file(held, named) && held.names == 1 && held.bytes <= PAGE_BYTES as u64
            }
            _ => false,
        }
    }

    /// Whether the open file is the one at its name, and a store in its place would take nothing away.
    pub fn is_replaceable(self) -> bool
        ensures { result ≡ is_replaceable self.held self.named }
    {
        match (self.held, self.named) {
            (Found::File(held), Found::File(named)) => {
                is_same_file(held, named) && self.held.is_vacant()
            }
            _ => false,
        }
    }
}

/// How far the making of a store's file has come, by what the calls answered. A call that fails is
/// taken as not done.
#[derive(Clone, Copy, Debug, PartialEq, Eq)]
pub enum Stage {
    /// No file was opened.
    Begun,
    /// A store is there, or something else that has bytes.
    There,
    /// Nothing was found at the store's name that a store would take away.
    Free,
    /// Nor a log with something in it: a store is to be made.
    Wanted,
    /// The file with the other name is open, and may be another's.
    Opened,
    /// No other making has the lock of the open file.
    Locked,
    /// It is new, or what a crash left of a making, and still has the other name.
    Alone,
    /// Its owner alone may read it.
    Private,
    /// It was cut to no bytes.
    Cut,
    /// It has the page, as long as no power is cut.
    Written,
    /// It has the page, whatever is cut.
    Synced,
    /// A file of no bytes was found since at the store's name.
    Emptied,
    /// Nothing was found since at the store's name, or no other process has the file of no bytes.
    Vacant,
    /// It has the name of the store, as long as no power is cut.
    Named,
    /// It has that name, whatever is cut.
    Kept,
    /// It is removed.
    Removed,
    /// It couldn't be removed.
    Left,
}

impl Stage {
    /// How far it has come once this was found at a name.
    pub fn looked(self, name: Name, found: Found) -> Stage
        ensures { result ≡ looked name self found }
    {
        match (name, self) {
            (Name::Store, Stage::Begun) if found.has_bytes() => Stage::There,
            (Name::Store, Stage::Begun) if found.is_vacant() => Stage::Free,
            (Name::Log, Stage::Free) if found.has_nothing() => Stage::Wanted,
            (Name::Store, Stage::Synced) if found == Found::Nothing => Stage::Vacant,
            (Name::Store, Stage::Synced) if found.is_vacant() => Stage::Emptied,
            _ => self,
        }
    }
}

/// The folder of a store. A call that changes something is made in its turn alone, and tells how far
/// the making has come. None of them but `rename` changes what lies at the store's name.
pub trait Folder {
    ghost use Rattle.store_file.specs.declared.folder.Stage.{Stage};
    ghost use Rattle.store_file.specs.declared.folder.Stage.TheVariants as at;

    /// How far the making of a store's file has come.
    ghost stage: { Self → Stage };

    /// What lies at a name. No link is followed.
    fn look(&mut self, name: Name) -> io::Result<Found>
        ensures ok { IfOk result (λ found. stage self.new ≡ looked name (stage self.old) found) }
        ensures err { OnErr result (stage self.new ≡ stage self.old) };

    /// What lies where a link at the store's name leads.
    fn follow(&mut self) -> io::Result<Found>
        requires { stage self.old ≡ at.Begun }
        ensures ok { IfOk result (λ found.
            stage self.new ≡ cond (has_bytes found) at.There at.Begun) }
        ensures err { OnErr result (stage self.new ≡ at.Begun) };

    /// Makes a file with the other name, for its owner alone. Whatever has that name makes it fail.
    fn make(&mut self) -> io::Result<()>
        requires { stage self.old ≡ at.Wanted }
        ensures ok { OnOk result (stage self.new ≡ at.Opened) }
        ensures err { OnErr result (stage self.new ≡ at.Wanted) };

    /// Opens the file with the other name.
    fn open(&mut self) -> io::Result<()>
        requires { stage self.old ≡ at.Wanted }
        ensures ok { OnOk result (stage self.new ≡ at.Opened) }
        ensures err { OnErr result (stage self.new ≡ at.Wanted) };

    /// Takes the lock of the open file, until this making ends.
    fn lock(&mut self) -> io::Result<()>
        requires { stage self.old ≡ at.Opened }
        ensures ok { OnOk result (stage self.new ≡ at.Locked) }
        ensures err { OnErr result (stage self.new ≡ at.Opened) };

    /// What is open, and what lies at the other name.
    fn compare(&mut self) -> io::Result<Compared>
        requires { stage self.old ≡ at.Locked }
        ensures ok { IfOk result (λ found. stage self.new
            ≡ cond (is_left found.held found.named) at.Alone at.Locked) }
        ensures err { OnErr result (stage self.new ≡ at.Locked) };

    /// Lets the open file's owner alone read and write it.
    fn restrict(&mut self) -> io::Result<()>
        requires { stage self.old ≡ at.Alone }
        ensures ok { OnOk result (stage self.new ≡ at.Private) }
        ensures err { OnErr result (stage self.new ≡ at.Alone) };

    /// Cuts the open file to no bytes.
    fn cut(&mut self) -> io::Result<()>
        requires { stage self.old ≡ at.Private }
        ensures ok { OnOk result (stage self.new ≡ at.Cut) }
        ensures err { OnErr result (stage self.new ≡ at.Private) };

    /// Writes the page of an empty database into the open file.
    fn write(&mut self, page: &[u8; PAGE_BYTES]) -> io::Result<()>
        requires turn { stage self.old ≡ at.Cut }
        requires page { IsPage page.now }
        ensures ok { OnOk result (stage self.new ≡ at.Written) }
        ensures err { OnErr result (stage self.new ≡ at.Cut) };

    /// Syncs the open file.
    fn sync(&mut self) -> io::Result<()>
        requires { stage self.old ≡ at.Written }
        ensures ok { OnOk result (stage self.new ≡ at.Synced) }
        ensures err { OnErr result (stage self.new ≡ at.Written) };

    /// Opens the file of no bytes at the store's name, and takes the lock by which a server has a store,
    /// until this making ends. What is open, and what lies at that name then.
    fn guard(&mut self) -> io::Result<Compared>
        requires { stage self.old ≡ at.Emptied }
        ensures ok { IfOk result (λ found. stage self.new
            ≡ cond (is_replaceable found.held found.named) at.Vacant at.Emptied) }
        ensures err { OnErr result (stage self.new ≡ at.Emptied) };

    /// Gives the open file the name of the store.
    fn rename(&mut self) -> io::Result<()>
        requires { stage self.old ≡ at.Vacant }
        ensures ok { OnOk result (stage self.new ≡ at.Named) }
        ensures err { OnErr result (stage self.new ≡ at.Vacant) };

    /// Syncs the folder.
    fn sync_folder(&mut self) -> io::Result<()>
        requires { stage self.old ≡ at.Named }
        ensures ok { OnOk result (stage self.new ≡ at.Kept) }
        ensures err { OnErr result (stage self.new ≡ at.Named) };

    /// Removes the file with the other name.
    fn remove(&mut self) -> io::Result<()>
        requires { IsTrue (is_ours (stage self.old)) }
        ensures ok { OnOk result (stage self.new ≡ at.Removed) }
        ensures err { OnErr result (stage self.new ≡ at.Left) };
}
