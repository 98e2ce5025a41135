//! A folder in memory, which can refuse a call, and have another process act before one.
ghost use Rattle.std.specs.Prelude.{◌≡◌};

use std::alloc::Global;
use std::io::{self, ErrorKind};
use store_file::{Compared, FileFacts, Folder, Found, Name, PAGE_BYTES, Stage, empty_database};

/// A call of the making.
#[derive(Clone, Copy, Debug, PartialEq, Eq)]
pub enum Call {
    Look(Name),
    Follow,
    Make,
    Open,
    Lock,
    Compare,
    Restrict,
    Cut,
    Write,
    Sync,
    Guard,
    Rename,
    SyncFolder,
    Remove,
}

/// What a file has.
#[derive(Clone, Copy, Debug, PartialEq, Eq)]
pub enum Content {
    Empty,
    /// The page of an empty database.
    Page,
    /// So many other bytes.
    Bytes(u64),
}

/// What another process has in its file, which no making may touch.
pub const THEIRS: Content = Content::Bytes(777);

/// What lies at a name.
#[derive(Clone, Copy, Debug, PartialEq, Eq)]
pub enum Lies {
    Nothing,
    File(Content),
    /// A file that has a second name.
    Twin(Content),
    /// A file whose lock another process has.
    Locked(Content),
    /// A link, or a folder.
    Other,
}

/// What another process does.
#[derive(Clone, Copy, Debug, PartialEq, Eq)]
pub enum Act {
    /// It makes the store to the end, unless this making has the lock of the file.
    Makes,
    /// It begins to make the store, and has the lock of the file.
    Begins,
    /// It puts a file at the store's name, whatever is locked.
    Puts,
    /// It writes into the file at the store's name.
    Fills,
    /// It puts a link to its own file at the other name.
    Links,
}

/// What lies in the folder first, and what disturbs the making.
#[derive(Clone, Copy)]
pub struct Trial {
    pub store: Lies,
    pub unfinished: Lies,
    pub log: Lies,
    /// How many bytes the file has to which a link at the store's name leads, if there is one.
    pub behind: Option<u64>,
    /// The place of the first call that is refused.
    pub refused: Option<usize>,
    /// Whether all calls behind it are refused too.
    pub is_dead: bool,
    /// What another process does before the call of this place.
    pub act: Option<(usize, Act)>,
}

/// An empty folder, and nothing that disturbs.
pub const CALM: Trial = Trial {
    store: Lies::Nothing,
    unfinished: Lies::Nothing,
    log: Lies::Nothing,
    behind: None,
    refused: None,
    is_dead: false,
    act: None,
};

/// A file, or something else that has a name.
#[derive(Clone, Copy, Debug, PartialEq, Eq)]
struct Node {
    content: Content,
    is_file: bool,
    names: u64,
    is_private: bool,
    /// Whether the disk has what it has.
    is_synced: bool,
    is_locked: bool,
}

/// What lies at a name, as the folder keeps it.
fn node_of(lies: Lies) -> Node {
    let content = match lies {
        Lies::File(content) | Lies::Twin(content) | Lies::Locked(content) => content,
        Lies::Nothing | Lies::Other => Content::Empty,
    };
    Node {
        content,
        is_file: lies != Lies::Other,
        names: if matches!(lies, Lies::Twin(_)) { 2 } else { 1 },
        is_private: false,
        is_synced: true,
        is_locked: matches!(lies, Lies::Locked(_)),
    }
}

/// The place of what lies at a name, if anything does.
fn place_of(lies: Lies, place: usize) -> Option<usize> {
    if lies == Lies::Nothing {
        None
    } else {
        Some(place)
    }
}

/// The places of the file that this making makes, and of another process's.
const OURS: usize = 3;

const OTHERS: usize = 4;

/// Which file has which name.
#[derive(Clone, Copy, Debug, PartialEq, Eq)]
struct Names {
    store: Option<usize>,
    unfinished: Option<usize>,
    log: Option<usize>,
}

/// The files, their names now and on the disk, and the calls so far.
#[derive(Drop)]
struct World {
    trial: Trial,
    nodes: [Node; 5],
    now: Names,
    disk: Names,
    held: Option<usize>,
    /// Whether this making has the lock of the open file.
    is_ours: bool,
    calls: Vec<Call>,
    /// Whether a cut of the power before each call so far would have left at the store's name what lay
    /// there, or the page.
    is_safe: bool,
}

impl World {
    fn new(alloc: Global, trial: Trial) -> World {
        let now = Names {
            store: place_of(trial.store, 0),
            unfinished: place_of(trial.unfinished, 1),
            log: place_of(trial.log, 2),
        };
        World {
            trial,
            nodes: [
                node_of(trial.store),
                node_of(trial.unfinished),
                node_of(trial.log),
                node_of(Lies::File(Content::Empty)),
                node_of(Lies::File(THEIRS)),
            ],
            now,
            disk: now,
            held: None,
            is_ours: false,
            calls: Vec::new(alloc),
            is_safe: true,
        }
    }

    fn place(&self, name: Name) -> Option<usize> {
        match name {
            Name::Store => self.now.store,
            Name::Unfinished => self.now.unfinished,
            Name::Log => self.now.log,
        }
    }

    fn node(&self, place: Option<usize>) -> Option<Node> {
        self.nodes.get(place?).copied()
    }

    fn found(&self, place: Option<usize>) -> Found {
        match self.node(place) {
            None => Found::Nothing,
            Some(node) if !node.is_file => Found::Other,
            Some(node) => Found::File(FileFacts {
                device: 1,
                node: place.unwrap_or(0) as u64,
                bytes: match node.content {
                    Content::Empty => 0,
                    Content::Page => 1024,
                    Content::Bytes(count) => count,
                },
                names: node.names,
            }),
        }
    }

    /// What lies where a link at the store's name leads.
    fn behind(&self) -> Found {
        match self.trial.behind {
            None => Found::Nothing,
            Some(bytes) => Found::File(FileFacts {
                device: 1,
                node: 99,
                bytes,
                names: 1,
            }),
        }
    }

    /// What lies at a name that leads here.
    fn lies(&self, place: Option<usize>) -> Lies {
        match self.node(place) {
            None => Lies::Nothing,
            Some(node) if !node.is_file => Lies::Other,
            Some(node) if node.names == 2 => Lies::Twin(node.content),
            Some(node) if node.is_locked => Lies::Locked(node.content),
            Some(node) => Lies::File(node.content),
        }
    }

    /// Whether a store's name that leads here has what lay there, or the page, or what another process made.
    fn is_safe_at(&self, place: Option<usize>) -> bool {
        match self.node(place) {
            None => self.trial.store == Lies::Nothing,
            Some(node) if place == Some(0) && node.content != THEIRS => {
                node == node_of(self.trial.store)
            }
            Some(node) => node.is_synced
                && (node.content == Content::Page || node.content == THEIRS),
        }
    }

    /// What the other process does.
    fn act(&mut self, act: Act) {
        let place = self.now.unfinished.unwrap_or(OTHERS);
        match act {
            Act::Makes if self.is_ours && self.held == Some(place) => {}
            Act::Makes => {
                if let Some(node) = self.nodes.get_mut(place) {
                    node.content = THEIRS;
                }
                self.now.store = Some(place);
                self.now.unfinished = None;
                self.disk = self.now;
            }
            Act::Begins => {
                self.nodes[OTHERS].is_locked = true;
                self.now.unfinished = Some(OTHERS);
            }
            Act::Puts => {
                self.now.store = Some(OTHERS);
                self.disk = self.now;
            }
            Act::Fills => self.nodes[0].content = THEIRS,
            Act::Links => {
                self.nodes[1].is_file = false;
                self.now.unfinished = Some(1);
            }
        }
    }

    /// Notes a call, which may be refused, behind what the other process does.
    fn begin(&mut self, call: Call) -> io::Result<()> {
        let place = self.calls.len();
        if let Some((at, act)) = self.trial.act
            && at == place
        {
            self.act(act);
        }
        self.calls.push(call)?;
        self.is_safe = self.is_safe
            && self.is_safe_at(self.disk.store)
            && self.is_safe_at(self.now.store);
        match self.trial.refused {
            Some(first) if first == place || (first < place && self.trial.is_dead) => {
                Err(ErrorKind::StorageFull.into())
            }
            _ => Ok(()),
        }
    }

    /// The open file.
    fn held(&mut self) -> io::Result<&mut Node> {
        match self.held {
            Some(place) => self
                .nodes
                .get_mut(place)
                .ok_or(ErrorKind::InvalidInput.into()),
            None => Err(ErrorKind::InvalidInput.into()),
        }
    }

    fn make(&mut self) -> io::Result<()> {
        if self.now.unfinished.is_some() {
            return Err(ErrorKind::AlreadyExists.into());
        }
        self.nodes[OURS].is_private = true;
        self.now.unfinished = Some(OURS);
        self.held = Some(OURS);
        Ok(())
    }

    /// Opens what has the other name, or what a link there leads to.
    fn open(&mut self) -> io::Result<()> {
        let place = self.now.unfinished;
        self.held = match self.node(place) {
            None => return Err(ErrorKind::NotFound.into()),
            Some(node) if node.is_file => place,
            Some(_) => Some(OTHERS),
        };
        Ok(())
    }

    fn lock(&mut self) -> io::Result<()> {
        if self.held()?.is_locked {
            return Err(ErrorKind::WouldBlock.into());
        }
        self.is_ours = true;
        Ok(())
    }

    fn write(&mut self, page: &[u8; PAGE_BYTES]) -> io::Result<()> {
        let is_page = *page == empty_database();
        let node = self.held()?;
        node.is_synced = false;
        node.content = if is_page && node.content == Content::Empty {
            Content::Page
        } else {
            THEIRS
        };
        Ok(())
    }

    fn rename(&mut self) {
        self.now.store = self.now.unfinished;
        self.now.unfinished = None;
    }
}

/// A folder in memory, and how far the making has come.
#[derive(Drop)]
pub struct Imagined {
    world: World,
    stage: Stage,
}

impl Folder for Imagined {
    ghost stage = { λ folder. folder.stage };

    fn look(&mut self, name: Name) -> io::Result<Found> {
        self.world.begin(Call::Look(name))?;
        let found = self.world.found(self.world.place(name));
        self.stage = self.stage.looked(name, found);
        Ok(found)
    }

    fn follow(&mut self) -> io::Result<Found> {
        self.world.begin(Call::Follow)?;
        let found = self.world.behind();
        if found.has_bytes() {
            self.stage = Stage::There;
        }
        Ok(found)
    }

    fn make(&mut self) -> io::Result<()> {
        self.world.begin(Call::Make)?;
        self.world.make()?;
        self.stage = Stage::Opened;
        Ok(())
    }

    fn open(&mut self) -> io::Result<()> {
        self.world.begin(Call::Open)?;
        self.world.open()?;
        self.stage = Stage::Opened;
        Ok(())
    }

    fn lock(&mut self) -> io::Result<()> {
        self.world.begin(Call::Lock)?;
        self.world.lock()?;
        self.stage = Stage::Locked;
        Ok(())
    }

    fn compare(&mut self) -> io::Result<Compared> {
        self.world.begin(Call::Compare)?;
        let compared = Compared {
            held: self.world.found(self.world.held),
            named: self.world.found(self.world.now.unfinished),
        };
        if compared.is_left() {
            self.stage = Stage::Alone;
        }
        Ok(compared)
    }

    fn restrict(&mut self) -> io::Result<()> {
        self.world.begin(Call::Restrict)?;
        self.world.held()?.is_private = true;
        self.stage = Stage::Private;
        Ok(())
    }

    fn cut(&mut self) -> io::Result<()> {
        self.world.begin(Call::Cut)?;
        let node = self.world.held()?;
        node.content = Content::Empty;
        node.is_synced = false;
        self.stage = Stage::Cut;
        Ok(())
    }

    fn write(&mut self, page: &[u8; PAGE_BYTES]) -> io::Result<()> {
        self.world.begin(Call::Write)?;
        self.world.write(page)?;
        self.stage = Stage::Written;
        Ok(())
    }

    fn sync(&mut self) -> io::Result<()> {
        self.world.begin(Call::Sync)?;
        self.world.held()?.is_synced = true;
        self.stage = Stage::Synced;
        Ok(())
    }

    fn guard(&mut self) -> io::Result<Compared> {
        self.world.begin(Call::Guard)?;
        let place = self.world.now.store;
        if self.world.node(place).is_some_and(|node| node.is_locked) {
            return Err(ErrorKind::WouldBlock.into());
        }
        let compared = Compared {
            held: self.world.found(place),
            named: self.world.found(self.world.now.store),
        };
        if compared.is_replaceable() {
            self.stage = Stage::Vacant;
        }
        Ok(compared)
    }

    fn rename(&mut self) -> io::Result<()> {
        self.world.begin(Call::Rename)?;
        self.world.rename();
        self.stage = Stage::Named;
        Ok(())
    }

    fn sync_folder(&mut self) -> io::Result<()> {
        self.world.begin(Call::SyncFolder)?;
        self.world.disk = self.world.now;
        self.stage = Stage::Kept;
        Ok(())
    }

    fn remove(&mut self) -> io::Result<()> {
        let removed = self.world.begin(Call::Remove);
        if removed.is_ok() {
            self.world.now.unfinished = None;
            self.stage = Stage::Removed;
        } else {
            self.stage = Stage::Left;
        }
        removed
    }
}

/// What a making came to.
#[derive(Clone, Copy, Debug, PartialEq, Eq)]
pub struct Outcome {
    pub is_ok: bool,
    /// What lies at the store's name, and at the other one.
    pub store: Lies,
    pub unfinished: Lies,
    /// Whether what lies at the store's name is for its owner alone, and the disk has it there.
    pub is_private: bool,
    pub is_kept: bool,
    /// Whether a cut of the power at any moment would have left at the store's name what lay there, or the page.
    pub is_safe: bool,
    /// Whether the file of another process has what it had.
    pub is_theirs: bool,
}

impl Imagined {
    pub fn new(alloc: Global, trial: Trial) -> Imagined
        ensures { result.stage ≡ Stage.Begun }
    {
        Imagined {
            world: World::new(alloc, trial),
            stage: Stage::Begun,
        }
    }

    /// The calls, with which the folder ends.
    pub fn into_calls(self) -> Vec<Call> {
        let Imagined { world, stage: _ } = self;
        world.calls
    }

    /// What the making came to.
    pub fn outcome(&self, is_ok: bool) -> Outcome {
        let world = &self.world;
        Outcome {
            is_ok,
            store: world.lies(world.now.store),
            unfinished: world.lies(world.now.unfinished),
            is_private: world
                .node(world.now.store)
                .is_some_and(|node| node.is_private),
            is_kept: world.disk.store == world.now.store,
            is_safe: world.is_safe
                && world.is_safe_at(world.disk.store)
                && world.is_safe_at(world.now.store),
            is_theirs: world.nodes[OTHERS].content == THEIRS,
        }
    }
}
