// The making of a store's file, in a folder.
ghost use Rattle.std.specs.Prelude.{◌≡◌, ◌⊎◌, cond, IfOk, IsTrue, OnErr, OnOk};
ghost use Rattle.store_file.specs.declared.folder.Stage.TheVariants as at;
ghost use Rattle.store_file.specs.Stages.{is_given_up, is_ours, is_unheld};

use crate::folder::{Folder, Found, Name};
use crate::page::empty_database;
use std::io::{self, ErrorKind};

/// Whether a file is to be made where a link, or what is no file, has the store's name: it isn't, and where it
/// leads a store has to be.
fn is_wanted_behind<F: Folder>(folder: &mut F) -> io::Result<bool>
    requires { F.stage folder.old ≡ at.Begun }
    ensures ok { IfOk result (λ is_wanted. F.stage folder.new ≡ cond is_wanted at.Wanted at.There) }
    ensures err { OnErr result (F.stage folder.new ≡ at.Begun) }
{
    if folder.follow()?.has_bytes() {
        Ok(false)
    } else {
        Err(ErrorKind::Unsupported.into())
    }
}

/// Whether a file is to be made in this folder: nothing has the store's name, or a file of no bytes that
/// has no other name, and no log lies there with something in it.
fn is_wanted<F: Folder>(folder: &mut F) -> io::Result<bool>
    requires { F.stage folder.old ≡ at.Begun }
    ensures ok { IfOk result (λ is_wanted. F.stage folder.new ≡ cond is_wanted at.Wanted at.There) }
    ensures err { OnErr result (IsTrue (is_unheld (F.stage folder.new))) }
{
    let found = folder.look(Name::Store)?;
    if found.has_bytes() {
        return Ok(false);
    }
    if !found.is_vacant() {
        return match found {
            Found::Other => is_wanted_behind(folder),
            _ => Err(ErrorKind::Unsupported.into()),
        };
    }
    if folder.look(Name::Log)?.has_nothing() {
        Ok(true)
    } else {
        Err(ErrorKind::AlreadyExists.into())
    }
}

/// Opens the file with the other name. No link at the name is followed.
fn open_left<F: Folder>(folder: &mut F) -> io::Result<()>
    requires { F.stage folder.old ≡ at.Wanted }
    ensures ok { OnOk result (F.stage folder.new ≡ at.Opened) }
    ensures err { OnErr result (F.stage folder.new ≡ at.Wanted) }
{
    match folder.look(Name::Unfinished)? {
        Found::File(_) => folder.open(),
        _ => Err(ErrorKind::Unsupported.into()),
    }
}

/// Makes a file with the other name, or opens the one that is there.
fn open_or_make<F: Folder>(folder: &mut F) -> io::Result<()>
    requires { F.stage folder.old ≡ at.Wanted }
    ensures ok { OnOk result (F.stage folder.new ≡ at.Opened) }
    ensures err { OnErr result (F.stage folder.new ≡ at.Wanted) }
{
    match folder.make() {
        Ok(()) => Ok(()),
        Err(error) if error.kind() == ErrorKind::AlreadyExists => open_left(folder),
        Err(error) => Err(error),
    }
}

/// Opens or makes the file with the other name for this making alone: each making takes its lock, so
/// that none renames a file over a store that another one made meanwhile.
///
/// # Errors
///
/// Another making has it, or had it and gave it the store's name, or it has another name too, or more
/// bytes than a making could leave.
fn hold<F: Folder>(folder: &mut F) -> io::Result<()>
    requires { F.stage folder.old ≡ at.Wanted }
    ensures ok { OnOk result (F.stage folder.new ≡ at.Alone) }
    ensures err { OnErr result (IsTrue (is_unheld (F.stage folder.new))) }
{
    open_or_make(folder)?;
    folder.lock()?;
    if folder.compare()?.is_left() {
        Ok(())
    } else {
        Err(ErrorKind::Unsupported.into())
    }
}

/// Writes the page of an empty database into the file that is held, and syncs it.
fn fill<F: Folder>(folder: &mut F) -> io::Result<()>
    requires { F.stage folder.old ≡ at.Alone }
    ensures ok { OnOk result (F.stage folder.new ≡ at.Synced) }
    ensures err { OnErr result (IsTrue (is_ours (F.stage folder.new))) }
{
    folder.restrict()?;
    folder.cut()?;
    folder.write(&empty_database())?;
    folder.sync()
}

/// Gives the file that is held the name of the store, in place of a file of no bytes that no other process
/// has, as a server, a restore or `sqlite3`.
fn replace_empty<F: Folder>(folder: &mut F) -> io::Result<()>
    requires { F.stage folder.old ≡ at.Emptied }
    ensures ok { OnOk result (F.stage folder.new ≡ at.Named) }
    ensures err { OnErr result (IsTrue (is_ours (F.stage folder.new))) }
{
    if folder.guard()?.is_replaceable() {
        folder.rename()
    } else {
        Err(ErrorKind::AlreadyExists.into())
    }
}

/// Gives the file that is held the name of the store, where nothing has it that this would take away.
fn take_name<F: Folder>(folder: &mut F) -> io::Result<()>
    requires { F.stage folder.old ≡ at.Synced }
    ensures ok { OnOk result (F.stage folder.new ≡ at.Named) }
    ensures err { OnErr result (IsTrue (is_ours (F.stage folder.new))) }
{
    // The lock is held: only who holds it makes a file with the store's name.
    let found = folder.look(Name::Store)?;
    match found {
        Found::Nothing => folder.rename(),
        Found::File(_) if found.is_vacant() => replace_empty(folder),
        _ => Err(ErrorKind::AlreadyExists.into()),
    }
}

/// Fills the file that is held, and gives it the name of the store.
fn finish<F: Folder>(folder: &mut F) -> io::Result<()>
    requires { F.stage folder.old ≡ at.Alone }
    ensures ok { OnOk result (F.stage folder.new ≡ at.Named) }
    ensures err { OnErr result (IsTrue (is_ours (F.stage folder.new))) }
{
    fill(folder)?;
    take_name(folder)
}

/// Makes the file of a store in its folder, where nothing has the store's name, or a file of no bytes:
/// an empty database, under the other name, which is synced and renamed. Then the folder is synced. So
/// a crash leaves at the store's name what lay there before, or the whole file. What it left at the
/// other name is written anew the next time.
///
/// # Errors
///
/// - A call fails, as on a full disk or in a folder that can't be written.
/// - Another process makes the store at the same time.
/// - A log with something in it lies alone, or beside a file of no bytes, as of a store whose file was
///   lost. Its frames would be taken for those of the new file.
/// - What has the other name is nothing that a crash left.
/// - The file of no bytes has another name, or another process has it, or it is where a link leads; or
///   no file is where it leads.
///
/// What lay at the store's name is there, unless another process made a store, or the folder alone
/// failed to sync.
pub fn make<F: Folder>(folder: &mut F) -> io::Result<()>
    requires { F.stage folder.old ≡ at.Begun }
    ensures ok { OnOk result ((F.stage folder.new ≡ at.There)
        ⊎ (F.stage folder.new ≡ at.Kept)) }
    ensures err { OnErr result (IsTrue (is_given_up (F.stage folder.new))) }
{
    if !is_wanted(folder)? {
        return Ok(());
    }
    hold(folder)?;
    match finish(folder) {
        Ok(()) => folder.sync_folder(),
        Err(error) => {
            // Where it can't be removed either, the next making writes it anew.
            let _ = folder.remove();
            Err(error)
        }
    }
}
