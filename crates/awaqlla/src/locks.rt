// The locks: FILE.lock, which is made where it is missing and removed where FILE is none in the end, and the volume itself.
// What goes wrong is said by crate command.
use crate::names::{found_at, full_path, is_missing, link_at, real_path, same_file};
use command::{Lock, Told, patience, tell};
use command_io::{Status, inside, open_read, text_of, unlink};
use std::fs::{File, Metadata, OpenOptions, Permissions, TryLockError};
use std::io::{Error, ErrorKind};
use std::os::unix::fs::{MetadataExt, PermissionsExt};
use std::thread;
use std::time::Duration;
use text_digits::put;

// How often a second a lock that is held is tried again, and after how many seconds it is said that it is waited for.
const TRIES: u64 = 100;

const SECONDS_BEFORE_WORDS: u64 = 2;

// The locks that a command holds, or the status where it may not run; whether FILE.lock was made here; its path.
// The files are open for as long as the locks are held.
#[derive(Drop)]
pub(crate) struct Held {
    pub(crate) status: Result<(), Status>,
    made: bool,
    path: [u8; 8_208],
    size: usize,
    lock: Option<File>,
    volume: Option<File>,
}

// One try at FILE.lock: whether it is locked, and not removed meanwhile, or the status; and whether it was made here. The file stays open where it
// cannot be locked too, until FILE.lock is removed.
#[derive(Drop)]
struct Turn {
    locked: Result<bool, Status>,
    made: bool,
    file: Option<File>,
}

// A lock's file, and whether it was made here.
#[derive(Drop)]
struct Opened {
    file: File,
    made: bool,
}

// What is wrong with a lock's file; and whether it was made here, where the volume cannot be looked at.
#[derive(Clone, Copy)]
struct Wrong {
    told: Told,
    made: bool,
}

// Takes the locks that a command asks for.
pub(crate) fn lock(rt: &HostRuntime, how: Lock, volume: &[u8]) -> Held {
    let mut held = Held {
        status: Ok(()),
        made: false,
        path: [0; 8_208],
        size: 0,
        lock: None,
        volume: None,
    };
    if how != Lock::Volume {
        held = lock_name(rt, volume, held);
    }
    if how != Lock::Name && held.status.is_ok() {
        held = with_volume(rt, volume, held);
    }
    held
}

// The volume itself is locked too.
fn with_volume(rt: &HostRuntime, volume: &[u8], mut held: Held) -> Held {
    match lock_volume(rt, volume) {
        Ok(file) => held.volume = file,
        Err(failed) => held.status = Err(failed),
    }
    held
}

// Removes FILE.lock where it was made here and FILE is none, or was made new under that lock alone; then the locks are given back.
pub(crate) fn let_go(rt: &HostRuntime, held: Held, how: Lock, volume: &[u8]) {
    if held.made && (how == Lock::Name || found_at(rt, volume).is_err()) {
        let _ = unlink(rt, inside(held.size, &held.path));
    }
    drop(held);
}

// Locks FILE.lock.
fn lock_name(rt: &HostRuntime, volume: &[u8], mut held: Held) -> Held {
    if is_nameless(rt, volume) {
        held.status = Err(tell(rt, Told::NoName, volume));
        return held;
    }
    let mut path = [0u8; 8_208];
    let Some(full) = full_path(rt, volume, &mut path) else {
        held.status = Err(tell(rt, Told::NoFolder, volume));
        return held;
    };
    let end = full.len();
    let size = put(&mut path, end, b".lock");
    let Turn { locked, made, file } = lock_at(rt, volume, inside(size, &path));
    if let Err(failed) = locked {
        held.status = Err(failed);
    }
    held.made = made;
    held.lock = file;
    held.path = path;
    held.size = size;
    held
}

// Whether a file is there, but at no name without links, as one that was removed while it is open.
fn is_nameless(rt: &HostRuntime, volume: &[u8]) -> bool {
    if real_path(rt, volume).is_ok() {
        return false;
    }
    match found_at(rt, volume) {
        Ok(_) => true,
        Err(e) => !is_missing(&e),
    }
}

// Locks FILE.lock; one that was removed meanwhile is locked again.
fn lock_at(rt: &HostRuntime, volume: &[u8], lock: &[u8]) -> Turn {
    let mut made = false;
    for _ in 0..u64::MAX {
        let mut turn = lock_once(rt, volume, lock);
        made = made || turn.made;
        if turn.locked != Ok(false) {
            turn.made = made;
            return turn;
        }
        drop(turn);
    }
    over(tell(rt, Told::NotLocked, lock), false)
}

// A status, and no lock.
fn over(failed: Status, made: bool) -> Turn {
    Turn {
        locked: Err(failed),
        made,
        file: None,
    }
}

// One try.
fn lock_once(rt: &HostRuntime, volume: &[u8], lock: &[u8]) -> Turn {
    match open_lock(rt, volume, lock) {
        Ok(Opened { file, made }) => lock_opened(rt, lock, file, made),
        Err(Wrong { told, made }) => over(tell(rt, told, lock), made),
    }
}

// The same of a lock's file that is open.
fn lock_opened(rt: &HostRuntime, lock: &[u8], file: File, made: bool) -> Turn {
    let locked = match file.metadata() {
        Ok(held) => lock_found(rt, lock, &file, &held),
        Err(_) => Err(tell(rt, Told::NotPlain, lock)),
    };
    Turn {
        locked,
        made,
        file: Some(file),
    }
}

// Whether it is locked, or was removed before.
fn lock_found(rt: &HostRuntime, lock: &[u8], file: &File, held: &Metadata) -> Result<bool, Status> {
    if !held.is_file() {
        return Err(tell(rt, Told::NotPlain, lock));
    }
    hold(rt, file, lock)?;
    match link_at(rt, lock) {
        Ok(found) => Ok(same_file(held, &found)),
        Err(e) if is_missing(&e) => Ok(false),
        Err(_) => Err(tell(rt, Told::NotLocked, lock)),
    }
}

// What is wrong with a lock's file that was not made here.
fn not_made_here(told: Told) -> Wrong {
    Wrong { told, made: false }
}

// Opens FILE.lock, no link and a plain file, or makes it with the volume's mode. It is looked at first, since a pipe's end would be waited for.
fn open_lock(rt: &HostRuntime, volume: &[u8], lock: &[u8]) -> Result<Opened, Wrong> {
    match link_at(rt, lock) {
        Ok(found) if found.is_file() => open_plain(rt, volume, lock),
        Ok(_) => Err(not_made_here(Told::NotPlain)),
        Err(e) if e.kind() == ErrorKind::NotFound => make_lock(rt, volume, lock),
        Err(_) => Err(not_made_here(Told::NotMade)),
    }
}

// Opens one that is there; it is made where it was removed meanwhile.
fn open_plain(rt: &HostRuntime, volume: &[u8], lock: &[u8]) -> Result<Opened, Wrong> {
    match open_read(rt, lock) {
        Ok(file) => Ok(Opened { file, made: false }),
        Err(e) if e.kind() == ErrorKind::NotFound => make_lock(rt, volume, lock),
        Err(_) => Err(not_made_here(Told::NotMade)),
    }
}

// Makes one; it is opened where another made it meanwhile.
fn make_lock(rt: &HostRuntime, volume: &[u8], lock: &[u8]) -> Result<Opened, Wrong> {
    match create_lock(rt, lock) {
        Ok(file) => with_mode(rt, volume, file),
        Err(e) if e.kind() == ErrorKind::AlreadyExists => reopen(rt, lock),
        Err(_) => Err(not_made_here(Told::NotMade)),
    }
}

// Opens one that another made.
fn reopen(rt: &HostRuntime, lock: &[u8]) -> Result<Opened, Wrong> {
    match link_at(rt, lock) {
        Ok(found) if found.is_file() => {}
        Ok(_) => return Err(not_made_here(Told::NotPlain)),
        Err(_) => return Err(not_made_here(Told::NotMade)),
    }
    match open_read(rt, lock) {
        Ok(file) => Ok(Opened { file, made: false }),
        Err(_) => Err(not_made_here(Told::NotMade)),
    }
}

fn create_lock(rt: &HostRuntime, lock: &[u8]) -> Result<File, Error> {
    let mut how = OpenOptions::new();
    how.read(true);
    how.write(true);
    how.create_new(true);
    how.open(rt, text_of(lock)?)
}

// Gives a new lock the volume's mode, without the right to run it.
fn with_mode(rt: &HostRuntime, volume: &[u8], file: File) -> Result<Opened, Wrong> {
    match found_at(rt, volume) {
        Ok(found) => {
            let _ = file.set_permissions(Permissions::from_mode(found.mode() & 0o666));
        }
        Err(e) if is_missing(&e) => {}
        Err(_) => {
            return Err(Wrong {
                told: Told::NotMade,
                made: true,
            });
        }
    }
    Ok(Opened { file, made: true })
}

// Locks the volume itself, where there is one that can be read, so that its other names wait too; none where nothing is locked.
fn lock_volume(rt: &HostRuntime, volume: &[u8]) -> Result<Option<File>, Status> {
    match found_at(rt, volume) {
        Ok(found) if found.is_file() => lock_plain(rt, volume),
        Ok(_) => Ok(None),
        Err(e) => not_held(rt, volume, &e),
    }
}

// Why a volume is not locked: it is missing or cannot be read, or something is wrong.
fn not_held(rt: &HostRuntime, volume: &[u8], error: &Error) -> Result<Option<File>, Status> {
    if is_missing(error) || error.kind() == ErrorKind::PermissionDenied {
        Ok(None)
    } else {
        Err(tell(rt, Told::NotLocked, volume))
    }
}

// The same of a plain file.
fn lock_plain(rt: &HostRuntime, volume: &[u8]) -> Result<Option<File>, Status> {
    match open_read(rt, volume) {
        Ok(file) => {
            hold(rt, &file, volume)?;
            Ok(Some(file))
        }
        Err(e) => not_held(rt, volume, &e),
    }
}

// Takes the lock of an open file; says so where it waits, and gives up after --wait's seconds.
fn hold(rt: &HostRuntime, file: &File, path: &[u8]) -> Result<(), Status> {
    if file.try_lock().is_ok() {
        return Ok(());
    }
    let patience = patience(rt);
    for tick in 0..u64::MAX {
        if patience.is_some_and(|seconds| tick / TRIES >= seconds) {
            return Err(tell(rt, Told::Waited, path));
        }
        if tick == SECONDS_BEFORE_WORDS * TRIES {
            tell(rt, Told::Waiting, path);
        }
        match file.try_lock() {
            Ok(()) => return Ok(()),
            Err(TryLockError::WouldBlock) => thread::sleep(
                rt,
                Duration::from_millis(1_000 / TRIES),
            ),
            Err(TryLockError::Error(_)) => return Err(tell(rt, Told::NotLocked, path)),
        }
    }
    Err(tell(rt, Told::NotLocked, path))
}
