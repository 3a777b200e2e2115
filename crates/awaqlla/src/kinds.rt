// What stands at a name, and which of the standard streams and of the program's files it is, as crate command_io reads it.
use crate::names::{found_at, full_path, is_missing, link_at, same_file};
use command_io::{Kind, Stands, open_read};
use std::fs::Metadata;
use std::io::{Error, ErrorKind};

// What stands at a name; nothing where an error hides it. `guarded` is the name of what is locked, where that is another argument.
pub(crate) fn kind_of(rt: &HostRuntime, path: &[u8], guarded: Option<&[u8]>) -> Option<Kind> {
    match found_at(rt, path) {
        Ok(found) => kind_of_found(rt, path, &found, guarded),
        Err(e) if is_missing(&e) => Some(kind_of_missing(rt, path, guarded)),
        Err(_) => None,
    }
}

// The same where nothing is found: a link to nothing, or not even that.
fn kind_of_missing(rt: &HostRuntime, path: &[u8], guarded: Option<&[u8]>) -> Kind {
    match link_at(rt, path) {
        Ok(_) => Kind {
            stands: Stands::Dangling,
            ..Kind::NOTHING
        },
        Err(_) => Kind {
            guarded: guarded.is_some_and(|other| are_one_path(rt, path, other)),
            ..Kind::NOTHING
        },
    }
}

// Whether two names are of one place.
fn are_one_path(rt: &HostRuntime, path: &[u8], other: &[u8]) -> bool {
    let mut here = [0u8; 8_200];
    let mut there = [0u8; 8_200];
    match full_path(rt, path, &mut here) {
        Some(here) => full_path(rt, other, &mut there).unwrap_or(b"") == here,
        None => false,
    }
}

// The same where a file or the like is found.
fn kind_of_found(
    rt: &HostRuntime,
    path: &[u8],
    found: &Metadata,
    guarded: Option<&[u8]>,
) -> Option<Kind> {
    let stands = stands(found);
    let closed = stands != Stands::Other && !can_be_read(rt, path);
    let kind = with_streams(rt, stands, closed, found);
    match guarded {
        Some(other) => with_guard(rt, kind, found, other),
        None => Some(kind),
    }
}

// The kind of standard input.
pub(crate) fn kind_of_input(rt: &HostRuntime) -> Kind {
    match found_at(rt, b"/dev/fd/0") {
        Ok(found) => with_streams(rt, stands(&found), false, &found),
        Err(_) => Kind {
            stands: Stands::Other,
            ..Kind::NOTHING
        },
    }
}

// The kind, with what is printed and what is said.
fn with_streams(rt: &HostRuntime, stands: Stands, closed: bool, found: &Metadata) -> Kind {
    Kind {
        stands,
        closed,
        printed: stands == Stands::Plain && !closed && is_stream(rt, found, b"/dev/fd/1"),
        told: matches!(stands, Stands::Plain | Stands::Other) && is_stream(rt, found, b"/dev/fd/2"),
        guarded: false,
    }
}

// Which kind of thing stands there.
fn stands(found: &Metadata) -> Stands {
    if found.is_file() {
        Stands::Plain
    } else if found.is_dir() {
        Stands::Folder
    } else {
        Stands::Other
    }
}

// Whether a file or a folder may be opened to be read. Of any other error the command says more, which opens it again.
fn can_be_read(rt: &HostRuntime, path: &[u8]) -> bool {
    match open_read(rt, path) {
        Ok(_) => true,
        Err(e) => e.kind() != ErrorKind::PermissionDenied,
    }
}

// Whether it is what a standard stream writes to.
fn is_stream(rt: &HostRuntime, found: &Metadata, stream: &[u8]) -> bool {
    match found_at(rt, stream) {
        Ok(other) => same_file(found, &other),
        Err(_) => false,
    }
}

// The kind, with whether it is what is locked; nothing where an error hides that.
fn with_guard(rt: &HostRuntime, kind: Kind, found: &Metadata, guarded: &[u8]) -> Option<Kind> {
    match found_at(rt, guarded) {
        Ok(other) => Some(Kind {
            guarded: same_file(found, &other),
            ..kind
        }),
        Err(e) if is_missing(&e) => Some(kind),
        Err(_) => None,
    }
}
