// What stands at a file's name, as the program awaqlla finds it before a command runs, and whether a command may read it.
// Nothing is printed into a file that is read or written.
ghost use Rattle.std.specs.Prelude.{◌≡◌, slice_index_or};
ghost use Rattle.command_io.specs.Kinds.{nothing, apart_of, readable_of};

use crate::ending::Status;
use crate::message::{argument, fail, fail_argument};

// Nothing, a plain file, a folder, something else, or a link to nothing.
#[derive(Clone, Copy, Debug, PartialEq, Eq)]
pub enum Stands {
    Missing,
    Plain,
    Folder,
    Other,
    Dangling,
}

// What stands at a name; whether it may not be read; whether what is printed, on standard output, and what is told, on standard error, goes into
// it; and whether it is the volume that is locked.
#[derive(Clone, Copy, Debug, PartialEq, Eq)]
pub struct Kind {
    pub stands: Stands,
    pub closed: bool,
    pub printed: bool,
    pub told: bool,
    pub guarded: bool,
}

// Whether a command may read what stands there, or the first reason why not; Quiet where standard error goes into it.
#[derive(Clone, Copy, Debug, PartialEq, Eq)]
pub enum Access {
    Free,
    Missing,
    Folder,
    Unreadable,
    Quiet,
    Printed,
}

impl Kind {
    // What has no name, or is not there.
    pub const NOTHING: Kind = Kind {
        stands: Stands::Missing,
        closed: false,
        printed: false,
        told: false,
        guarded: false,
    };

    // Whether what is printed goes elsewhere.
    pub fn apart(self) -> Access
        ensures { result ≡ apart_of self }
    {
        if self.told {
            Access::Quiet
        } else if self.printed {
            Access::Printed
        } else {
            Access::Free
        }
    }

    // Whether a command may read what stands there.
    pub fn readable(self) -> Access
        ensures { result ≡ readable_of self }
    {
        match self.stands {
            Stands::Missing | Stands::Dangling => Access::Missing,
            Stands::Folder => Access::Folder,
            _ if self.closed => Access::Unreadable,
            _ => self.apart(),
        }
    }
}

// The kind of the argument at a place; nothing where the program has told of none.
pub fn kind_at(kinds: &[Kind], at: usize) -> Kind
    ensures { result ≡ slice_index_or kinds.now at nothing }
{
    kinds.get(at).copied().unwrap_or(Kind::NOTHING)
}

// Whether it is the volume that is locked.
pub fn is_guarded(kinds: &[Kind], at: usize) -> bool
    ensures { result ≡ (slice_index_or kinds.now at nothing).guarded }
{
    kind_at(kinds, at).guarded
}

// Whether the file at a place can be read, and nothing is printed into it; if not, what is wrong is said.
pub fn readable(rt: &HostRuntime, kinds: &[Kind], at: usize) -> bool {
    let mut room = [0u8; 2];
    if argument(rt, at, &mut room).is_empty() {
        fail(rt, b"FILE: an empty name");
        return false;
    }
    is_free(rt, at, kind_at(kinds, at).readable())
}

// Whether nothing is printed into the file at a place; if not, that is said.
pub fn apart(rt: &HostRuntime, kinds: &[Kind], at: usize) -> bool {
    is_free(rt, at, kind_at(kinds, at).apart())
}

// The same of standard input.
pub fn input_apart(rt: &HostRuntime, kinds: &[Kind]) -> bool {
    match kind_at(kinds, 0).apart() {
        Access::Printed => {
            fail(rt, b"standard input: what is printed would go into it");
            false
        }
        _ => true,
    }
}

// Whether it is free; if not, why not is said.
fn is_free(rt: &HostRuntime, at: usize, access: Access) -> bool {
    match access {
        Access::Free => return true,
        Access::Missing => fail_argument(rt, at, b"there is no such file"),
        Access::Folder => fail_argument(rt, at, b"it is a folder"),
        Access::Unreadable => fail_argument(rt, at, b"it cannot be read"),
        Access::Printed => fail_argument(rt, at, b"what is printed would go into it"),
        Access::Quiet => Status::Failed,
    };
    false
}
