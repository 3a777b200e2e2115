// What the programs share. They read the word `--help`, a decimal number, decimal numbers separated by white space, and an input to its end;
// they print their help, gather their output, and say where standard output or a file fails. No public function has a `requires`.
#![tactic(auto)]

mod digit;
mod ending;
mod file;
mod files;
mod help;
mod input;
mod kinds;
mod message;
mod number;
mod numbers;
mod options;
mod output;
mod path;
mod pieces;
mod places;
mod shown;
mod system;

pub use ending::Status;
pub use file::{Held, made, open_held, path_at, write_synced};
pub use files::{complain, fail_file, read_argument, read_named, streams_are_open, sync_folder};
pub use help::{is_argument, is_help};
pub use input::{Unread, input_room, read_input, refused};
pub use kinds::{Access, Kind, Stands, apart, input_apart, is_guarded, kind_at, readable};
pub use message::{
    argument, await_input, fail, fail_argument, fail_between, fail_file_of, fail_of, print_verdict,
    say, say_last, write_output, write_shown,
};
pub use number::read_number;
pub use numbers::{Malformed, read_numbers};
pub use options::{Command, Flag, Options, command_of, flag_of};
pub use output::{print, usage};
pub use path::folder_end;
pub use pieces::{flush, gather};
pub use places::{behind, inside, words_from};
pub use shown::put_shown;
pub use system::{
    arg, arg_count, create, fail_system, open_read, open_update, rename, text_of, unlink,
    write_error, write_error_decimal,
};
