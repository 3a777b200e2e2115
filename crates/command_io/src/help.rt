// Arguments that are words: `--help`, and whether an argument is a given word.
// They are compared byte by byte.
ghost use Rattle.std.specs.Prelude.{◌≡◌};
ghost use Rattle.command_io.specs.Arguments.{is_help};

use crate::system::arg;
use text_digits::same;

// Whether a word is `--help`.
pub fn is_help(word: &[u8]) -> bool
    ensures { result ≡ is_help word.now }
{
    same(word, b"--help")
}

// Whether the argument at a place is a word, of at most 32 bytes.
pub fn is_argument(rt: &HostRuntime, at: usize, word: &[u8]) -> bool {
    let mut room = [0u8; 32];
    arg(rt, at, &mut room).unwrap_or(b"") == word
}
