// The folder of a path: what stands up to its last slash, with the slash.
// A path without one is of the folder that the program runs in.
ghost use Rattle.std.specs.Prelude.{◌≡◌};
ghost use Rattle.command_io.specs.Paths.{folder_end};
ghost use Rattle.io.specs.Counts.{IsPrefixLen};

// How many bytes of the path name its folder, 0 where there is no slash. The second clause says what lending them asks.
pub fn folder_end(path: &[u8]) -> usize
    ensures value { result ≡ folder_end path.now }
    ensures prefix_len { IsPrefixLen result path.now }
{
    for i in (0..path.len()).rev() {
        if path[i] == b'/' {
            return i + 1;
        }
    }
    0
}
