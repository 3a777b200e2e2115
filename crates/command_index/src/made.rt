// The index made in memory: its length, which is how many bytes of its buffer the file gets.
// A volume's length is all that was read of it.
ghost use Rattle.std.specs.Prelude.{◌≡◌, ◌≤◌, length, IfOk};
ghost use Rattle.journal_spec.specs.MakeIndex.{make_index_of};
ghost use Rattle.journal_index.specs.Made.{made_outcome};

use journal_index::IndexError;

// Makes the index of all of a slice. The second clause says what lending the index asks.
pub fn indexed(v: &[u8], out: &mut [u8]) -> Result<usize, IndexError>
    ensures out_after { made_outcome result out.new
        ≡ make_index_of (record { slice = v.now; len = length v.now }) out.old }
    ensures size_in_bounds { IfOk result (λ size. size ≤ length out.new) }
{
    journal_index::make_index(v, v.len(), out)
}
