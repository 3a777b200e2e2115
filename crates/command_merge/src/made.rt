// The merge in memory: its length, which is how many bytes of the buffer the new file gets.
// An input's length is all that was read of it.
ghost use Rattle.std.specs.Prelude.{◌≡◌, ◌≤◌, length, IfOk};
ghost use Rattle.journal_merge_spec.specs.Merge.{merge_of};
ghost use Rattle.journal_merge.specs.Answers.{outcome_of};

use journal_merge::MergeError;

// Room for the longest journal. The `ensures` gives the length, which lending the array needs.
pub fn result_room() -> [u8; 65_536]
    ensures { 65_536 ≡ length result }
{
    [0; 65_536]
}

// Merges all of two slices into the buffer. The second clause says what lending the result asks.
pub fn merged(first: &[u8], second: &[u8], out: &mut [u8]) -> Result<usize, MergeError>
    ensures out_after { outcome_of result out.new
        ≡ merge_of first.now (length first.now) second.now (length second.now) out.old }
    ensures size_in_bounds { IfOk result (λ size. size ≤ length out.new) }
{
    journal_merge::merge(first, first.len(), second, second.len(), out)
}
