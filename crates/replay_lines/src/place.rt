// Where a line of fixed length ends in the bytes at hand.
// The last line may be cut short.
ghost use Rattle.std.specs.Prelude.{◌≡◌};
ghost use Rattle.replay_lines.specs.Lines.{line_end};

// The end of the line of `width` bytes that starts at a place, or where the bytes run out. A slice has no `chunks` here that would cut the lines.
pub fn line_end(at: usize, width: usize, len: usize) -> usize
    ensures { result ≡ line_end at width len }
{
    at + width.min(len.saturating_sub(at))
}
