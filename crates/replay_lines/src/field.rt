// A number that a line holds at a place.
// Why there is none does not matter here: the line is malformed.
ghost use Rattle.std.specs.Prelude.{◌≡◌};
ghost use Rattle.text_digits.specs.Hex.{read_hex};
ghost use Rattle.replay_lines.specs.Lines.{field_of};

// The number in `width` hexadecimal digits from a place on, where there is one.
#[tactic(auto, unfolding(crate::specs::Lines::field_of))]
pub fn number_at(line: &[u8], place: usize, width: usize) -> Option<u64>
    ensures { result ≡ field_of (read_hex line.now place width) }
{
    text_digits::read_hex(line, place, width).ok()
}
