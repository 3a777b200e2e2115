// A number that the papers give no refusal, for what takes a refusal and may be handed any number.
// The papers' numbers are 1 to 19 without 8.
ghost use Rattle.std.specs.Prelude.{◌≡◌, false};
ghost use Rattle.refusals.specs.Listed.{is_listed};

// A number that the papers give no refusal.
#[derive(Clone, Copy, Debug, PartialEq, Eq)]
pub struct Unlisted {
    pub(crate) number: u32,
    ghost unlisted: { is_listed number ≡ false },
}

impl Unlisted {
    pub fn number(self) -> u32
        ensures { result ≡ self.number }
    {
        self.number
    }
}
