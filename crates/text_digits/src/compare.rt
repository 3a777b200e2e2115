// Whether two texts are the same bytes.
// Texts of two lengths are never the same.
ghost use Rattle.std.specs.Prelude.{◌≡◌};
ghost use Rattle.text_digits.specs.Same.{same_bytes};

// Whether two byte slices hold the same bytes.
#[tactic(auto, using(crate::proofs::Comparing::bytes_same, crate::proofs::Comparing::lengths_differ))]
pub fn same(a: &[u8], b: &[u8]) -> bool
    ensures { result ≡ same_bytes a.now b.now }
{
    a == b
}
