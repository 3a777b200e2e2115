// The exact decimal text of a double by its bit pattern: every digit that it has behind the point, and no more.
// Every pattern is answered; what is not shown is a dash. No public function has a `requires`.
#![tactic(auto)]

mod fraction;
mod text;

pub use text::put_exact;
