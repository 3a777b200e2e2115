// What both scans say: the first journal's fault comes first, then the second's, then a torn end, the first's first.
// The next row is looked at only where both journals are whole.
ghost use Rattle.std.specs.Prelude.{◌≡◌};
ghost use Rattle.journal_merge.specs.Answers.{is_torn, torn_end, inputs_of};

use crate::{MergeError, Whose};
use journal::Status;
use refusals::Refusal;

// By both scans' answers.
#[tactic(auto, unfolding(crate::specs::Answers::is_torn, crate::specs::Answers::inputs_of))]
pub(crate) fn check_inputs(x: Status, y: Status) -> Result<(), MergeError>
    ensures { result ≡ inputs_of x y }
{
    let first_torn = is_torn(x, Whose::First)?;
    let second_torn = is_torn(y, Whose::Second)?;
    if first_torn {
        return Err(torn(Whose::First));
    }
    if second_torn {
        return Err(torn(Whose::Second));
    }
    Ok(())
}

// Whether a journal ends torn, or its fault.
#[tactic(auto, unfolding(crate::specs::Answers::is_torn))]
fn is_torn(status: Status, whose: Whose) -> Result<bool, MergeError>
    ensures { result ≡ is_torn status whose }
{
    match status {
        Status::Whole { .. } => Ok(false),
        Status::Torn { .. } => Ok(true),
        Status::Damaged(fault) => Err(MergeError::Damaged { whose, fault }),
    }
}

// That an end is torn, and whose.
fn torn(whose: Whose) -> MergeError
    ensures { result ≡ torn_end whose }
{
    MergeError::DeclinedOf {
        whose,
        refusal: Refusal::Torn,
    }
}
