// The forms of a limit: document 01's, and document 02's of the sample spread (2026-04).
// A caller gives a form as its number, which is read once; from there on it is one of two.
ghost use Rattle.limit.specs.Forms.{FormRead};

use crate::{PLAIN_FORM, SAMPLE_FORM};
use refusals::Refusal;

#[derive(Clone, Copy, Debug, PartialEq, Eq)]
pub(crate) enum Form {
    Plain,
    Sample,
}

impl TryFrom<u64> for Form {
    type Error = Refusal;

    ghost try_from_gives = { FormRead };

    fn try_from(form: u64) -> Result<Form, Refusal> {
        match form {
            PLAIN_FORM => Ok(Form::Plain),
            SAMPLE_FORM => Ok(Form::Sample),
            _ => Err(Refusal::Form),
        }
    }
}
