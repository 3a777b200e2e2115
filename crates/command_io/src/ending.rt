// The exit status of a command, and its number.
// A status that is to be answered is failed where the output could not be written.
ghost use Rattle.std.specs.Prelude.{◌≡◌, ◌≤◌};
ghost use Rattle.command_io.specs.Status.{status_number, if_written};

// Done; refused: declined, damaged, torn or refused; failed: wrong usage, or something cannot be read or written.
#[derive(Clone, Copy, Debug, PartialEq, Eq)]
pub enum Status {
    Done,
    Refused,
    Failed,
}

impl Status {
    // The number that the program ends with.
    pub fn number(self) -> u32
        ensures value { result ≡ status_number self }
        ensures upper_bound { result ≤ 2 }
    {
        match self {
            Status::Done => 0,
            Status::Refused => 1,
            Status::Failed => 2,
        }
    }

    // The status where the output was written.
    pub fn if_written(self, written: bool) -> Status
        ensures { result ≡ if_written written self }
    {
        if written { self } else { Status::Failed }
    }
}
