// What a program that replays lines writes to standard output.
// What fails is said on standard error, with the program's name first.
use crate::input::input_ended;
use crate::tally::Tally;

// Where a program writes, and its name.
#[derive(Clone, Copy)]
pub struct Output<'a> {
    pub rt: &'a HostRuntime,
    pub program: &'a [u8],
}

impl<'a> Output<'a> {
    // A text.
    pub fn print(&self, text: &[u8]) {
        if self.rt.write_all(text).is_err() {
            self.complain(b": standard output cannot be written\n");
        }
    }

    // A number in decimal.
    pub fn print_number(&self, n: u64) {
        if self.rt.print(n).is_err() {
            self.complain(b": standard output cannot be written\n");
        }
    }

    // The line for a malformed line.
    pub fn print_malformed(&self, t: Tally) {
        self.print(b"malformed line after ");
        self.print_number(t.compared);
        self.print(b" compared\n");
    }

    // The last line of the output. What cannot be read counts as a malformed line.
    pub fn print_verdict(&self, t: Tally) {
        self.print_tally(if self.is_read_to_end() {
            t
        } else {
            t.malformed_more()
        });
    }

    // Whether the input was read to its end; if not, that is said.
    pub fn is_read_to_end(&self) -> bool {
        let ended = input_ended(self.rt);
        if !ended {
            self.complain(b": standard input cannot be read to its end\n");
        }
        ended
    }

    // The program's name and the counts.
    fn print_tally(&self, t: Tally) {
        self.print(self.program);
        self.print(b": ");
        self.print_number(t.compared);
        self.print(b" compared, ");
        self.print_number(t.differ);
        self.print(b" differ");
        if t.malformed > 0 {
            self.print(b", ");
            self.print_number(t.malformed);
            self.print(b" malformed");
        }
        self.print(b"\n");
    }

    // What is wrong, on standard error.
    fn complain(&self, what: &[u8]) {
        let _ = self.rt.stderr().write_all(self.program);
        let _ = self.rt.stderr().write_all(what);
    }
}
