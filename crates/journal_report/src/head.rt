// The head above the lines, whose columns have the lines' widths.
// Where tabs separate the columns there is none.
ghost use Rattle.text_digits.specs.Text.{Put};
ghost use Rattle.journal_report.specs.Report.{head_line};

use crate::cells::put_fill;
use text_digits::put;

// The head at the front of the buffer, with a width for the names' column. Answers how many bytes it takes.
pub fn head_line(width: usize, out: &mut [u8]) -> usize
    ensures { Put out.old 0 (head_line width) out.new result }
{
    let p = put(out, 0, b"name");
    let q = put_fill(out, p, false, width, 4);
    put(
        out,
        q,
        b" date       M   n     mean   spread     chance:limit, in ms\n",
    )
}
