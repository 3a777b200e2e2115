// One line of the listing of a journal that is all of a slice: a record's line for each record, then the line of the end state.
// Each call scans the journal, so that no state stands between calls; a Rattle program calls crate journal_listing's functions in turn instead.
ghost use Rattle.text_digits.specs.Text.{Put};
ghost use Rattle.capi.specs.Line.{line_at};

// Writes line i, counted from 0, as much of it as there is room for, and answers how many bytes that is: 0 where there is no such line.
#[unsafe(no_mangle)]
pub extern "C" fn journal_line(v: &[u8], i: usize, out: &mut [u8]) -> usize
    ensures { Put out.old 0 (line_at i v.now) out.new result }
{
    capi::line::journal_line(v, i, out)
}
