// What is written: a line of the list, the line of a group, distances.
// What cannot be written is said on standard error, with this program's name.
use crate::distance::ten_thousandths;
use crate::group::Group;
use crate::kind::Kind;
use crate::line::Measured;
use replay_lines::Output;

// Writes that a line is malformed; x and the distance, where the bits should be the same and are not, and of each line of the far group.
pub(crate) fn show(out: Output, line: Option<Measured>) {
    let Some(m) = line else {
        out.print(b"malformed line\n");
        return;
    };
    if matches!(m.kind, Kind::Answers | Kind::Mirror) && m.distance > 0 {
        out.print(b"differs: ");
        print_distance(out, m);
    }
    if m.kind == Kind::Far {
        print_distance(out, m);
    }
}

// The bits of x and the distance there.
fn print_distance(out: Output, m: Measured) {
    out.print(&text_digits::hex_of(m.x));
    out.print(b" ");
    print_units(out, ten_thousandths(m.distance));
    out.print(b"\n");
}

// The line of a group of which all bits are compared.
pub(crate) fn print_same(out: Output, name: &[u8], g: Group) {
    out.print(name);
    out.print(b": ");
    out.print_number(g.count);
    out.print(b" compared, ");
    out.print_number(g.beyond);
    out.print(b" differ\n");
}

// The line of a group of which the distances are measured.
pub(crate) fn print_group(out: Output, name: &[u8], g: Group) {
    out.print(name);
    out.print(b": ");
    out.print_number(g.count);
    out.print(b" compared, ");
    out.print_number(g.nearest);
    out.print(b" nearest, greatest ");
    print_units(out, ten_thousandths(g.greatest));
    out.print(b" at ");
    out.print(&text_digits::hex_of(g.at));
    print_bound(out, g);
    out.print(b"\n");
}

// The bound, where there is one, and how many are beyond it.
fn print_bound(out: Output, g: Group) {
    if g.bound < u64::MAX {
        out.print(b", bound ");
        print_units(out, g.bound);
        out.print(b", ");
        out.print_number(g.beyond);
        out.print(b" beyond");
    }
}

// Ten-thousandths of a unit as units with four decimals.
fn print_units(out: Output, n: u64) {
    out.print_number(n / 10000);
    let mut decimals = [0u8; 4];
    text_digits::decimal_into(n % 10000, &mut decimals);
    out.print(b".");
    out.print(&decimals);
}
