// The volume that a command reads: the file at a place among the arguments, or standard input where there is none.
// Nothing is printed into it.
ghost use Rattle.std.specs.Prelude.{◌≤◌, length, IfErr, IfOk};

use command_io::{
    Kind, Options, Unread, arg_count, await_input, fail_system, input_apart, read_input,
    read_named, readable, refused,
};
use journal::Rule;

// The rule that the options ask for.
pub fn rule_of(o: Options) -> Rule {
    if o.profile {
        Rule::Profile
    } else {
        Rule::Plain
    }
}

// Reads a volume, as much as there is room for; where that fails, what is wrong is said.
pub fn read_volume<'a>(
    rt: &HostRuntime,
    at: usize,
    kinds: &[Kind],
    out: &'a mut [u8],
) -> Result<&'a [u8], Unread>
    ensures ok { IfOk result (λ v. length v.now ≤ length out.old) }
    ensures err { IfErr result (λ unread. unread.read ≤ length out.old) }
{
    if at < arg_count(rt) {
        return read_file(rt, at, kinds, out);
    }
    await_input(
        rt,
        b"a volume on standard input, since no FILE is named; Ctrl-C ends this",
    );
    read_standard(rt, kinds, out)
}

// The same of standard input.
fn read_standard<'a>(
    rt: &HostRuntime,
    kinds: &[Kind],
    out: &'a mut [u8],
) -> Result<&'a [u8], Unread>
    ensures ok { IfOk result (λ v. length v.now ≤ length out.old) }
    ensures err { IfErr result (λ unread. unread.read ≤ length out.old) }
{
    if !input_apart(rt, kinds) {
        return Err(refused());
    }
    let mut input = rt.stdin();
    match read_input(&mut input, out) {
        Ok(read) => Ok(read),
        Err(unread) => {
            fail_system(rt, b"awaqlla: standard input", unread.error);
            Err(unread)
        }
    }
}

// The same of a file.
fn read_file<'a>(
    rt: &HostRuntime,
    at: usize,
    kinds: &[Kind],
    out: &'a mut [u8],
) -> Result<&'a [u8], Unread>
    ensures ok { IfOk result (λ v. length v.now ≤ length out.old) }
    ensures err { IfErr result (λ unread. unread.read ≤ length out.old) }
{
    if !readable(rt, kinds, at) {
        return Err(refused());
    }
    read_named(rt, at, out)
}
