// The help, as a terminal shows it, in parts.
// It answers the exit status, which is failed where standard output cannot be written.
use command_io::{Status, write_output};

// The help.
pub fn print_help(rt: &HostRuntime) -> Status {
    let written = print_part1(rt)
        && print_part2(rt)
        && print_part3(rt)
        && print_part4(rt)
        && print_part5(rt);
    Status::Done.if_written(written)
}

fn print_part1(rt: &HostRuntime) -> bool {
    write_output(
        rt,
        b"usage: awaqlla append [--profile] [--index INDEX] [--wait SECONDS] FILE DATE|DAY NAME CHANCE.. < TICKS\n\
        \x20                                                            appends a record to the volume FILE, made if it is missing; keeps its INDEX\n\
        \x20      awaqlla append [--profile] [--index INDEX] [--wait SECONDS] --log FILE DATE|DAY NAME CHANCE.. < LOG\n\
        \x20                                                            the same, of the ticks that the build server's LOG has for NAME\n\
        \x20      awaqlla list [--profile] [FILE]                       a line for each record, then the end state\n\
        \x20      awaqlla survey [--profile] [FILE]                     the end state alone\n\
        \x20      awaqlla slots [--tsv] [FILE [CHANCE..]]               each name's last record, by name, its limits in milliseconds, rounded up\n\
        \x20      awaqlla record [--ticks] FILE NAME                    the last record of a name, every field in words; its times alone, a line each\n",
    )
}

fn print_part2(rt: &HostRuntime) -> bool {
    write_output(
        rt,
        b"\x20      awaqlla record [--ticks] FILE --at I                  the same of the record at position I, counted from 0\n\
        \x20      awaqlla plot FILE NAME > PICTURE.svg                  a name's times, means and limits over its records, for a browser\n\
        \x20      awaqlla page FILE.. > PAGE.html                       a page for a browser that reads the volumes and works every limit again\n\
        \x20      awaqlla merge [--wait SECONDS] FIRST SECOND OUT       merges two volumes into OUT, which is made new\n\
        \x20      awaqlla index --make [--wait SECONDS] FILE INDEX      makes the index of a volume, or makes it again\n\
        \x20      awaqlla index --check FILE INDEX                      whether INDEX is the volume's\n\
        \x20      awaqlla index FILE INDEX NAME                         the line of the name's last record; of the volume that record alone is read\n\
        \x20      awaqlla trial FILE [LOG]                              how often the links of a log took longer than the limits that stand\n",
    )
}

fn print_part3(rt: &HostRuntime) -> bool {
    write_output(
        rt,
        b"\x20      awaqlla band SHARE TICKS..                            the shortest and the longest time with a share of links inside; needs cc\n\
        \x20      awaqlla day DATE                                      the day of a date, as a record holds it\n\
        \x20      awaqlla date DAY [LAST]                               the date of a day, or of each day to LAST, a line each\n\
        \x20      awaqlla refusal [NUMBER]                              what a refusal's number means; all of them\n\
        \x20      awaqlla selftest                                      whether this machine gives the bits of stored answers\n\
        \x20      awaqlla demo                                          walks through all this with a small volume in a temporary folder\n\
        \x20      awaqlla install PREFIX                                from a clone: puts what a package has under PREFIX\n\
        \x20      awaqlla -h | --help | --version\n\
        DATE is YYYY-MM-DD, 2000-01-01 to 2179-06-06; DAY counts the days since 2000-01-01, 0 to 65535. NAME is 1 to 32 visible ASCII\n\
        characters. There are 1 to 8 chances, rising, each 1 to 500000 in a million. TICKS are 2 to 128 numbers from 1 to 1048575, ticks of\n",
    )
}

fn print_part4(rt: &HostRuntime) -> bool {
    write_output(
        rt,
        b"10 microseconds, separated by white space. A LOG has lines of a name, one space and a number of ticks; it may be of any size.\n\
        With --profile the volume is one for safety controllers: each record has form 2, the chances 1 10 100 1000 and 32 ticks or more.\n\
        Options stand before FILE, in any order. A FILE that starts with a dash stands behind --; without FILE, standard input is read, and\n\
        nothing is printed into a file that is read or written. An INDEX that is missing or empty is that of an empty volume. A command that\n\
        writes waits for another that holds the volume, for so many SECONDS where --wait stands.\n\
        The last line on standard output is the verdict: extended, declined, log or damaged for append; merged, declined or damaged for merge;\n\
        whole, torn or damaged for list, survey and slots; indexed, own, declined or damaged for index; damaged for record, or refused 10 where\n\
        there is no such record, and so for a name looked up; the names that are unknown, log or damaged for trial. A merge that is not merged\n",
    )
}

fn print_part5(rt: &HostRuntime) -> bool {
    write_output(
        rt,
        b"makes no OUT.\n\
        Exit status: 0 extended, merged, whole or what was asked for; 1 declined, log, damaged, torn or refused; 2 wrong usage, or something\n\
        cannot be read or written.\n",
    )
}
