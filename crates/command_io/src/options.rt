// The words of a command line: which command is asked for, and which options stand before its other words.
// Options stand in any order, each once; `--` ends them.
ghost use Rattle.std.specs.Prelude.{◌≡◌, if◌then◌else◌, Some, None};
ghost use Rattle.text_digits.specs.Same.{same_bytes};
ghost use Rattle.command_io.specs.Options.{command_of, told_of, asked_of, flag_of, end_of, dash_of};

use text_digits::same;

// What awaqlla is asked to do.
#[derive(Clone, Copy, Debug, PartialEq, Eq)]
pub enum Command {
    Append,
    List,
    Survey,
    Slots,
    Record,
    Merge,
    Index,
    Trial,
    Band,
    Day,
    Date,
    Refusal,
    Demo,
    Drawn,
    Help,
    Selftest,
}

// An option, the word that asks for help, the one that ends the options, a word that starts with a dash and is no option, or any other.
#[derive(Clone, Copy, Debug, PartialEq, Eq)]
pub enum Flag {
    Profile,
    Log,
    Index,
    Wait,
    Tabs,
    Ticks,
    Make,
    Check,
    Help,
    End,
    Dash,
    Word,
}

// What the options of a command line came to. `index` and `wait` are the places of INDEX and SECONDS among the arguments;
// `first` is the place of the first word behind the options.
#[derive(Clone, Copy, Debug, PartialEq, Eq, Default)]
pub struct Options {
    pub profile: bool,
    pub log: bool,
    pub tabs: bool,
    pub ticks: bool,
    pub make: bool,
    pub check: bool,
    pub index: Option<usize>,
    pub wait: Option<usize>,
    pub first: usize,
}

// The command that a word asks for. A row for each word; a match on the words themselves would open one goal for each of their bytes.
pub fn command_of(word: &[u8]) -> Option<Command>
    ensures { result ≡ command_of word.now }
{
    row(word, b"append", Command::Append)
        .or(row(word, b"list", Command::List))
        .or(row(word, b"survey", Command::Survey))
        .or(row(word, b"slots", Command::Slots))
        .or(row(word, b"record", Command::Record))
        .or(row(word, b"merge", Command::Merge))
        .or(row(word, b"index", Command::Index))
        .or(row(word, b"trial", Command::Trial))
        .or(told_of(word))
}

// The same of those that need no volume.
fn told_of(word: &[u8]) -> Option<Command>
    ensures { result ≡ told_of word.now }
{
    row(word, b"band", Command::Band)
        .or(row(word, b"day", Command::Day))
        .or(row(word, b"date", Command::Date))
        .or(row(word, b"refusal", Command::Refusal))
        .or(row(word, b"demo", Command::Demo))
        .or(row(word, b"plot", Command::Drawn))
        .or(row(word, b"page", Command::Drawn))
        .or(asked_of(word))
}

// The same of what is asked of the program itself.
fn asked_of(word: &[u8]) -> Option<Command>
    ensures { result ≡ asked_of word.now }
{
    row(word, b"-h", Command::Help)
        .or(row(word, b"--help", Command::Help))
        .or(row(word, b"selftest", Command::Selftest))
}

// The option that a word is.
pub fn flag_of(word: &[u8]) -> Flag
    ensures { result ≡ flag_of word.now }
{
    row(word, b"--profile", Flag::Profile)
        .or(row(word, b"--log", Flag::Log))
        .or(row(word, b"--index", Flag::Index))
        .or(row(word, b"--wait", Flag::Wait))
        .or(row(word, b"--tsv", Flag::Tabs))
        .or(row(word, b"--ticks", Flag::Ticks))
        .or(row(word, b"--make", Flag::Make))
        .or(row(word, b"--check", Flag::Check))
        .unwrap_or(end_of(word))
}

// The same of the words behind which no option stands.
fn end_of(word: &[u8]) -> Flag
    ensures { result ≡ end_of word.now }
{
    row(word, b"-h", Flag::Help)
        .or(row(word, b"--help", Flag::Help))
        .or(row(word, b"--", Flag::End))
        .unwrap_or(dash_of(word))
}

// A value where two words are the same.
fn row<T: Copy + Drop>(word: &[u8], text: &[u8], value: T) -> Option<T>
    ensures { result ≡ (if same_bytes word.now text.now then Some value else None) }
{
    same(word, text).then_some(value)
}

// A word that starts with a dash, or any other.
fn dash_of(word: &[u8]) -> Flag
    ensures { result ≡ dash_of word.now }
{
    match word.first() {
        Some(b'-') => Flag::Dash,
        _ => Flag::Word,
    }
}

impl Command {
    // Whether a command takes an option.
    pub fn takes(self, flag: Flag) -> bool {
        match flag {
            Flag::Profile => matches!(self, Command::Append | Command::List | Command::Survey),
            Flag::Log | Flag::Index => matches!(self, Command::Append),
            Flag::Wait => matches!(self, Command::Append | Command::Merge | Command::Index),
            Flag::Tabs => matches!(self, Command::Slots),
            Flag::Ticks => matches!(self, Command::Record),
            Flag::Make | Flag::Check => matches!(self, Command::Index),
            _ => false,
        }
    }
}

impl Options {
    // Whether an option stands already; of --make and --check one stands.
    pub fn has(self, flag: Flag) -> bool {
        match flag {
            Flag::Profile => self.profile,
            Flag::Log => self.log,
            Flag::Index => self.index.is_some(),
            Flag::Wait => self.wait.is_some(),
            Flag::Tabs => self.tabs,
            Flag::Ticks => self.ticks,
            Flag::Make | Flag::Check => self.make || self.check,
            _ => false,
        }
    }

    // The options with one more, at a place. Behind it stands the next word; behind --index and --wait the one after that.
    pub fn with(self, flag: Flag, at: usize) -> Options {
        let next = at.wrapping_add(1);
        let mut options = self;
        options.first = next;
        match flag {
            Flag::Profile => options.profile = true,
            Flag::Log => options.log = true,
            Flag::Index => {
                options.index = Some(next);
                options.first = next.wrapping_add(1);
            }
            Flag::Wait => {
                options.wait = Some(next);
                options.first = next.wrapping_add(1);
            }
            Flag::Tabs => options.tabs = true,
            Flag::Ticks => options.ticks = true,
            Flag::Make => options.make = true,
            Flag::Check => options.check = true,
            _ => (),
        }
        options
    }
}
