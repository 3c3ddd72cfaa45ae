//! Calls for help: what the program is asked about itself.

ghost use Rattle.std.specs.Prelude.{◌≡◌, map};
ghost use Rattle.rtsp_command_line.specs.Help as spec;

/// What the program is asked about itself.
#[derive(Clone, Copy, PartialEq, Eq)]
pub enum Help {
    /// How it is called.
    Usage,
    /// Its version, the kit that proved it, and the features of RTSP that it has.
    Version,
}

/// How the program is called, a line for each way.
pub const USAGE: &str = "\
usage: rtspd serve --config FILE [--listen ADDR] [--connections N]
       rtspd check --config FILE [--listen ADDR]
       rtspd stdio [--config FILE] [--journal OUT] [--forget]
       rtspd audit [--config FILE] --journal IN [--back N] [--without-session S] [--without-admission A] [--without-ended]
       rtspd --help | --version
";

/// What `--help` says behind the usage.
pub const EXPLANATION: &str = "
serve  serves the configuration FILE over RTSP 2.0, at 127.0.0.1:8554 or at ADDR, an IPv4 address and port
check  says whether serve takes FILE and starts with it here, and else why not: key, line, limit, remedy
stdio  serves one connection over standard input and output, and writes the journal to OUT
audit  replays the journal IN, and prints what is held and what is free

It ends with 0 where all was done, 1 a bad command line or configuration, 2 a line of IN that is no
record, 3 one that isn't allowed, 4 a file or socket that fails, 5 a message that can't be read, 6 no memory.
Its manual is rtspd(1) and rtspd.toml(5).
";

/// What `--version` says: the version, which is that of the newest heading of CHANGELOG.md, the kit with
/// which it is proved, and the features of RTSP 2.0 that a player may require.
pub const VERSION: &str = "\
rtspd 0.1.0
kit: rattle-kit-13f logic dac8208d650f15bf
features: play.basic, setup.rtp.rtcp.mux
";

fn is_call(word: &str) -> bool
    ensures { result ≡ spec.is_call word.now }
{
    word == "--help" || word == "-h"
}

fn is_subcommand(word: &str) -> bool
    ensures { result ≡ spec.is_subcommand word.now }
{
    word == "serve" || word == "check" || word == "stdio" || word == "audit"
}

/// What the words after the program's name ask about the program itself, if they are a call for help: one
/// word, or one behind the name of a way to call it.
pub fn read_help(words: &[&str]) -> Option<Help>
    ensures { result ≡ spec.help_of (map (λ w. w.now) words.now) }
{
    match words {
        [word] if is_call(word) => Some(Help::Usage),
        [word] if *word == "--version" => Some(Help::Version),
        [name, word] if is_subcommand(name) && is_call(word) => Some(Help::Usage),
        _ => None,
    }
}
