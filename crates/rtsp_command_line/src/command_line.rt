//! The command line.

ghost use Rattle.std.specs.Prelude.{◌≡◌, IfOk, false, map, option_map, option_and_then};
ghost use Rattle.clap.specs.Words.{app_of, rule_of, subcommand_rows_of, rows_of, found_of};
ghost use Rattle.clap.specs.declared.builder.command.Command.TheViews.{out-Command as fields_of};
ghost use Rattle.rtsp_command_line.specs.CommandLine as spec;
ghost use Rattle.rtsp_command_line.specs.CommandLine.{option_rule, number_rule, flag_rule, number_in, flag_in, stdio, audit, serve, check, rtspd, Says, line_view};

use clap::builder::ValueParser;
use clap::error::ErrorKind;
use clap::{Arg, ArgAction, ArgMatches, Command};
use std::alloc::{AllocError, Global};

/// What a command line asks for. Files are paths as they were written, and may be empty.
#[derive(Clone, Copy)]
pub enum CommandLine<'a> {
    /// Serve one connection from standard input to standard output.
    Stdio {
        config: Option<&'a str>,
        journal: Option<&'a str>,
        /// Whether ended sessions are forgotten before the journal is written.
        forget: bool,
    },
    /// Replay a journal and print the book.
    Audit {
        config: Option<&'a str>,
        journal: &'a str,
        /// How many entries are undone at the end, 0 without the option.
        back: u64,
        without_session: Option<u64>,
        without_admission: Option<u64>,
        /// Whether the sessions that have ended are left out, after the other two.
        without_ended: bool,
    },
    /// Serve the connections of a socket.
    Serve {
        config: &'a str,
        /// The address to listen on, as it was written.
        listen: Option<&'a str>,
        /// After how many connections the server ends.
        connections: Option<u64>,
    },
    /// Look at a configuration as `serve` would, and at what it names.
    Check {
        config: &'a str,
        /// The address that `serve` would listen on, as it was written.
        listen: Option<&'a str>,
    },
}

fn option_named<'a>(alloc: Global, name: &'a str) -> Arg<'a>
    ensures rule { rule_of result ≡ option_rule name.entry.now }
    ensures local { result.global ≡ false }
{
    Arg::new(alloc, name).long(name).action(ArgAction::Set)
}

fn number_named<'a>(alloc: Global, name: &'a str) -> Arg<'a>
    ensures rule { rule_of result ≡ number_rule name.entry.now }
    ensures local { result.global ≡ false }
{
    option_named(alloc, name).value_parser(ValueParser::unsigned(0, u64::MAX))
}

fn flag_named<'a>(alloc: Global, name: &'a str) -> Arg<'a>
    ensures rule { rule_of result ≡ flag_rule name.entry.now }
    ensures local { result.global ≡ false }
{
    Arg::new(alloc, name).long(name).action(ArgAction::SetTrue)
}

fn stdio_command<'a>(alloc: Global) -> Result<Command<'a>, AllocError>
    ensures app { IfOk result (λ c. app_of c ≡ stdio) }
    ensures local { IfOk result (λ c. (fields_of c).has_globals ≡ false) }
{
    let options = vec![in alloc;
        option_named(alloc, "config"),
        option_named(alloc, "journal"),
        flag_named(alloc, "forget"),
    ]?;
    Command::new(alloc, "stdio").args(options)
}

fn audit_command<'a>(alloc: Global) -> Result<Command<'a>, AllocError>
    ensures app { IfOk result (λ c. app_of c ≡ audit) }
    ensures local { IfOk result (λ c. (fields_of c).has_globals ≡ false) }
{
    let options = vec![in alloc;
        option_named(alloc, "config"),
        option_named(alloc, "journal").required(true),
        number_named(alloc, "back"),
        number_named(alloc, "without-session"),
        number_named(alloc, "without-admission"),
        flag_named(alloc, "without-ended"),
    ]?;
    Command::new(alloc, "audit").args(options)
}

fn serve_command<'a>(alloc: Global) -> Result<Command<'a>, AllocError>
    ensures app { IfOk result (λ c. app_of c ≡ serve) }
    ensures local { IfOk result (λ c. (fields_of c).has_globals ≡ false) }
{
    let options = vec![in alloc;
        option_named(alloc, "config").required(true),
        option_named(alloc, "listen"),
        number_named(alloc, "connections"),
    ]?;
    Command::new(alloc, "serve").args(options)
}

fn check_command<'a>(alloc: Global) -> Result<Command<'a>, AllocError>
    ensures app { IfOk result (λ c. app_of c ≡ check) }
    ensures local { IfOk result (λ c. (fields_of c).has_globals ≡ false) }
{
    let options = vec![in alloc;
        option_named(alloc, "config").required(true),
        option_named(alloc, "listen"),
    ]?;
    Command::new(alloc, "check").args(options)
}

fn command<'a>(alloc: Global) -> Result<Command<'a>, AllocError>
    ensures { IfOk result (λ c. app_of c ≡ rtspd) }
{
    let stdio = stdio_command(alloc)?;
    let audit = audit_command(alloc)?;
    let serve = serve_command(alloc)?;
    let check = check_command(alloc)?;
    let subcommands = vec![in alloc; stdio, audit, serve, check]?;
    Command::new(alloc, "rtspd")
        .no_binary_name(true)
        .disable_help_flag(true)
        .disable_help_subcommand(true)
        .subcommand_required(true)
        .subcommands(subcommands)
}

// What `clap` makes of the words, or `None` where it refuses them.
fn matches_of<'a>(alloc: Global, words: &'a [&'a str]) -> Result<Option<ArgMatches<'a>>, AllocError>
    ensures { IfOk result (Says (map (λ w. w.now) words.entry.now)) }
{
    let command = command(alloc)?;
    match command.try_get_matches_from(words) {
        Ok(matches) => Ok(Some(matches)),
        Err(error) => {
            if error.kind() == ErrorKind::OutOfMemory {
                return Err(AllocError);
            }
            Ok(None)
        }
    }
}

fn number_at(matches: &ArgMatches<'_>, name: &str) -> Option<u64>
    ensures { result ≡ number_in name.now (rows_of (found_of matches.now)) }
{
    matches.get_one::<u64>(name)
}

// `clap` keeps a word for an option without a value, "true" where it stands. Its `get_flag` says
// nothing of other words.
fn flag_at(matches: &ArgMatches<'_>, name: &str) -> bool
    ensures { result ≡ flag_in name.now (rows_of (found_of matches.now)) }
{
    match matches.get_str(name) {
        Some(word) => word == "true",
        None => false,
    }
}

fn stdio_in<'a>(matches: &ArgMatches<'a>) -> CommandLine<'a>
    ensures { line_view result ≡ spec.stdio_in (rows_of (found_of matches.now)) }
{
    CommandLine::Stdio {
        config: matches.get_str("config"),
        journal: matches.get_str("journal"),
        forget: flag_at(matches, "forget"),
    }
}

fn audit_of<'a>(matches: &ArgMatches<'a>, journal: &'a str) -> CommandLine<'a>
    ensures { line_view result ≡ spec.audit_of (rows_of (found_of matches.now)) journal.entry.now }
{
    CommandLine::Audit {
        config: matches.get_str("config"),
        journal,
        back: number_at(matches, "back").unwrap_or(0),
        without_session: number_at(matches, "without-session"),
        without_admission: number_at(matches, "without-admission"),
        without_ended: flag_at(matches, "without-ended"),
    }
}

fn audit_in<'a>(matches: &ArgMatches<'a>) -> Option<CommandLine<'a>>
    ensures { option_map line_view result ≡ spec.audit_in (rows_of (found_of matches.now)) }
{
    let journal = matches.get_str("journal")?;
    Some(audit_of(matches, journal))
}

fn serve_of<'a>(matches: &ArgMatches<'a>, config: &'a str) -> CommandLine<'a>
    ensures { line_view result ≡ spec.serve_of (rows_of (found_of matches.now)) config.entry.now }
{
    CommandLine::Serve {
        config,
        listen: matches.get_str("listen"),
        connections: number_at(matches, "connections"),
    }
}

fn serve_in<'a>(matches: &ArgMatches<'a>) -> Option<CommandLine<'a>>
    ensures { option_map line_view result ≡ spec.serve_in (rows_of (found_of matches.now)) }
{
    let config = matches.get_str("config")?;
    Some(serve_of(matches, config))
}

fn check_of<'a>(matches: &ArgMatches<'a>, config: &'a str) -> CommandLine<'a>
    ensures { line_view result ≡ spec.check_of (rows_of (found_of matches.now)) config.entry.now }
{
    CommandLine::Check {
        config,
        listen: matches.get_str("listen"),
    }
}

fn check_in<'a>(matches: &ArgMatches<'a>) -> Option<CommandLine<'a>>
    ensures { option_map line_view result ≡ spec.check_in (rows_of (found_of matches.now)) }
{
    let config = matches.get_str("config")?;
    Some(check_of(matches, config))
}

fn line_in<'a>(name: &str, matches: &ArgMatches<'a>) -> Option<CommandLine<'a>>
    ensures { option_map line_view result ≡ spec.line_in name.now (rows_of (found_of matches.now)) }
{
    match name {
        "stdio" => Some(stdio_in(matches)),
        "audit" => audit_in(matches),
        "serve" => serve_in(matches),
        "check" => check_in(matches),
        _ => None,
    }
}

fn line_of<'a>(matches: &ArgMatches<'a>) -> Option<CommandLine<'a>>
    ensures { option_map line_view result ≡ option_and_then (λ p. spec.line_in p.0 p.1) (subcommand_rows_of matches.now) }
{
    let (name, inner) = matches.subcommand()?;
    line_in(name, inner)
}

fn has_dashes(words: &[&str]) -> bool
    ensures { result ≡ spec.has_dashes (map (λ w. w.now) words.now) }
{
    for word in words {
        if *word == "--" {
            return true;
        }
    }
    false
}

/// Reads the words after the program's name: what they ask for, or `None` for a bad command line.
///
/// `--name=VALUE` is the option too, and numbers are those that `u64` reads, `+5` and `007` among
/// them. An option that stands twice, a call for help and a lone `--` make a bad command line here:
/// `read_help` knows the calls for help.
pub fn read_words<'a>(
    alloc: Global,
    words: &'a [&'a str],
) -> Result<Option<CommandLine<'a>>, AllocError>
    ensures { IfOk result (λ line. option_map line_view line ≡ spec.line_of (map (λ w. w.now) words.entry.now)) }
{
    // `clap` takes a `--` after which nothing stands.
    if has_dashes(words) {
        return Ok(None);
    }
    match matches_of(alloc, words)? {
        Some(matches) => Ok(line_of(&matches)),
        None => Ok(None),
    }
}
