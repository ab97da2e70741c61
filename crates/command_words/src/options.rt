//! The options that the words may name.

ghost use Rattle.std.specs.Prelude.{◌≡◌, IfOk, false, fold, map};
ghost use Rattle.clap.specs.Words.{app_of, rule_of, with_rule};
ghost use Rattle.command_words.specs.Options.{IsCommand, bare_command};
ghost use Rattle.command_words.specs.Listed.{AreOptions, rule_said};

use clap::builder::ValueParser;
use clap::{Arg, Command};
use std::alloc::{AllocError, Global};

/// An option, which takes one value.
struct WordOption {
    name: &'static str,
    parser: ValueParser<'static>,
    // The value if the words don't name it.
    default: &'static str,
}

static OPTIONS: [WordOption; 11] = [
    // What is done, and the form in which it is written.
    WordOption {
        name: "mode",
        parser: ValueParser::Names(&["run", "plain", "check", "load", "cut", "audit"]),
        default: "run",
    },
    WordOption {
        name: "format",
        parser: ValueParser::Names(&["lines", "summary", "states", "sums"]),
        default: "lines",
    },
    // How a run is divided.
    WordOption {
        name: "regions",
        parser: ValueParser::Unsigned(1, 64),
        default: "4",
    },
    WordOption {
        name: "workers",
        parser: ValueParser::Unsigned(1, 64),
        default: "2",
    },
    WordOption {
        name: "turns",
        parser: ValueParser::Unsigned(1, 65_536),
        default: "16",
    },
    WordOption {
        name: "steps",
        parser: ValueParser::Unsigned(1, 4_096),
        default: "64",
    },
    // The scene that is made.
    WordOption {
        name: "number",
        parser: ValueParser::Unsigned(0, u64::MAX),
        default: "1",
    },
    WordOption {
        name: "disks",
        parser: ValueParser::Unsigned(0, 65_536),
        default: "100",
    },
    // The tick at which a run is cut.
    WordOption {
        name: "at",
        parser: ValueParser::Unsigned(0, 1_099_511_627_776),
        default: "0",
    },
    // How far from the sides of the box collisions are summed.
    WordOption {
        name: "margin",
        parser: ValueParser::Unsigned(0, 1_073_741_824),
        default: "0",
    },
    // Where the regions lie while workers run them.
    WordOption {
        name: "burst",
        parser: ValueParser::Names(&["locks", "table"]),
        default: "locks",
    },
];

fn all_options<'a>() -> &'a [WordOption]
    ensures { AreOptions result.now }
{
    OPTIONS.as_slice()
}

fn argument<'a>(alloc: Global, option: &WordOption) -> Arg<'a>
    ensures rule { rule_of result ≡ rule_said option.now }
    ensures own { result.global ≡ false }
{
    Arg::new(alloc, option.name)
        .long(option.name)
        .default_value(option.default)
        .value_parser(option.parser)
}

/// The command before its options: neither `--help` nor `--version`, and no word before them.
fn bare_command<'a>(alloc: Global) -> Command<'a>
    ensures { app_of result ≡ bare_command }
{
    Command::new(alloc, "hard_disks")
        .no_binary_name(true)
        .disable_help_flag(true)
        .disable_version_flag(true)
}

fn with_options<'a>(
    alloc: Global,
    mut command: Command<'a>,
    options: &[WordOption],
) -> Result<Command<'a>, AllocError>
    ensures { IfOk result (λ made. app_of made
        ≡ fold with_rule (app_of command.entry) (map rule_said options.now)) }
{
    for option in options {
        command = command.arg(argument(alloc, option))?;
    }
    Ok(command)
}

/// The command of the options.
pub(crate) fn command<'a>(alloc: Global) -> Result<Command<'a>, AllocError>
    ensures { IfOk result (λ made. IsCommand (app_of made)) }
{
    with_options(alloc, bare_command(alloc), all_options())
}
