//! What clap's matches say.

ghost use Rattle.std.specs.Prelude.{◌≡◌, codes, option_and_then};
ghost use Rattle.clap.specs.Words.{first_of, found_of, one_of, rows_of};
ghost use Rattle.command_words.specs.Words.{burst_of, format_named, long_number, mode_of};
ghost use Rattle.command_words.specs.Words.{settings_in, short_number};

use crate::{BurstKind, Mode, OutputFormat, Settings};
use clap::ArgMatches;

fn mode_of(text: &str) -> Option<Mode>
    ensures { result ≡ mode_of text.now }
{
    match text {
        "run" => Some(Mode::Run),
        "plain" => Some(Mode::Plain),
        "check" => Some(Mode::Check),
        "load" => Some(Mode::Load),
        "cut" => Some(Mode::Cut),
        "audit" => Some(Mode::Audit),
        _ => None,
    }
}

fn format_of(text: &str) -> Option<OutputFormat>
    ensures { result ≡ format_named text.now }
{
    match text {
        "lines" => Some(OutputFormat::Lines),
        "summary" => Some(OutputFormat::Summary),
        "states" => Some(OutputFormat::States),
        "sums" => Some(OutputFormat::Sums),
        _ => None,
    }
}

fn burst_of(text: &str) -> Option<BurstKind>
    ensures { result ≡ burst_of text.now }
{
    match text {
        "locks" => Some(BurstKind::Locks),
        "table" => Some(BurstKind::Table),
        _ => None,
    }
}

fn mode_in(matches: &ArgMatches<'_>) -> Option<Mode>
    ensures { result
        ≡ option_and_then mode_of (first_of (codes "mode") (rows_of (found_of matches.now))) }
{
    mode_of(matches.get_str("mode")?)
}

fn format_in(matches: &ArgMatches<'_>) -> Option<OutputFormat>
    ensures { result
        ≡ option_and_then format_named (first_of (codes "format") (rows_of (found_of matches.now))) }
{
    format_of(matches.get_str("format")?)
}

fn burst_in(matches: &ArgMatches<'_>) -> Option<BurstKind>
    ensures { result
        ≡ option_and_then burst_of (first_of (codes "burst") (rows_of (found_of matches.now))) }
{
    burst_of(matches.get_str("burst")?)
}

fn short_number_in(matches: &ArgMatches<'_>, name: &str) -> Option<u32>
    ensures { result
        ≡ option_and_then short_number (one_of name.now (rows_of (found_of matches.now))) }
{
    matches.get_one::<u32>(name)
}

fn long_number_in(matches: &ArgMatches<'_>, name: &str) -> Option<u64>
    ensures { result
        ≡ option_and_then long_number (one_of name.now (rows_of (found_of matches.now))) }
{
    matches.get_one::<u64>(name)
}

/// The settings that the matches of the options say, if they say some.
pub(crate) fn settings_in(matches: &ArgMatches<'_>) -> Option<Settings>
    ensures { result ≡ settings_in (rows_of (found_of matches.now)) }
{
    Some(Settings {
        mode: mode_in(matches)?,
        format: format_in(matches)?,
        regions: short_number_in(matches, "regions")?,
        workers: short_number_in(matches, "workers")?,
        turns: short_number_in(matches, "turns")?,
        steps: short_number_in(matches, "steps")?,
        number: long_number_in(matches, "number")?,
        disks: short_number_in(matches, "disks")?,
        at: long_number_in(matches, "at")?,
        margin: short_number_in(matches, "margin")?,
        burst: burst_in(matches)?,
    })
}
