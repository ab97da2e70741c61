//! The lines of refusals.

ghost use Rattle.std.specs.Prelude.{◌≡◌, ◌≤◌, ◌∷◌, [], length, decimal};
ghost use Rattle.text_lines.specs.Lines.{line_of};
ghost use Rattle.program_modes.specs.Refusals.{bad_words_line, late_cut_line, refusal_line, rule_key};

use fixed_motion::RuleFault;
use scene_reader::{KeyText, SceneFault};
use text_lines::TextLine;

/// The line for words without settings.
pub fn bad_words_line() -> TextLine
    ensures { result ≡ bad_words_line }
{
    let mut line = TextLine::new();
    line.push_text("bad words");
    line.push_newline();
    line
}

/// The line for a cut at a tick after the last one of the scene.
pub fn late_cut_line() -> TextLine
    ensures { result ≡ late_cut_line }
{
    line_of("refused 16 cut after end")
}

/// The line for a refused scene; it is empty if the source failed, or memory ran out.
pub fn refusal_line(fault: &SceneFault) -> TextLine
    ensures { result ≡ refusal_line fault.now }
{
    match fault {
        SceneFault::TooLong => line_of("refused 1 too long"),
        SceneFault::NotToml => line_of("refused 2 not toml"),
        SceneFault::UnknownKey(key) => line_of_key("refused 3 unknown key", key),
        SceneFault::MissingKey(key) => line_of_text("refused 4 missing key", key.as_str()),
        SceneFault::WrongType(key) => line_of_text("refused 5 wrong type", key.as_str()),
        SceneFault::Rules(fault) => line_of_text("refused 6 out of range", rule_key(*fault)),
        SceneFault::BadEvery => line_of("refused 15 bad every"),
        SceneFault::TooManyDisks(n) => line_of_number("refused 7 too many disks", *n),
        SceneFault::BadRow(i) => line_of_number("refused 8 bad row", u64::from(*i)),
        SceneFault::BadSize(i) => line_of_number("refused 14 bad size", u64::from(*i)),
        SceneFault::Outside(i) => line_of_number("refused 9 outside", u64::from(*i)),
        SceneFault::TooFast(i) => line_of_number("refused 10 too fast", u64::from(*i)),
        SceneFault::Overlap(i, j) => line_of_pair("refused 11 overlap", *i, *j),
        SceneFault::ReadFault | SceneFault::NoMemory => TextLine::new(),
    }
}

fn rule_key(fault: RuleFault) -> &'static str
    ensures value { result.now ≡ rule_key fault }
    ensures short { length result.now ≤ 11 }
{
    match fault {
        RuleFault::Width => "width",
        RuleFault::Height => "height",
        RuleFault::Diameter => "diameter",
        RuleFault::Speed => "speed_limit",
        RuleFault::Rounds => "round_limit",
        RuleFault::End => "end",
    }
}

fn line_of(name: &str) -> TextLine
    requires { length name.now ≤ 32 }
    ensures { result ≡ line_of (name.now ∷ []) }
{
    let mut line = TextLine::new();
    line.push_text(name);
    line.push_newline();
    line
}

fn line_of_text(name: &str, text: &str) -> TextLine
    requires name { length name.now ≤ 32 }
    requires text { length text.now ≤ 32 }
    ensures { result ≡ line_of (name.now ∷ text.now ∷ []) }
{
    let mut line = TextLine::new();
    line.push_text(name);
    line.push_text_field(text);
    line.push_newline();
    line
}

fn line_of_key(name: &str, key: &KeyText) -> TextLine
    requires { length name.now ≤ 32 }
    ensures { result ≡ line_of (name.now ∷ key.now ∷ []) }
{
    let mut line = TextLine::new();
    line.push_text(name);
    line.push_text(" ");
    line.push_bytes(key.as_bytes());
    line.push_newline();
    line
}

fn line_of_number(name: &str, n: u64) -> TextLine
    requires { length name.now ≤ 32 }
    ensures { result ≡ line_of (name.now ∷ decimal n ∷ []) }
{
    let mut line = TextLine::new();
    line.push_text(name);
    line.push_number_field(n);
    line.push_newline();
    line
}

fn line_of_pair(name: &str, i: u32, j: u32) -> TextLine
    requires { length name.now ≤ 32 }
    ensures { result ≡ line_of (name.now ∷ decimal i ∷ decimal j ∷ []) }
{
    let mut line = TextLine::new();
    line.push_text(name);
    line.push_number_field(u64::from(i));
    line.push_number_field(u64::from(j));
    line.push_newline();
    line
}
