//! What mode `audit` writes: the verdict on a claimed report.

ghost use Rattle.std.specs.Prelude.{◌≡◌, ◌≢◌, ◌≤◌, ◌++◌, ◌∷◌, [], Some, length, codes, decimal};
ghost use Rattle.command_words.specs.declared.settings.Settings.{Settings};
ghost use Rattle.command_words.specs.declared.settings.Mode.TheVariants.{Audit};
ghost use Rattle.text_lines.specs.Lines.{line_of};
ghost use Rattle.program_modes.specs.Answers.{Answers, LeavesNothing, CountsReads, CountsWrites, IsInputIn, MayWrite};
ghost use Rattle.program_modes.specs.Output.{Input};
ghost use Rattle.program_modes.specs.Verdicts.{OfAudit, expected_line, verdict_text, verdict_status};

use crate::auditing::{AuditFault, audit_by};
use crate::engines::Engine;
use crate::refusals::refusal_line;
use crate::showing::write_text;
use crate::status::Status;
use region_core::{Burst, Gate, Idle};
use report_audit::Verdict;
use report_ports::{Sink, Source};
use std::alloc::Global;
use std::sync::Wait;
use std::thread::Threads;
use text_lines::TextLine;

/// Audits the claimed report of a source, and writes the verdict, or the line of a refused scene.
pub fn show_audit<R: Threads + Wait + Sync, G: Gate, B: Burst<Idle, ()>, S: Source, K: Sink>(
    rt: &R,
    alloc: Global,
    engine: &mut Engine<'_, G, B>,
    source: &mut S,
    sink: &mut K,
) -> Status
    requires allowed { (input : Input) → IsInputIn Audit (S.left source.old) input →
        MayWrite (OfAudit input.said input.claimed) (K.allows (K.lasting sink.old)) (K.taken sink.old) }
    ensures answers { (settings : Settings) → settings.mode ≡ Audit →
        Answers (Some settings) (S.left source.old) (K.taken sink.old) (K.taken sink.new) result }
    ensures emptied { LeavesNothing (S.left source.old) (S.left source.new) result }
    ensures reads { CountsReads (S.faults source.old) (S.faults source.new) result }
    ensures writes { CountsWrites (K.faults sink.old) (K.faults sink.new) result }
{
    match audit_by(rt, alloc, source, engine) {
        Ok(verdict) => {
            let text = verdict_text(&verdict);
            write_text(sink, text.as_bytes(), verdict_status(&verdict))
        }
        Err(AuditFault::Scene(fault)) => {
            write_text(sink, refusal_line(&fault).as_bytes(), Status::SceneRefused)
        }
        Err(AuditFault::ReadFault) => Status::ReadFault,
        Err(AuditFault::NoMemory) => Status::NoMemory,
    }
}

fn verdict_status(verdict: &Verdict) -> Status
    ensures status { result ≡ verdict_status verdict.now }
    ensures own { result ≢ Status.WriteFault }
{
    match verdict {
        Verdict::Same { .. } => Status::Done,
        Verdict::Line { .. } => Status::Wrong,
    }
}

/// The lines of a verdict.
pub fn verdict_text(verdict: &Verdict) -> TextLine
    ensures { result ≡ verdict_text verdict.now }
{
    match verdict {
        Verdict::Same { lines } => ok_line(*lines),
        Verdict::Line { number, expected } => {
            let mut text = wrong_line(*number);
            match expected {
                Some(line) => push_expected(&mut text, line.as_slice()),
                None => push_nothing(&mut text),
            }
            text
        }
    }
}

fn ok_line(lines: u128) -> TextLine
    ensures { result ≡ line_of (codes "audit ok" ∷ decimal lines ∷ []) }
{
    let mut line = TextLine::new();
    line.push_text("audit ok");
    line.push_text(" ");
    line.push_wide(lines);
    line.push_newline();
    line
}

fn wrong_line(number: u128) -> TextLine
    ensures text { result ≡ line_of (codes "audit line" ∷ decimal number ∷ []) }
    ensures len { length result ≤ 51 }
{
    let mut line = TextLine::new();
    line.push_text("audit line");
    line.push_text(" ");
    line.push_wide(number);
    line.push_newline();
    line
}

fn push_expected(text: &mut TextLine, line: &[u8])
    requires room { length text.old ≤ 51 }
    requires short { length line.now ≤ 128 }
    ensures { text.new ≡ text.old ++ line_of (codes "expected" ∷ line.now ∷ []) }
{
    text.push_text("expected");
    text.push_text(" ");
    text.push_bytes(line);
    text.push_newline();
}

fn push_nothing(text: &mut TextLine)
    requires { length text.old ≤ 51 }
    ensures { text.new ≡ text.old ++ line_of (codes "expected nothing" ∷ []) }
{
    text.push_text("expected nothing");
    text.push_newline();
}
