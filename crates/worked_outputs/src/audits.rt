//! What audits say, of the report of two disks that meet head on.

ghost use Rattle.std.specs.Prelude.{◌≡◌, ℕ, List, ◌++◌, codes};
ghost use Rattle.text_lines.specs.Lines.{ended};
ghost use Rattle.command_words.specs.declared.settings.Mode.TheVariants.{Audit};
ghost use Rattle.command_words.specs.declared.settings.Settings.{Settings};
ghost use Rattle.report_audit.specs.Laws.{joined};
ghost use Rattle.program_modes.specs.declared.status.Status.{Status};
ghost use Rattle.program_modes.specs.declared.status.Status.TheVariants.{Done, Wrong};
ghost use Rattle.program_modes.specs.Laws.{IsOutputFor, IsReportFor};
ghost use Rattle.worked_laws.specs.Texts.{hit_line, pair_report};

use program_modes::{audits_accept, audits_refuse};

/// By `audits_accept` an audit of the pair's report, of eight lines, writes `audit ok 8`. A law of some other text, or of
/// another status, doesn't say it.
pub fn the_report_is_accepted()
    ensures { (run audit : Settings) (bytes : List ℕ) → IsReportFor run bytes pair_report Done → audit.mode ≡ Audit →
        IsOutputFor audit (joined bytes pair_report) (ended (codes "audit ok 8")) Done }
{
    audits_accept();
}

/// By `audits_refuse` an audit of its first line alone, or of the report with a line more, ends with the status that it is
/// wrong. A law of claims that differ somewhere within the report, or that are as long, doesn't say it.
pub fn wrong_reports_are_refused()
    ensures shorter { (run audit : Settings) (bytes shown : List ℕ) (own : Status) → IsReportFor run bytes pair_report Done →
        audit.mode ≡ Audit → IsOutputFor audit (joined bytes hit_line) shown own → own ≡ Wrong }
    ensures longer { (run audit : Settings) (bytes shown : List ℕ) (own : Status) → IsReportFor run bytes pair_report Done →
        audit.mode ≡ Audit → IsOutputFor audit (joined bytes (pair_report ++ ended (codes "disk 2 30 10 0 0"))) shown own → own ≡ Wrong }
{
    audits_refuse();
}
