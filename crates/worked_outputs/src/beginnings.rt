//! What two runs of the same bytes have written, at the line of the hit.

ghost use Rattle.std.specs.Prelude.{◌≡◌, ℕ, List, ◌++◌, codes, Some};
ghost use Rattle.command_words.specs.Words.{settings_of};
ghost use Rattle.command_words.specs.declared.settings.Settings.{Settings};
ghost use Rattle.program_modes.specs.Laws.{AskAlike, IsBeginningFor};
ghost use Rattle.worked_laws.specs.Texts.{hit_line};

use program_modes::any_two_runs_agree;

/// By `any_two_runs_agree`, if a run has written the line of the hit so far, which begins with a 3, no other run of these
/// bytes has written a 4 first. A law of runs that have ended, or of two runs by the same words, doesn't say it.
pub fn no_other_run_begins_otherwise()
    ensures { (words others : List (List ℕ)) (a b : Settings) (bytes rest : List ℕ) → settings_of words ≡ Some a →
        settings_of others ≡ Some b → AskAlike a b → IsBeginningFor a bytes hit_line →
        ¬ IsBeginningFor b bytes (codes "4" ++ rest) }
{
    any_two_runs_agree();
}
