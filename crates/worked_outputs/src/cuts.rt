//! What cuts leave, of the scene of two disks that meet head on.

ghost use Rattle.std.specs.Prelude.{◌≡◌, ℕ, List, [], ◌∷◌, Ok};
ghost use Rattle.event_rules.specs.declared.change.Change.{Change};
ghost use Rattle.event_rules.specs.declared.outcome.Outcome.{Outcome};
ghost use Rattle.event_rules.specs.declared.outcome.Outcome.TheVariants.{Done as DoneOutcome};
ghost use Rattle.event_rules.specs.Run.{IsRun};
ghost use Rattle.resume.specs.Shift.{shifted, later_outcome};
ghost use Rattle.scene_reader.specs.Says.{says};
ghost use Rattle.command_words.specs.declared.settings.OutputFormat.TheVariants.{Lines};
ghost use Rattle.command_words.specs.declared.settings.Settings.{Settings};
ghost use Rattle.program_modes.specs.declared.status.Status.TheVariants.{Done};
ghost use Rattle.program_modes.specs.Laws.{IsOutputFor, IsCutAgain, CutsAt};
ghost use Rattle.worked_laws.specs.Pair.{pair_scene, the_hit, pair_end};
ghost use Rattle.worked_outputs.specs.Rests.{rest_at_one, rest_at_two};

use program_modes::{cuts_add_up, cuts_resume};

/// By `cuts_resume` what is written when the pair's scene is cut at tick 2 states the two at x = 12 and 18, with three
/// ticks left; and any run of that, two ticks later, is the hit at tick 3 and the pair's end. A law of the text alone, or
/// of the run alone, doesn't say it.
pub fn the_pair_is_cut_at_two()
    ensures states { (cut : Settings) (bytes text : List ℕ) → CutsAt cut 2 Lines → says bytes ≡ Ok pair_scene →
        IsOutputFor cut bytes text Done → says text ≡ Ok rest_at_two }
    ensures runs { (cut : Settings) (bytes text : List ℕ) → CutsAt cut 2 Lines → says bytes ≡ Ok pair_scene →
        IsOutputFor cut bytes text Done → (more : List Change) (outcome : Outcome) → IsRun rest_at_two more outcome →
        (shifted 2 more ≡ the_hit ∷ []) × (later_outcome 2 outcome ≡ DoneOutcome pair_end) }
{
    cuts_resume();
}

/// By `cuts_add_up`, with `cuts_resume`, two cuts one tick apart leave what one cut at tick 2 leaves; and if the one cut
/// is done so are two, with the pair at x = 11 and 19 between them. A law of one direction doesn't say it.
pub fn two_cuts_are_one()
    ensures one { (first again once : Settings) (bytes text : List ℕ) → CutsAt first 1 Lines → CutsAt again 1 Lines → CutsAt once 2 Lines →
        says bytes ≡ Ok pair_scene → IsCutAgain first again bytes text → says text ≡ Ok rest_at_two }
    ensures two { (first again once : Settings) (bytes text : List ℕ) → CutsAt first 1 Lines → CutsAt again 1 Lines → CutsAt once 2 Lines →
        says bytes ≡ Ok pair_scene → IsOutputFor once bytes text Done →
        (left : List ℕ) × (says left ≡ Ok rest_at_one) × IsOutputFor again left text Done }
{
    cuts_resume();
    cuts_add_up();
}
