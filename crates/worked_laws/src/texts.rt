//! What reports and samples say, at two disks that meet head on.

ghost use Rattle.std.specs.Prelude.{◌≡◌, pos, neg_ℤ, ℕ, List, [], ◌∷◌, ◌++◌, map, Some};
ghost use Rattle.plane_vectors.specs.Vectors.{vector};
ghost use Rattle.fixed_motion.specs.Scene.{SceneData, IsValidScene};
ghost use Rattle.event_rules.specs.declared.change.Change.{Change};
ghost use Rattle.event_rules.specs.declared.outcome.Outcome.{Outcome};
ghost use Rattle.event_rules.specs.declared.outcome.Outcome.TheVariants.{Done};
ghost use Rattle.event_rules.specs.Run.{IsRun};
ghost use Rattle.collision_report.specs.declared.format.Format.TheVariants.{Lines};
ghost use Rattle.collision_report.specs.Report.{report};
ghost use Rattle.run_samples.specs.declared.sample.Sample.TheVariants.{States, Sums};
ghost use Rattle.run_samples.specs.Samples.{samples};
ghost use Rattle.report_reader.specs.Reader.{said, said_of};
ghost use Rattle.worked_laws.specs.Pair.{hit_stamp, the_hit, pair_end};
ghost use Rattle.worked_laws.specs.Texts.{hit_line, pair_report, states_scene, states_sums};

use report_reader::reports_say_runs;
use run_samples::states_are_of_lines;
use sampled_laws::samples_are_of_ticks;

/// By `reports_say_runs` a run with the pair's report, of whatever scene, has one event: the hit's stamp, after which the
/// velocities are (-1, 0) and (1, 0); and it ends at the pair's spots. A law of scenes with equal rules alone, or of
/// stamps alone, doesn't say it.
pub fn the_report_says_the_run()
    ensures { (other : SceneData) (others : List Change) (end : Outcome) → IsValidScene other → IsRun other others end →
        report Lines other others end ≡ pair_report →
        (map said_of others ≡ said hit_stamp (vector (neg_ℤ (pos 1)) (pos 0)) (Some (vector (pos 1) (pos 0))) ∷ [])
        × (end ≡ Done pair_end) }
{
    reports_say_runs();
}

/// By `states_are_of_lines` the states of each second tick are the report of the same scene without the line of the hit.
/// A law that lets more be left out, or put in another order, doesn't say it.
pub fn the_states_leave_out_the_hit()
    ensures { (before : List ℕ) × (after : List ℕ)
        × (report Lines states_scene (the_hit ∷ []) (Done pair_end) ≡ before ++ (hit_line ++ after))
        × (samples States states_scene (the_hit ∷ []) (Done pair_end) ≡ before ++ after) }
{
    states_are_of_lines();
}

/// By `samples_are_of_ticks` the sums are those of the ticks 2 and 4, and of the end: without the hit at tick 2, and with
/// it at tick 4, with the virial 8. A law with other ticks, or of sums over the whole run at each, doesn't say it.
pub fn the_sums_are_of_two_ticks()
    ensures { samples (Sums 0) states_scene (the_hit ∷ []) (Done pair_end) ≡ states_sums }
{
    samples_are_of_ticks();
}
