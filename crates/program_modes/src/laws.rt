//! The laws of the output, for those who read the definitions alone.

ghost use Rattle.program_modes.specs.Laws.{OneOutput, PrefixesMayBeAsked, OnlyBeginnings, BeginningsAgree, DependsOnAlone, AuditsAccept, AuditsRefuse, AuditsKeepRefusals, ChecksStay, CutsResume, CutsAddUp};

/// For given words and bytes of a source there is exactly one output.
pub fn one_output()
    ensures { OneOutput }
{}

/// A sink may ask of each byte that it is given that what it has taken then is a prefix of that output.
pub fn prefixes_may_be_asked()
    ensures { PrefixesMayBeAsked }
{}

/// Any two runs agree at any moment. What a sink that asks for it has taken, at each moment and at the end, is the beginning
/// of an output; and of what two runs of the same bytes have written so far, one is a prefix of the other: whatever the
/// numbers of regions, workers, turns and steps, the kind of burst and the engine, and whenever each of them is looked at.
pub fn any_two_runs_agree()
    ensures moments { OnlyBeginnings }
    ensures agree { BeginningsAgree }
{}

/// The output depends only on what is read and on the mode, and but for audits on the format; in a cut also on the tick, if
/// sums of a run are shown on their margin, and if the scene is made on its number and its number of disks. It doesn't depend
/// on the numbers of regions, workers, turns and steps, nor on the kind of burst; and `run` and `plain` write the same.
pub fn output_depends_on_alone()
    ensures { DependsOnAlone }
{}

/// An audit of the lines of a scene, a line `===` and what a run of that scene wrote, whether it came to its end or
/// passed a limit, writes `audit ok` with the number of its lines.
pub fn audits_accept()
    ensures { AuditsAccept }
{}

/// An audit of any other claimed report ends with the status that it is wrong.
pub fn audits_refuse()
    ensures { AuditsRefuse }
{}

/// If a run refuses some lines, an audit of these lines writes the same refusal, whatever report is claimed.
pub fn audits_keep_refusals()
    ensures { AuditsKeepRefusals }
{}

/// What a check writes of a scene states that scene, and a check of that text writes it again.
pub fn checks_stay()
    ensures { ChecksStay }
{}

/// What is written of a scene that is cut states a scene, the rest, whose disks begin where the run up to the tick
/// leaves them. Its run, with its ticks raised and after the changes before the cut, is the run of the scene.
pub fn cuts_resume()
    ensures { CutsResume }
{}

/// To cut a scene at a tick, and then what was written at a second one, writes exactly what one cut at the sum of both
/// ticks writes.
pub fn cuts_add_up()
    ensures { CutsAddUp }
{}
