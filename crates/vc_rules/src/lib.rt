//! The machine's pushes at Git's object format: what the check of a push asks of a command, and each step of an open push, as the
//! layers below have them (`vc_push_rules`) and as the machine has them, so what a node answers in the machine's terms it answers in
//! theirs. What it makes of trees, indexes and expressions is in `vc_values`.
//!
//! Nothing here is program code. The crates that say what a node answers say it by these rules.
#![tactic(auto)]

ghost use Rattle.vc_rules.specs.OpenPushes.{EachIsBrought, OpensAgree, StepsAgree, OthersStay, EndsEarlyAgree, WritesAgree};
ghost use Rattle.vc_rules.specs.Stops.{FuseIsMended, StopIsSet};
ghost use Rattle.vc_rules.specs.Turns.{NextsAgree, TurnsAgree};
ghost use Rattle.vc_rules.specs.Verdicts.{CheckNeedsAgree, ChecksAgree};
ghost use Rattle.vc_model.specs.Clone.{Awaited};
ghost use Rattle.vc_model.specs.Push.{Slots};

use vc_files::Files;

/// What the check of a push asks of a command is what the machine asks, reason by reason, and so what is judged of a command
/// is what the machine's check makes of it.
pub fn the_check_of_a_push_is_the_machines()
    ensures needs { CheckNeedsAgree }
    ensures verdict { ChecksAgree }
{}

/// Each step of a push's session is a step of the push that it stands for, and the machine's where the repository is sound: the
/// check over what is stored and carried at that moment; the storing of all that is carried; one update over the refs of that moment,
/// or all of an atomic push; the end, where all is told. The pushes of the other slots stay as they are. A push that is opened is one of the machine's,
/// of the objects that it brings, and a step that ends early leaves what a stop of the machine's may leave. If a step may write, the
/// machine's wants to: so a push spends no write that the machine doesn't allow. Commands of an atomic push that are judged one after
/// another are judged as the machine judges them, and the refs that the next one finds are the machine's.
pub fn the_steps_of_a_push_are_the_machines()
    ensures brought { EachIsBrought }
    ensures opened { OpensAgree }
    ensures steps { StepsAgree }
    ensures others { OthersStay }
    ensures early { EndsEarlyAgree }
    ensures writes { WritesAgree }
    ensures turns { TurnsAgree }
    ensures nexts { NextsAgree }
{}

/// A stop that `FusedFiles::stop_after` sets is the machine's, at the shared node and at a clone, and a fuse that is taken out leaves
/// none.
pub fn a_stop_is_the_machines<F: Files>()
    ensures shared { StopIsSet Slots F.can_fail F.left }
    ensures clone { StopIsSet Awaited F.can_fail F.left }
    ensures mended { FuseIsMended F.can_fail F.left }
{}
