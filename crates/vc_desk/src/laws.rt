// What holds of every log.
ghost use Rattle.vc_desk.specs.Laws.{EveryLogIsSafe, StepsOfNonePass};
ghost use Rattle.vc_desk.specs.Runs.{Held};

use vc_files::Files;

/// The log of a node that was sound, with no push open, is safe: at each moment all that a ref or HEAD reaches is stored there, and a
/// branch that has a value has one ever after, which descends from it. The premise is that no two different objects that came to be
/// there have one name.
pub fn every_log_is_safe<F: Files>()
    ensures { EveryLogIsSafe (Held F.content) }
{}

/// In the log of a node that was sound, with no push open, no step has a reply as long as no message came, however many steps there
/// are. So a log binds each of its entries, and not the first alone: no body may answer without the node.
pub fn steps_of_no_push_have_no_reply<F: Files>()
    ensures { StepsOfNonePass (Held F.content) }
{}
