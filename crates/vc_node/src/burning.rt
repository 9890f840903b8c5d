// What a call spends of the writes left before a stop.
ghost use Rattle.vc_node.specs.Burning.{CallsBurn, CloneBurns, CloneSuffices, ExchangesBurn, PacksBurn, SoundCallsBurn};
ghost use Rattle.vc_node.specs.CloneCalls.{ReceivedAs, SentAs};
ghost use Rattle.vc_rules.specs.Told.{Quietly};
ghost use Rattle.vc_node.specs.CloneFaults.{TellsDevice as CloneTellsDevice, fault_answer};
ghost use Rattle.vc_local.specs.NodeFault.{TellsDevice};
ghost use Rattle.vc_local.specs.Machine.{done_answer, made_answer};
ghost use Rattle.vc_local.specs.Told.{FoundAs, RestartedAs};
ghost use Rattle.vc_pruning.specs.Pruning.{PrunedAs};

use vc_files::Files;

/// What a call of a held clone says of its answer, of its wear and of where it only looks makes it a step of the machine that
/// spends what the machine allows: over files of any kind, for calls that make an object and for those that only change what is
/// stored.
pub fn a_call_spends_what_the_machine_allows<F: Files>()
    ensures made { CallsBurn F.honest F.content F.failed F.can_fail F.left made_answer }
    ensures done { CallsBurn F.honest F.content F.failed F.can_fail F.left done_answer }
    ensures made_if_sound { SoundCallsBurn F.honest F.content F.failed F.can_fail F.left made_answer }
    ensures done_if_sound { SoundCallsBurn F.honest F.content F.failed F.can_fail F.left done_answer }
{}

/// The same of a call that sends or takes messages, or asks for a value.
pub fn an_exchange_spends_what_the_machine_allows<F: Files>()
    ensures received { ExchangesBurn F.honest F.content F.failed F.can_fail F.left ReceivedAs }
    ensures sent { ExchangesBurn F.honest F.content F.failed F.can_fail F.left SentAs }
    ensures found { ExchangesBurn F.honest F.content F.failed F.can_fail F.left (FoundAs fault_answer) }
{}

/// The same of packing the refs, which changes no place of the repository.
pub fn a_packing_spends_what_the_machine_allows<F: Files>()
    ensures packed { PacksBurn F.honest F.content F.failed F.can_fail F.left }
{}

/// A call of a held clone, other than its opening, spends what the machine allows, also if a fuse has blown in its files.
pub fn a_calm_clone_spends_what_the_machine_allows<F: Files>()
    ensures made { CloneBurns F.honest F.content F.failed F.can_fail F.left (λ r. Quietly (made_answer r)) (λ r. TellsDevice r) }
    ensures done { CloneBurns F.honest F.content F.failed F.can_fail F.left (λ r. Quietly (done_answer r)) (λ r. TellsDevice r) }
    ensures received { CloneBurns F.honest F.content F.failed F.can_fail F.left ReceivedAs (λ r. CloneTellsDevice r) }
    ensures sent { CloneBurns F.honest F.content F.failed F.can_fail F.left SentAs (λ r. CloneTellsDevice r) }
    ensures found { CloneBurns F.honest F.content F.failed F.can_fail F.left (FoundAs fault_answer) (λ r. CloneTellsDevice r) }
    ensures packed { CloneBurns F.honest F.content F.failed F.can_fail F.left RestartedAs (λ r. TellsDevice r) }
    ensures pruned { CloneBurns F.honest F.content F.failed F.can_fail F.left PrunedAs (λ r. TellsDevice r) }
    ensures enough { CloneSuffices }
{}
