// What some lines and scripts say, read by hand: so that the words of the contracts are seen to mean it.
ghost use Rattle.vc_script.specs.ByHand.{EventsByHand, OrdersByHand, PushByHand, RefusedByHand, ScriptsByHand};

/// Lines of each form, and some of no form.
pub fn lines_by_hand()
    ensures orders { OrdersByHand }
    ensures push { PushByHand }
    ensures events { EventsByHand }
    ensures refused { RefusedByHand }
{}

/// Whole scripts, and texts that are none.
pub fn scripts_by_hand()
    ensures { ScriptsByHand }
{}
