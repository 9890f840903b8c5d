//! The value of an expression at the shared node: laws, whose contracts are all that they have.

ghost use Rattle.vc_local.specs.Values.{ValuesAreTold};
ghost use Rattle.vc_shared.specs.Resolving.{DownDeclines, ValuesAnswer};

/// Over clean files that spell a repository an expression's value is what its text denotes there, its refusal is the one that
/// the text has there, and nothing else is told but want of memory and a device that failed. So what is told is the machine's
/// answer to the question for the value, at a node that is up; one that is down answers 112.
pub fn the_value_of_an_expression_is_the_machines()
    ensures told { ValuesAreTold }
    ensures up { ValuesAnswer }
    ensures down { DownDeclines }
{}
