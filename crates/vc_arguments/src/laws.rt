//! Laws of the definitions: functions with no work to do, whose contracts are the laws.

ghost use Rattle.std.specs.Prelude.{List};
ghost use Rattle.std.specs.Borrow.{Bor};
ghost use Rattle.clap.specs.Walk.{Text};
ghost use Rattle.clap.specs.Words.{App, HasMatchesOf, subcommand_rows_of};
ghost use Rattle.clap.specs.declared.parser.matches.ArgMatches.{ArgMatches};
ghost use Rattle.vc_arguments.specs.Forms.{Choices};
ghost use Rattle.vc_arguments.specs.KnownLines.{KnowsLines};
ghost use Rattle.vc_arguments.specs.Program.{IsProgram};
ghost use Rattle.vc_arguments.specs.Requests.{IsReadAs, IsRequestOf};
ghost use Rattle.vc_arguments.specs.declared.arguments.Request.{Request};

/// Some command lines ask for what their words say, whichever words the options with a choice take.
pub fn known_lines()
    ensures { (kinds parts modes : Choices) → KnowsLines kinds parts modes }
{}

/// What is read of the matches of a parse by the program is what its words ask for.
pub fn words_are_read()
    ensures { (program : App) (words : List Text) (m : ArgMatches) (request : Request) (terms : Text) (parents items paths : List (Bor Text))
        → IsProgram program → HasMatchesOf program words m → IsReadAs (subcommand_rows_of m) request terms parents items paths
        → IsRequestOf program words request terms parents items paths }
{}
