//! The subcommands by a table: what each is called, which words it takes, and what help says of them.

ghost use Rattle.std.specs.Prelude.{◌≡◌, IfOk, false, map, true};
ghost use Rattle.std.specs.List.{fold};
ghost use Rattle.clap.specs.Words.{app_of, is_simple, rule_of};
ghost use Rattle.clap.specs.declared.builder.command.Command.TheViews.{out-Command as fields_of};
ghost use Rattle.vc_arguments.specs.Forms.{Choices, Holds, branch_forms, form_view, given_view, index_forms, object_forms};
ghost use Rattle.vc_arguments.specs.Forms.{kind_words, mode_words, part_words, remote_forms, revision_forms};
ghost use Rattle.vc_arguments.specs.Program.{IsProgram, add_form, app_of_form, rule_given};

use clap::builder::ValueParser;
use clap::{Arg, ArgAction, Command};
use std::alloc::{AllocError, Global};

/// The folder of the store where none is named.
pub const DEFAULT_STORE: &str = ".git";

const KINDS: [&str; 4] = ["blob", "tree", "commit", "tag"];

const MODES: [&str; 3] = ["100644", "100755", "120000"];

const PARTS: [&str; 3] = ["type", "size", "body"];

const MOST_PORT: u64 = 65_535;

const MOST_CONNECTIONS: u64 = 1_000_000;

// Each has a thread.
const MOST_WORKERS: u64 = 256;

const MOST_SECONDS: u64 = 86_400;

const MOST_MEBIBYTES: u64 = 1_048_576;

// A subcommand, and what help says of it.
struct Form {
    name: &'static str,
    about: &'static str,
    // What stands after the list of its arguments.
    after: &'static str,
    arguments: &'static [Argument],
}

// An argument of a subcommand: the name by which it is read, what help calls its value, and what help says of it.
#[derive(Clone, Copy)]
struct Argument {
    id: &'static str,
    value: &'static str,
    given: Given,
    help: &'static str,
}

// How an argument is given.
#[derive(Clone, Copy)]
enum Given {
    // By an option, or else it is this.
    Default(&'static str),
    // By an option that takes one of these, or else it is this.
    OneOf(&'static [&'static str], &'static str),
    // By an option that has to be there.
    Said,
    // By an option that has to be there, as a number from 1 to this.
    Number(u64),
    // The same, but it may be left out.
    MaybeNumber(u64),
    // The same, beside which this option may not be there.
    NumberWithout(u64, &'static str),
    // By an option, as a number from this one to this, or else it is this.
    NumberOr(u64, u64, &'static str),
    // By an option that takes no value.
    Switch,
    // The same, beside which this option has to be there.
    SwitchBeside(&'static str),
    // By an option that takes no value, or by this letter.
    Flag(char),
    // As a word that has to be there.
    One,
    // As a word that may be left out.
    Maybe,
    // As one word or more.
    Some,
    // As any number of words.
    Any,
}

const STORE: Argument = Argument {
    id: "store",
    value: "folder",
    given: Given::Default(DEFAULT_STORE),
    help: "The folder of the store",
};

const WORK: Argument = Argument {
    id: "work",
    value: "folder",
    given: Given::Default("."),
    help: "The folder of the work tree",
};

const PORT: Argument = Argument {
    id: "port",
    value: "port",
    given: Given::Number(MOST_PORT),
    help: "The port of this machine, 1 to 65535",
};

const TIMEOUT: Argument = Argument {
    id: "timeout",
    value: "seconds",
    given: Given::NumberOr(0, MOST_SECONDS, "60"),
    help: "How long the other end may be silent; 0: for ever",
};

const BRANCH: Argument = Argument {
    id: "name",
    value: "name",
    given: Given::One,
    help: "The branch, without refs/heads/",
};

const COMMIT: &str = "A commit: a revision, as main~2 or its name in 40 hex digits";

const REVISION: Argument = Argument {
    id: "rev",
    value: "rev",
    given: Given::One,
    help: COMMIT,
};

// Of a store and its objects.
static OBJECT_FORMS: [Form; 3] = [
    Form {
        name: "init",
        about: "Make a store whose HEAD is refs/heads/main; one that is there stays as it is",
        after: "Example: vcs init --store .vcs",
        arguments: &[STORE],
    },
    Form {
        name: "hash-object",
        about: "Print the name of an object, and store it with --write",
        after: "Example: printf 'Hello World\\n' | vcs hash-object",
        arguments: &[
            STORE,
            Argument {
                id: "kind",
                value: "kind",
                given: Given::OneOf(&KINDS, "blob"),
                help: "The kind of the object",
            },
            Argument {
                id: "write",
                value: "",
                given: Given::Flag('w'),
                help: "Store the object, too",
            },
            Argument {
                id: "file",
                value: "file",
                given: Given::Maybe,
                help: "The file with the body, by the current folder [default: standard input]",
            },
        ],
    },
    Form {
        name: "cat-file",
        about: "Print an object's kind, its size in bytes, or its body as it is",
        after: "Example: vcs cat-file --show size 557db03de997c86a4a028e1ebd3a1ceb225be238",
        arguments: &[
            STORE,
            Argument {
                id: "show",
                value: "part",
                given: Given::OneOf(&PARTS, "body"),
                help: "What to print",
            },
            Argument {
                id: "rev",
                value: "rev",
                given: Given::One,
                help: "The object: a revision, as main~2:src/lib.rs or its name in 40 hex digits",
            },
        ],
    },
];

// Of refs and revisions.
static REVISION_FORMS: [Form; 4] = [
    Form {
        name: "show-ref",
        about: "Print the refs by name, each with its id before it",
        after: "Example: vcs show-ref --store .vcs",
        arguments: &[STORE],
    },
    Form {
        name: "merge-base",
        about: "Print the best common ancestors of two commits; there may be several, or none (status 1)",
        after: "Example: vcs merge-base 1cd19b32dbb05a1e6b1ad3a4d0ed7bbf4ec3df2d 61780798228d17af2d34fce4cfbdf35556832472",
        arguments: &[
            STORE,
            Argument {
                id: "first",
                value: "rev",
                given: Given::One,
                help: COMMIT,
            },
            Argument {
                id: "second",
                value: "other",
                given: Given::One,
                help: COMMIT,
            },
        ],
    },
    Form {
        name: "rev-parse",
        about: "Print the name of the object that a revision names",
        after: "Example: vcs rev-parse main~2^{tree}",
        arguments: &[
            STORE,
            Argument {
                id: "rev",
                value: "rev",
                given: Given::One,
                help: "A revision: a ref, HEAD, an id or its beginning, with steps and a path",
            },
        ],
    },
    Form {
        name: "rev-list",
        about: "Print the commits that the terms select, sorted by name, one a line",
        after: "Example: vcs rev-list main ^topic, or vcs rev-list topic..main",
        arguments: &[
            STORE,
            Argument {
                id: "term",
                value: "term",
                given: Given::Some,
                help: "A term: r, ^r, a..b, a...b, r^@, r^! or r^-n, with revisions r, a and b",
            },
        ],
    },
];

// Of the index, up to a commit of it.
static INDEX_FORMS: [Form; 4] = [
    Form {
        name: "add",
        about: "Put files of the work tree into the index",
        after: "A folder stands for all files in it, and . for the whole work tree; where one can't be put there, none is. A file that is\ngone from the work tree stays in the index: see unstage.\n\nExample: vcs add src/lib.rs README.md, or vcs add src, or vcs add .",
        arguments: &[
            STORE,
            WORK,
            Argument {
                id: "mode",
                value: "mode",
                given: Given::OneOf(&MODES, "100644"),
                help: "Files, files that may be run, or links whose texts the files hold",
            },
            Argument {
                id: "paths",
                value: "path",
                given: Given::Some,
                help: "The path of a file or a folder, from the work tree's folder",
            },
        ],
    },
    Form {
        name: "unstage",
        about: "Take a path out of the index; the file in the work tree stays",
        after: "Example: vcs unstage src/lib.rs",
        arguments: &[
            STORE,
            Argument {
                id: "path",
                value: "path",
                given: Given::One,
                help: "The path in the index",
            },
        ],
    },
    Form {
        name: "write-tree",
        about: "Store the index as trees, and print the root's name",
        after: "Example: vcs write-tree",
        arguments: &[STORE],
    },
    Form {
        name: "commit",
        about: "Commit the index on HEAD's branch, and print the commit's name",
        after: "Example: vcs commit --author 'A <a@x> 0 +0000' --committer 'A <a@x> 0 +0000' --message first",
        arguments: &[
            STORE,
            Argument {
                id: "author",
                value: "text",
                given: Given::Said,
                help: "Who wrote it: name, address in <>, seconds and zone",
            },
            Argument {
                id: "committer",
                value: "text",
                given: Given::Said,
                help: "Who commits it, in the same form",
            },
            Argument {
                id: "message",
                value: "text",
                given: Given::Said,
                help: "What the commit says",
            },
            Argument {
                id: "parent",
                value: "rev",
                given: Given::Any,
                help: "Extra parents, after HEAD's commit",
            },
        ],
    },
];

// Of branches and the work tree.
static BRANCH_FORMS: [Form; 6] = [
    Form {
        name: "branch",
        about: "Set a branch to a commit, whatever it was; commits that it alone named lose their name",
        after: "What the branch was is told on a terminal: from that id the commits can be named again.\n\nExample: vcs branch topic main~2",
        arguments: &[STORE, BRANCH, REVISION],
    },
    Form {
        name: "branch-delete",
        about: "Remove a branch; its commits stay stored, and those that it alone named lose their name",
        after: "What the branch was is told on a terminal: from that id the commits can be named again.\n\nExample: vcs branch-delete topic",
        arguments: &[STORE, BRANCH],
    },
    Form {
        name: "pack-refs",
        about: "Put all refs into one file, so that many are read at once; none of them changes",
        after: "Example: vcs pack-refs --store .vcs",
        arguments: &[STORE],
    },
    Form {
        name: "prune",
        about: "Remove each object that no ref, HEAD or file of the index reaches, and print how many went",
        after: "No object has a time here, so one that was stored a moment ago goes as well, if nothing reaches it: what hash-object --write\nstored and nothing names, and the commits that a branch named before it was set or deleted. What a ref, HEAD or a staged file\nreaches stays. An object that an open push needs stays too: while a server answers on the store, or a fetch or a push of this\nclone is under way, nothing is removed, and the prune is refused (110).\n\nWith --dry-run nothing is removed: each object that would go is printed, its name and its kind, sorted by name. It waits for\nnobody, so what another command stores meanwhile may be among them.\n\nExample: vcs prune --dry-run, then vcs prune",
        arguments: &[
            STORE,
            Argument {
                id: "dry-run",
                value: "",
                given: Given::Flag('n'),
                help: "Print what would go, and remove nothing",
            },
        ],
    },
    Form {
        name: "checkout",
        about: "Bring work tree, index and HEAD to a commit; a change that is not staged stops it",
        after: "What is staged counts as stored: a staged file that was never committed goes from the work tree and the index.\nIts blob stays in the store, under the name that hash-object gives it. So checkout main on main undoes\nwhat was staged since the last commit.\n\nExample: vcs checkout main",
        arguments: &[STORE, WORK, REVISION],
    },
    Form {
        name: "status",
        about: "Print how HEAD's tree, the index and the work tree differ",
        after: "Example: vcs status",
        arguments: &[STORE, WORK],
    },
];

// Of other processes, and of a world.
static REMOTE_FORMS: [Form; 4] = [
    Form {
        name: "serve",
        about: "Let clones on this machine fetch from the store and push to it",
        after: "Prints \"listening\" and the port once it is open, and serves one connection after the other. Commands on\nthe store may run meanwhile, also in the middle of a long push. Only a fault of its own, no memory or a\nfailed disk, ends it early, with status 3; what a client sends never does. It ends so, too, once its folder\nwas moved or its disk is gone. It may be killed at any time: nothing that a client was told is lost. A\nconnection on which no message came counts as none.\n\nWith --workers so many connections are served at once, each as soon as a worker is free, and updates that come at the same\ntime are made durable together. With --together so many connections are taken first. With either the store is this server's\nalone until it ends: no other command writes to it meanwhile.\n\nA line of the log has the seconds since 1970, the client, what was asked last and what became of it, how many\nbytes came and went, and how many milliseconds the connection lasted.\n\nExample: vcs serve --store shared --port 7000 --workers 16 --log 2>> served.log",
        arguments: &[
            STORE,
            PORT,
            Argument {
                id: "count",
                value: "count",
                given: Given::MaybeNumber(MOST_CONNECTIONS),
                help: "End after so many connections, 1 to 1000000 [default: never]",
            },
            Argument {
                id: "together",
                value: "",
                given: Given::SwitchBeside("count"),
                help: "Take so many connections first, then serve all of them at once",
            },
            Argument {
                id: "workers",
                value: "workers",
                given: Given::NumberWithout(MOST_WORKERS, "together"),
                help: "Serve so many connections at once, 1 to 256; more wait",
            },
            TIMEOUT,
            Argument {
                id: "limit",
                value: "MiB",
                given: Given::NumberOr(1, MOST_MEBIBYTES, "4096"),
                help: "How large a message may be",
            },
            Argument {
                id: "log",
                value: "",
                given: Given::Switch,
                help: "Write a line for each connection to standard error",
            },
        ],
    },
    Form {
        name: "fetch",
        about: "Fetch what a served store has, and print how many refs moved",
        after: "A branch b of the served store is followed by refs/remotes/origin/b here, and no branch of this clone moves.\n\nExample: vcs fetch --port 7000, then vcs rev-list main..refs/remotes/origin/main",
        arguments: &[STORE, PORT, TIMEOUT],
    },
    Form {
        name: "push",
        about: "Ask a served store to change refs, and print for each whether it did",
        after: "Prints \"ok\" and the ref, or \"ng\", the ref and why not; status 1 if one is \"ng\". A branch is changed only from the value\nthat the last fetch or push saw: after \"ng\" fetch, commit or merge on what came, and push again.\nWith --atomic all refs are changed or none. If one can't be, each is \"ng\" and none was changed; \"atomic push failure\" is said\nof those that nothing else was against.\n\nExample: vcs push --port 7000 main, or vcs push --port 7000 main~1:refs/heads/topic, or\nvcs push --port 7000 --atomic main main:refs/tags/v1",
        arguments: &[
            STORE,
            PORT,
            TIMEOUT,
            Argument {
                id: "atomic",
                value: "",
                given: Given::Switch,
                help: "Change all of the refs, or none of them",
            },
            Argument {
                id: "item",
                value: "item",
                given: Given::Some,
                help: "A branch b; or rev:ref, cut at the last colon, for a ref by its full name; or :ref to delete one",
            },
        ],
    },
    Form {
        name: "world",
        about: "Play a script of a world of nodes in memory, and print what each event is answered",
        after: "The first line of the script is \"world\" and how many clones there are, 1 to 16; each other line is one event. A clone c0\nwrites, adds, commits, fetches and pushes, by \"push-atomic\" all refs or none; \"deliver k\" brings the message of that number\nto whom it is for; \"step s\" is the next step of the push in that slot of the shared node; \"stop c0 n\" lets n more writes\npass at a node, until \"restart c0\"; \"forge shared c0\" and hex digits bring bytes to a node as from the other end. There is no\nstore, and nothing is left.\n\nExample: printf 'world 1\\nc0 add f x\\nc0 commit m\\nc0 push main\\ndeliver 0\\n' >script, then vcs world script",
        arguments: &[Argument {
            id: "file",
            value: "file",
            given: Given::One,
            help: "The file with the script, by the current folder",
        }],
    },
];

// The parts of the table, in their order.

fn object_forms() -> &'static [Form]
    ensures { (kinds parts : Choices) × Holds kinds kind_words × Holds parts part_words
        × (map form_view result.now ≡ object_forms kinds parts) }
{
    OBJECT_FORMS.as_slice()
}

fn revision_forms() -> &'static [Form]
    ensures { map form_view result.now ≡ revision_forms }
{
    REVISION_FORMS.as_slice()
}

fn index_forms() -> &'static [Form]
    ensures { (modes : Choices) × Holds modes mode_words × (map form_view result.now ≡ index_forms modes) }
{
    INDEX_FORMS.as_slice()
}

fn branch_forms() -> &'static [Form]
    ensures { map form_view result.now ≡ branch_forms }
{
    BRANCH_FORMS.as_slice()
}

fn remote_forms() -> &'static [Form]
    ensures { map form_view result.now ≡ remote_forms }
{
    REMOTE_FORMS.as_slice()
}

/// The whole command line.
pub fn command<'a>(alloc: Global) -> Result<Command<'a>, AllocError>
    ensures program { IfOk result (λ program. IsProgram (app_of program)) }
    ensures simple { IfOk result (λ program. is_simple (app_of program) ≡ true) }
    ensures local { IfOk result (λ program. (fields_of program).has_globals ≡ false) }
{
    let program = Command::new(alloc, "vcs")
        .version("0.1.0")
        .about("A version control core with Git's object model: nothing that was committed is lost")
        .subcommand_required(true)
        .arg_required_else_help(true);
    let program = with_forms(alloc, program, object_forms())?;
    let program = with_forms(alloc, program, revision_forms())?;
    let program = with_forms(alloc, program, index_forms())?;
    let program = with_forms(alloc, program, branch_forms())?;
    with_forms(alloc, program, remote_forms())
}

// The program with one more subcommand for each form.
fn with_forms<'a>(
    alloc: Global,
    program: Command<'a>,
    forms: &[Form],
) -> Result<Command<'a>, AllocError>
    ensures app { IfOk result (λ made. app_of made ≡ fold add_form (app_of program.entry) (map form_view forms.now)) }
    ensures local { IfOk result (λ made. (fields_of made).has_globals ≡ (fields_of program.entry).has_globals) }
{
    let mut made = program;
    for form in forms {
        made = made.subcommand(command_of(alloc, form)?)?;
    }
    Ok(made)
}

// A subcommand as clap has it.
fn command_of<'a>(alloc: Global, form: &Form) -> Result<Command<'a>, AllocError>
    ensures app { IfOk result (λ command. app_of command ≡ app_of_form (form_view form.now)) }
    ensures local { IfOk result (λ command. (fields_of command).has_globals ≡ false) }
{
    let mut command = Command::new(alloc, form.name)
        .about(form.about)
        .after_help(form.after);
    for argument in form.arguments {
        command = command.arg(arg_of(alloc, argument)?)?;
    }
    Ok(command)
}

// An argument as clap has it.
fn arg_of<'a>(alloc: Global, argument: &Argument) -> Result<Arg<'a>, AllocError>
    ensures rule { IfOk result (λ arg. rule_of arg ≡ rule_given argument.now.id.now (given_view argument.now.given)) }
    ensures local { IfOk result (λ arg. arg.global ≡ false) }
{
    let arg = Arg::new(alloc, argument.id).help(argument.help);
    match argument.given {
        Given::Default(value) => Ok(
            arg.long(argument.id)
                .value_name(argument.value)
                .default_value(value),
        ),
        Given::OneOf(values, value) => Ok(
            arg.long(argument.id)
                .value_name(argument.value)
                .value_parser(values)
                .default_value(value),
        ),
        Given::Said => Ok(
            arg.long(argument.id)
                .value_name(argument.value)
                .required(true),
        ),
        Given::Number(most) => Ok(
            arg.long(argument.id)
                .value_name(argument.value)
                .required(true)
                .value_parser(ValueParser::Unsigned(1, most)),
        ),
        Given::MaybeNumber(most) => Ok(
            arg.long(argument.id)
                .value_name(argument.value)
                .value_parser(ValueParser::Unsigned(1, most)),
        ),
        Given::NumberWithout(most, other) => arg
            .long(argument.id)
            .value_name(argument.value)
            .value_parser(ValueParser::Unsigned(1, most))
            .conflicts_with(other),
        Given::NumberOr(least, most, value) => Ok(
            arg.long(argument.id)
                .value_name(argument.value)
                .value_parser(ValueParser::Unsigned(least, most))
                .default_value(value),
        ),
        Given::Switch => Ok(arg.long(argument.id).action(ArgAction::SetTrue)),
        Given::SwitchBeside(other) => arg
            .long(argument.id)
            .action(ArgAction::SetTrue)
            .requires_arg(other),
        Given::Flag(letter) => Ok(
            arg.long(argument.id)
                .short(letter)
                .action(ArgAction::SetTrue),
        ),
        Given::One => Ok(arg.value_name(argument.value).required(true)),
        Given::Maybe => Ok(arg.value_name(argument.value)),
        Given::Some => Ok(arg.value_name(argument.value).required(true).num_args(1..)),
        Given::Any => Ok(arg.value_name(argument.value).num_args(0..)),
    }
}
