//! What the words of a command line ask for.

ghost use Rattle.std.specs.Prelude.{◌≡◌, IfOk, codes, map, option_map, string_bytes};
ghost use Rattle.clap.specs.Words.{first_of, found_of, rows_of, subcommand_rows_of};
ghost use Rattle.vc_arguments.specs.Reading.{is_on, is_said, mode_named, number_of, part_named, text_of};
ghost use Rattle.vc_arguments.specs.Requests.{cat_file_of, fetch_of, hash_object_of, local_task_of, push_of, serving_of, task_of};
ghost use Rattle.vc_arguments.specs.Requests.{has_work, is_empty_value, list_of, option_without_folder, request_of, terms_of};
ghost use Rattle.vc_arguments.specs.Views.{local_task_view, request_view, task_view};

use crate::arguments::{FileMode, LocalTask, Part, RemoteTask, Request, Serving, Task, Words};
use crate::forms::DEFAULT_STORE;
use clap::ArgMatches;
use clap::parser::ValueSource;
use std::alloc::{AllocError, Global};
use vc_object::Kind;

/// The values of an argument that may have many, as the matches have them.
pub fn list_of<'a>(
    alloc: Global,
    matches: &ArgMatches<'a>,
    id: &str,
) -> Result<Vec<&'a str>, AllocError>
    ensures { IfOk result (λ values. map (λ value. value.now) values.items ≡ list_of id.now (subcommand_rows_of matches.now)) }
{
    let Some((_, words)) = matches.subcommand() else {
        return Ok(Vec::new(alloc));
    };
    match words.get_strs(id) {
        Some(found) => Vec::from_slice(alloc, found),
        None => Ok(Vec::new(alloc)),
    }
}

fn mode_named(text: &str) -> Option<FileMode>
    ensures { result ≡ mode_named text.now }
{
    match text {
        "100644" => Some(FileMode::Plain),
        "100755" => Some(FileMode::Executable),
        "120000" => Some(FileMode::Link),
        _ => None,
    }
}

/// The terms of a set among the matches, with a space between two; without any, nothing.
pub fn terms_of(alloc: Global, matches: &ArgMatches<'_>) -> Result<String, AllocError>
    ensures { IfOk result (λ text. string_bytes text ≡ terms_of (subcommand_rows_of matches.now)) }
{
    let terms = list_of(alloc, matches, "term")?;
    terms.join(alloc, " ")
}

/// What the matches ask for, or none if they spell no request of this program.
pub fn request_of<'a>(matches: &ArgMatches<'a>) -> Option<Request<'a>>
    ensures { option_map request_view result ≡ request_of (subcommand_rows_of matches.now) }
{
    let (name, words) = matches.subcommand()?;
    let task = task_of(name, words)?;
    Some(Request {
        store: words.get_str("store").unwrap_or(DEFAULT_STORE),
        is_named: is_said(words, "store"),
        task,
    })
}

// The subcommand that the name and its words ask for, if it is one.
fn task_of<'a>(name: &str, words: &ArgMatches<'a>) -> Option<Task<'a>>
    ensures { option_map task_view result ≡ task_of name.now (rows_of (found_of words.now)) }
{
    match name {
        "init" => Some(Task::Init),
        "hash-object" => hash_object_of(words),
        "cat-file" => cat_file_of(words),
        "show-ref" => Some(Task::ShowRef),
        "merge-base" => Some(Task::MergeBase {
            first: said(words, "first"),
            second: said(words, "second"),
        }),
        "rev-parse" => Some(Task::RevParse {
            revision: said(words, "rev"),
        }),
        "rev-list" => Some(Task::RevList),
        "prune" => Some(Task::Prune {
            dry_run: is_on(words, "dry-run"),
        }),
        "serve" => Some(Task::Remote(RemoteTask::Serve(serving_of(words)?))),
        "fetch" => Some(Task::Remote(fetch_of(words)?)),
        "push" => Some(Task::Remote(push_of(words)?)),
        "world" => Some(Task::World {
            file: said(words, "file"),
        }),
        _ => Some(Task::Local(local_task_of(name, words)?)),
    }
}

fn hash_object_of<'a>(words: &ArgMatches<'a>) -> Option<Task<'a>>
    ensures { option_map task_view result ≡ hash_object_of (rows_of (found_of words.now)) }
{
    Some(Task::HashObject {
        kind: Kind::from_word(said(words, "kind").as_bytes())?,
        write: is_on(words, "write"),
        file: words.get_str("file"),
    })
}

fn cat_file_of<'a>(words: &ArgMatches<'a>) -> Option<Task<'a>>
    ensures { option_map task_view result ≡ cat_file_of (rows_of (found_of words.now)) }
{
    Some(Task::CatFile {
        part: part_named(said(words, "show"))?,
        revision: said(words, "rev"),
    })
}

// How a store is served.
fn serving_of(words: &ArgMatches<'_>) -> Option<Serving>
    ensures { result ≡ serving_of (rows_of (found_of words.now)) }
{
    Some(Serving {
        port: port_of(words)?,
        count: number_of(words, "count"),
        together: is_on(words, "together"),
        workers: number_of(words, "workers"),
        timeout: number_of(words, "timeout")?,
        limit: limit_of(words)?,
        log: is_on(words, "log"),
    })
}

fn fetch_of(words: &ArgMatches<'_>) -> Option<RemoteTask>
    ensures { result ≡ fetch_of (rows_of (found_of words.now)) }
{
    Some(RemoteTask::Fetch {
        port: port_of(words)?,
        timeout: number_of(words, "timeout")?,
    })
}

fn push_of(words: &ArgMatches<'_>) -> Option<RemoteTask>
    ensures { result ≡ push_of (rows_of (found_of words.now)) }
{
    Some(RemoteTask::Push {
        port: port_of(words)?,
        timeout: number_of(words, "timeout")?,
        atomic: is_on(words, "atomic"),
    })
}

/// The option among the matches that is to name a folder and names none: an empty name is no folder's.
pub fn option_without_folder<'a>(matches: &ArgMatches<'a>) -> Option<&'static str>
    ensures { option_map (λ option. option.now) result ≡ option_without_folder (subcommand_rows_of matches.now) }
{
    let (name, words) = matches.subcommand()?;
    if is_empty_value(words, "store") {
        return Some("--store");
    }
    if has_work(name) && is_empty_value(words, "work") {
        return Some("--work");
    }
    None
}

// Whether an argument has a value, and an empty one.
fn is_empty_value(words: &ArgMatches<'_>, id: &str) -> bool
    ensures { result ≡ is_empty_value (first_of id.now (rows_of (found_of words.now))) }
{
    match words.get_str(id) {
        Some(value) => value.is_empty(),
        None => false,
    }
}

// Whether a subcommand has a work tree.
fn has_work(name: &str) -> bool
    ensures { result ≡ has_work name.now }
{
    name == "add" || name == "checkout" || name == "status"
}

// The subcommand of a clone that the name and its words ask for, if it is one.
fn local_task_of<'a>(name: &str, words: &ArgMatches<'a>) -> Option<LocalTask<'a>>
    ensures { option_map local_task_view result ≡ local_task_of name.now (rows_of (found_of words.now)) }
{
    match name {
        "add" => Some(LocalTask::Add {
            mode: mode_named(said(words, "mode"))?,
            work: said(words, "work"),
        }),
        "unstage" => Some(LocalTask::Unstage {
            path: said(words, "path"),
        }),
        "write-tree" => Some(LocalTask::WriteTree),
        "commit" => Some(LocalTask::Commit(Words {
            author: said(words, "author").as_bytes(),
            committer: said(words, "committer").as_bytes(),
            message: said(words, "message").as_bytes(),
        })),
        "branch" => Some(LocalTask::Branch {
            name: said(words, "name"),
            revision: said(words, "rev"),
        }),
        "branch-delete" => Some(LocalTask::BranchDelete {
            name: said(words, "name"),
        }),
        "pack-refs" => Some(LocalTask::PackRefs),
        "checkout" => Some(LocalTask::Checkout {
            work: said(words, "work"),
            revision: said(words, "rev"),
        }),
        "status" => Some(LocalTask::Status {
            work: said(words, "work"),
        }),
        _ => None,
    }
}

// The value of an argument that has to be there, or has a default: without one there are no matches.
fn said<'a>(words: &ArgMatches<'a>, id: &str) -> &'a str
    ensures { result.now ≡ text_of id.now (rows_of (found_of words.now)) }
{
    words.get_str(id).unwrap_or("")
}

// Whether the words name an argument, as its default doesn't.
fn is_said(words: &ArgMatches<'_>, id: &str) -> bool
    ensures { result ≡ is_said id.now (rows_of (found_of words.now)) }
{
    match words.value_source(id) {
        Some(ValueSource::CommandLine) => true,
        Some(ValueSource::DefaultValue) => false,
        None => false,
    }
}

// Whether a switch is on.
fn is_on(words: &ArgMatches<'_>, id: &str) -> bool
    ensures { result ≡ is_on id.now (rows_of (found_of words.now)) }
{
    words.get_one::<bool>(id).unwrap_or(false)
}

fn port_of(words: &ArgMatches<'_>) -> Option<u16>
    ensures { result ≡ number_of 16 (codes "port") (rows_of (found_of words.now)) }
{
    words.get_one::<u16>("port")
}

fn number_of(words: &ArgMatches<'_>, id: &str) -> Option<u32>
    ensures { result ≡ number_of 32 id.now (rows_of (found_of words.now)) }
{
    words.get_one::<u32>(id)
}

fn limit_of(words: &ArgMatches<'_>) -> Option<u64>
    ensures { result ≡ number_of 64 (codes "limit") (rows_of (found_of words.now)) }
{
    words.get_one::<u64>("limit")
}

fn part_named(word: &str) -> Option<Part>
    ensures { result ≡ part_named word.now }
{
    match word {
        "type" => Some(Part::Kind),
        "size" => Some(Part::Size),
        "body" => Some(Part::Body),
        _ => None,
    }
}
