//! What one run is to do: a subcommand and its words.

ghost use Rattle.std.specs.Prelude.{◌≡◌, ◌≢◌};
ghost use Rattle.vc_arguments.specs.Modes.{mode_of};
ghost use Rattle.vc_arguments.specs.Writers.{is_writer, is_local_writer, needs_store};

use vc_object::{Kind, Mode};

/// What one run is to do, and on which store.
#[derive(Clone, Copy)]
pub struct Request<'a> {
    /// The folder of the store, if the subcommand has one.
    pub store: &'a str,
    /// Whether the command line names that folder.
    pub is_named: bool,
    pub task: Task<'a>,
}

/// A subcommand and its words.
#[derive(Clone, Copy)]
pub enum Task<'a> {
    Init,
    HashObject {
        kind: Kind,
        /// Whether the object is stored, too.
        write: bool,
        /// The file with the body; none: standard input.
        file: Option<&'a str>,
    },
    CatFile {
        part: Part,
        revision: &'a str,
    },
    ShowRef,
    MergeBase {
        first: &'a str,
        second: &'a str,
    },
    RevParse {
        revision: &'a str,
    },
    /// Its terms are told by [`terms_of`].
    RevList,
    Prune {
        /// Whether it only tells what would go.
        dry_run: bool,
    },
    Local(LocalTask<'a>),
    Remote(RemoteTask),
    World {
        /// The file with the script.
        file: &'a str,
    },
}

/// A subcommand that speaks to another process, by a port of this machine.
#[derive(Clone, Copy)]
pub enum RemoteTask {
    Serve(Serving),
    Fetch {
        port: u16,
        /// After how many seconds a server that sends or takes nothing is given up; 0: never.
        timeout: u32,
    },
    /// Its items are told by [`list_of`].
    Push {
        port: u16,
        /// The same.
        timeout: u32,
        /// Whether all refs are to be set, or none.
        atomic: bool,
    },
}

/// How a store is served.
#[derive(Clone, Copy)]
pub struct Serving {
    pub port: u16,
    /// How many connections are served; none: as many as come, until the process is ended.
    pub count: Option<u32>,
    /// Whether so many connections are taken first, and served at once.
    pub together: bool,
    /// How many connections are served at once; none: one after the other.
    pub workers: Option<u32>,
    /// After how many seconds a client that sends or takes nothing is given up; 0: never.
    pub timeout: u32,
    /// How many MiB a message has at most.
    pub limit: u64,
    /// Whether the end of each connection is a line on standard error.
    pub log: bool,
}

/// A subcommand of a clone: of its index, branches, HEAD and work tree.
#[derive(Clone, Copy)]
pub enum LocalTask<'a> {
    /// Its paths are told by [`list_of`].
    Add { mode: FileMode, work: &'a str },
    Unstage { path: &'a str },
    WriteTree,
    /// Its extra parents are told by [`list_of`].
    Commit(Words<'a>),
    Branch { name: &'a str, revision: &'a str },
    BranchDelete { name: &'a str },
    PackRefs,
    Checkout { work: &'a str, revision: &'a str },
    Status { work: &'a str },
}

impl Task<'_> {
    /// Whether it writes to its store.
    pub fn is_writer(&self) -> bool
        ensures { result ≡ is_writer self.now }
    {
        match self {
            Task::Init => true,
            Task::HashObject { write, .. } => *write,
            Task::CatFile { .. } => false,
            Task::ShowRef => false,
            Task::MergeBase { .. } => false,
            Task::RevParse { .. } => false,
            Task::RevList => false,
            Task::Prune { dry_run } => !*dry_run,
            Task::Local(task) => task.is_writer(),
            Task::Remote(_) => true,
            Task::World { .. } => false,
        }
    }

    /// Whether it works on a store that should be there, or that it begins without being told to.
    pub fn needs_store(&self) -> bool
        ensures { result ≡ needs_store self.now }
    {
        match self {
            Task::Init => false,
            Task::HashObject { write, .. } => *write,
            Task::CatFile { .. } => true,
            Task::ShowRef => true,
            Task::MergeBase { .. } => true,
            Task::RevParse { .. } => true,
            Task::RevList => true,
            Task::Prune { .. } => true,
            Task::Local(_) => true,
            Task::Remote(_) => true,
            Task::World { .. } => false,
        }
    }
}

impl LocalTask<'_> {
    // Whether it writes to its store.
    fn is_writer(&self) -> bool
        ensures { result ≡ is_local_writer self.now }
    {
        match self {
            LocalTask::Add { .. } => true,
            LocalTask::Unstage { .. } => true,
            LocalTask::WriteTree => true,
            LocalTask::Commit(_) => true,
            LocalTask::Branch { .. } => true,
            LocalTask::BranchDelete { .. } => true,
            LocalTask::PackRefs => true,
            LocalTask::Checkout { .. } => true,
            LocalTask::Status { .. } => false,
        }
    }
}

/// How a file of the work tree stands in the index.
#[derive(Clone, Copy)]
pub enum FileMode {
    Plain,
    Executable,
    Link,
}

impl FileMode {
    /// The mode of an entry.
    pub fn mode(self) -> Mode
        ensures value { result ≡ mode_of self }
        ensures file { result ≢ Mode.Tree }
    {
        match self {
            FileMode::Plain => Mode::File,
            FileMode::Executable => Mode::Executable,
            FileMode::Link => Mode::Link,
        }
    }
}

/// Which part of an object is shown.
#[derive(Clone, Copy)]
pub enum Part {
    Kind,
    Size,
    Body,
}

/// What a commit says beside its tree and its parents.
#[derive(Clone, Copy)]
pub struct Words<'a> {
    pub author: &'a [u8],
    pub committer: &'a [u8],
    pub message: &'a [u8],
}
