//! Why a command ended without its answer: the line that it prints, and its exit status.
ghost use Rattle.std.specs.Fmt.{WritesOnOk};
ghost use Rattle.std.specs.Prelude.{◌≡◌, ◌↔◌, IfOk, IfErr, IsTrue, OnOk};
ghost use Rattle.std.specs.Option.{option_map};
ghost use Rattle.vc_files.specs.declared.faults.Fault.TheVariants.{Memory};
ghost use Rattle.vc_cli.specs.Told.{AppendsFailure, shown_byte, shown_text, unread_text};
ghost use Rattle.vc_cli.specs.declared.failure.Failure.TheVariants.{Object, Store, History, Refs, Fault, Syntax, Revision, Node};
ghost use Rattle.vc_rev.specs.declared.refusal.RevFault.TheVariants.{Source};
ghost use Rattle.vc_local.specs.NodeFault.{of_index};
ghost use Rattle.vc_cli.specs.Failure.{revision_status, source_status, store_status, node_status, of_checkout};

use crate::faults::Faults;
use std::alloc::{AllocError, AllocFailed};
use std::fmt;
use std::io::{self, ErrorKind, Write};
use vc_checkout::CheckoutFault;
use vc_expression::ParseFault;
use vc_files::Fault;
use vc_history::HistoryFault;
use vc_index::IndexFault;
use vc_local::NodeFault;
use vc_message::{IncomingFault, NOTHING_AWAITED, WRITE_FAILED};
use vc_object::{ObjectFault, ObjectId};
use vc_object_map::StoreFault;
use vc_pack::AnswerFault;
use vc_pkt::{BAD_LENGTH, BAD_RECORD, PktFault};
use vc_refname::{NameFault, NewNameError};
use vc_refs::RefFault;
use vc_rev::{Refusal, RevFault, SourceFault};
use vc_script::ScriptFault;

/// What stands in the way of an answer. Its text is what a person reads behind `vcs: `.
#[derive(Drop)]
pub enum Failure {
    /// A text that is no revision or no set of revisions.
    Syntax(ParseFault),
    /// What refused a revision or a set of revisions.
    Revision(RevFault),
    /// What refused a call of a clone.
    Node(NodeFault),
    /// The file of the work tree with this path was changed and not staged, and the change would be lost.
    LocalChange(Vec<u8>),
    /// A file that the index lacks, or that lies where it has a commit of another repository, stands in the way of what is due
    /// at this path.
    InTheWay(Vec<u8>),
    /// The work tree can't hold what is due at this path.
    BadPath(Vec<u8>),
    /// This path is not UTF-8, so no file can have it.
    NotText(Vec<u8>),
    /// There is no such file, or it can't be read.
    NoSuchPath,
    /// A body that is refused before any store is asked.
    Object(ObjectFault),
    /// What the store refused.
    Store(StoreFault),
    /// What a walk over commits refused.
    History(HistoryFault),
    /// A text that is no ref name.
    Name(NameFault),
    /// What the refs refused.
    Refs(RefFault),
    /// A served store refused a message, with this text: any bytes, as it sent them.
    Refused(Vec<u8>),
    /// 115: no answer of a served store came, since the connection ended or failed.
    ReadFailed,
    /// 116: a message to a served store didn't go out, or there is no connection.
    WriteFailed,
    /// 80 to 84, or 3: what a served store sent is no message.
    Unread(PktFault),
    /// 91: a message of this kind isn't awaited.
    Unexpected,
    /// 92: with the pack that a served store sent, not all is there that this wanted id reaches.
    Incomplete(ObjectId),
    /// What was to be played is no script of a world.
    BadScript,
    /// 110: objects are in use that nothing names yet, so none may be taken away now. The text says where.
    Busy(String),
    /// The command line asks for what this program doesn't do.
    Usage(String),
    /// Want of memory, or a device that failed.
    Fault(Fault),
}

// A byte that a terminal shows as a letter, digit or mark; any other as a question mark.
fn shown(byte: u8) -> char
    ensures { result ≡ shown_byte byte }
{
    if byte < 32 || byte > 126 {
        '?'
    } else {
        char::from(byte)
    }
}

// Writes what another program sent, so that it does nothing to a terminal.
fn write_shown<W: fmt::Write>(text: &[u8], f: &mut fmt::Formatter<W>) -> fmt::Result
    ensures { WritesOnOk W.write_str_gives f.old result (shown_text text.now) f.new }
{
    'bytes: for byte in text {
        f.write_char(shown(*byte))?;
    }
    Ok(())
}

// Writes why bytes are no message, without the place.
fn write_unread<W: fmt::Write>(fault: &PktFault, f: &mut fmt::Formatter<W>) -> fmt::Result
    ensures { WritesOnOk W.write_str_gives f.old result (unread_text fault.now) f.new }
{
    match fault {
        PktFault::BadLength(_) => f.write_str(BAD_LENGTH),
        PktFault::BadRecord(_) => f.write_str(BAD_RECORD),
        PktFault::SizeMismatch | PktFault::CutMessage => fmt::Display::fmt(fault, f),
        PktFault::TooMany | PktFault::TooLarge => fmt::Display::fmt(fault, f),
    }
}

impl fmt::Display for Failure {
    ghost use Rattle.std.specs.Prelude.{Some};
    ghost use Rattle.vc_cli.specs.Told.{failure_text};

    ghost output = { λ failure. Some (failure_text failure) };

    fn fmt<W: fmt::Write>(&self, f: &mut fmt::Formatter<W>) -> fmt::Result {
        match self {
            Failure::Syntax(fault) => fmt::Display::fmt(fault, f),
            Failure::Revision(fault) => fmt::Display::fmt(fault, f),
            Failure::Node(fault) => fmt::Display::fmt(fault, f),
            Failure::LocalChange(_) => f.write_str("70 LocalChange"),
            Failure::InTheWay(_) => f.write_str("71 InTheWay"),
            Failure::BadPath(_) => fmt::Display::fmt(&NodeFault::BadPath, f),
            Failure::NotText(_) => f.write_str("72 NotText"),
            Failure::NoSuchPath => fmt::Display::fmt(&Refusal::NoSuchPath, f),
            Failure::Object(fault) => fmt::Display::fmt(fault, f),
            Failure::Store(fault) => fmt::Display::fmt(fault, f),
            Failure::History(fault) => fmt::Display::fmt(fault, f),
            Failure::Name(fault) => fmt::Display::fmt(fault, f),
            Failure::Refs(fault) => fmt::Display::fmt(fault, f),
            Failure::Refused(text) => write_shown(text, f),
            Failure::ReadFailed => fmt::Display::fmt(&IncomingFault::Failed, f),
            Failure::WriteFailed => f.write_str(WRITE_FAILED),
            Failure::Unread(fault) => write_unread(fault, f),
            Failure::Unexpected => f.write_str(NOTHING_AWAITED),
            Failure::Incomplete(id) => fmt::Display::fmt(&AnswerFault::Incomplete(*id), f),
            Failure::BadScript => fmt::Display::fmt(&ScriptFault::BadScript, f),
            Failure::Busy(text) => f.write_str(text.as_str()),
            Failure::Usage(text) => f.write_str(text.as_str()),
            Failure::Fault(fault) => fmt::Display::fmt(fault, f),
        }
    }
}

impl Failure {
    ghost use Rattle.std.specs.Io.KnownBytes.{Appends};
    ghost use Rattle.vc_cli.specs.Told.{failure_line, failure_text};
    ghost use Rattle.vc_cli.specs.Failure.{IsFault, status_of};

    /// The exit status: 1 for a refusal, 2 for a command line that is off, 3 for a fault.
    pub fn status(&self) -> u8
        ensures { result ≡ status_of self.now }
    {
        match self {
            Failure::NoSuchPath | Failure::Object(_) | Failure::Name(_) | Failure::BadScript => 1,
            Failure::LocalChange(_) | Failure::InTheWay(_) => 1,
            Failure::BadPath(_) | Failure::NotText(_) => 1,
            Failure::Refused(_) | Failure::ReadFailed | Failure::WriteFailed => 1,
            Failure::Unread(_) | Failure::Unexpected | Failure::Incomplete(_) => 1,
            Failure::Busy(_) => 1,
            Failure::Node(fault) => node_status(fault),
            Failure::Syntax(ParseFault::Memory)
            | Failure::Store(StoreFault::Fault(_))
            | Failure::History(HistoryFault::Store(StoreFault::Fault(_)))
            | Failure::Refs(RefFault::Fault(_))
            | Failure::Fault(_) => 3,
            Failure::Syntax(_) => 1,
            Failure::Revision(fault) => revision_status(fault),
            Failure::Store(_) | Failure::History(_) | Failure::Refs(_) => 1,
            Failure::Usage(_) => 2,
        }
    }

    /// Whether this is a fault of memory or of a device, and no refusal.
    pub fn is_fault(&self) -> bool
        ensures { IsTrue result ↔ (status_of self.now ≡ 3) }
    {
        self.status() == 3
    }

    /// Prints the line of this failure, on a terminal another one behind it that is to tell what is at fault, and gives the
    /// status. Where that can't be printed, that is a fault of its own.
    pub fn report<W: Write>(
        &self,
        behind: Option<&[u8]>,
        faults: &mut Faults<W>,
    ) -> Result<u8, Failure>
        ensures status { IfOk result (λ status. status ≡ status_of self.now) }
        ensures told { OnOk result (AppendsFailure W.contents faults.old faults.new (option_map (λ line. line.now) behind.entry) (failure_text self.now)) }
        ensures fault { IfErr result IsFault }
    {
        self.print(&mut faults.stream)?;
        if let Some(line) = behind {
            faults.tell_line(line)?;
        }
        Ok(self.status())
    }

    // Prints the line of this failure.
    fn print<W: Write>(&self, stream: &mut W) -> Result<(), Failure>
        ensures line { OnOk result (Appends (W.contents stream.old) (W.contents stream.new) (failure_line (failure_text self.now))) }
        ensures fault { IfErr result IsFault }
    {
        writeln!(stream, "vcs: {self}")?;
        Ok(())
    }
}

// The exit status where a revision or a set of revisions has no value.
fn revision_status(fault: &RevFault) -> u8
    ensures { result ≡ revision_status fault.now }
{
    match fault {
        RevFault::Refused(_) => 1,
        RevFault::Missing(_) => 1,
        RevFault::NotACommit(_) => 1,
        RevFault::Source(source) => source_status(source),
    }
}

// The exit status where a repository gives no answer.
fn source_status(fault: &SourceFault) -> u8
    ensures { result ≡ source_status fault.now }
{
    match fault {
        SourceFault::Store(fault) => store_status(fault),
        SourceFault::BadRefFile(_) => 1,
        SourceFault::HeadLoop => 1,
        SourceFault::BadIndex(_) => 1,
    }
}

// The exit status where a node refuses a call, or ends it with a fault.
fn node_status(fault: &NodeFault) -> u8
    ensures { result ≡ node_status fault.now }
{
    if fault.is_fault() { 3 } else { 1 }
}

// The exit status where a store gives no answer.
fn store_status(fault: &StoreFault) -> u8
    ensures { result ≡ store_status fault.now }
{
    match fault {
        StoreFault::BadObject(_) => 1,
        StoreFault::Absent(_) => 1,
        StoreFault::Damaged(_) => 1,
        StoreFault::Fault(_) => 3,
    }
}

/// The fault behind an error of the system.
pub fn fault_of(error: &io::Error) -> Fault {
    match error.kind() {
        ErrorKind::OutOfMemory => Fault::Memory,
        _ => Fault::Device,
    }
}

impl From<io::Error> for Failure {
    ghost use Rattle.vc_cli.specs.Failure.{IsFault};

    ghost from_gives = { λ _ e. IsFault e };

    fn from(error: io::Error) -> Failure {
        Failure::Fault(fault_of(&error))
    }
}

impl From<AllocError> for Failure {
    ghost from_gives = { λ _ e. e ≡ Fault Memory };

    fn from(_: AllocError) -> Failure {
        Failure::Fault(Fault::Memory)
    }
}

impl<T: Drop> From<AllocFailed<T>> for Failure {
    ghost from_gives = { λ _ e. e ≡ Fault Memory };

    fn from(_: AllocFailed<T>) -> Failure {
        Failure::Fault(Fault::Memory)
    }
}

impl From<Fault> for Failure {
    ghost from_gives = { λ fault e. e ≡ Fault fault };

    fn from(fault: Fault) -> Failure {
        Failure::Fault(fault)
    }
}

impl From<ObjectFault> for Failure {
    ghost from_gives = { λ fault e. e ≡ Object fault };

    fn from(fault: ObjectFault) -> Failure {
        Failure::Object(fault)
    }
}

impl From<StoreFault> for Failure {
    ghost from_gives = { λ fault e. e ≡ Store fault };

    fn from(fault: StoreFault) -> Failure {
        Failure::Store(fault)
    }
}

impl From<NodeFault> for Failure {
    ghost from_gives = { λ fault e. e ≡ Node fault };

    fn from(fault: NodeFault) -> Failure {
        Failure::Node(fault)
    }
}

impl From<IndexFault> for Failure {
    ghost from_gives = { λ fault e. e ≡ Node (of_index fault) };

    fn from(fault: IndexFault) -> Failure {
        Failure::Node(NodeFault::from(fault))
    }
}

impl From<CheckoutFault> for Failure {
    ghost from_gives = { λ fault e. e ≡ of_checkout fault };

    fn from(fault: CheckoutFault) -> Failure {
        match fault {
            CheckoutFault::LocalChange(path) => Failure::LocalChange(path),
            CheckoutFault::InTheWay(path) => Failure::InTheWay(path),
            CheckoutFault::BadPath(path) => Failure::BadPath(path),
            CheckoutFault::NotText(path) => Failure::NotText(path),
            CheckoutFault::Index(fault) => Failure::from(fault),
        }
    }
}

impl From<ParseFault> for Failure {
    ghost from_gives = { λ fault e. e ≡ Syntax fault };

    fn from(fault: ParseFault) -> Failure {
        Failure::Syntax(fault)
    }
}

impl From<RevFault> for Failure {
    ghost from_gives = { λ fault e. e ≡ Revision fault };

    fn from(fault: RevFault) -> Failure {
        Failure::Revision(fault)
    }
}

impl From<SourceFault> for Failure {
    ghost from_gives = { λ fault e. e ≡ Revision (Source fault) };

    fn from(fault: SourceFault) -> Failure {
        Failure::Revision(RevFault::Source(fault))
    }
}

impl From<HistoryFault> for Failure {
    ghost from_gives = { λ fault e. e ≡ History fault };

    fn from(fault: HistoryFault) -> Failure {
        Failure::History(fault)
    }
}

impl From<RefFault> for Failure {
    ghost from_gives = { λ fault e. e ≡ Refs fault };

    fn from(fault: RefFault) -> Failure {
        Failure::Refs(fault)
    }
}

impl From<NewNameError> for Failure {
    fn from(error: NewNameError) -> Failure {
        match error {
            NewNameError::Refused(fault) => Failure::Name(fault),
            NewNameError::Memory => Failure::Fault(Fault::Memory),
        }
    }
}
