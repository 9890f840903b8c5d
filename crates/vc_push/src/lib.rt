//! The messages of a push: what each says, how it is spelled in lines, and how it is written; and the reasons for which a
//! command is refused.
//!
//! The lines are those of Git (gitprotocol-pack: "Reference Update Request and Packfile Transfer" and "Report Status"); the
//! objects come as an object stream of vc_pkt and not as a packfile. Where this project differs, the comment begins with
//! `own:`.
#![tactic(auto)]

mod command;
mod laws;
mod push;
mod reason;
mod report;
mod report_reader;

pub use command::{Command, MAX_COMMANDS, PushHead};
pub use laws::{one_reason, written_push_is_read, written_report_is_read};
pub use push::{Push, PushReader, PushStream};
pub use reason::Reason;
pub use report::{Report, Told};
pub use report_reader::{Pending, ReportReader, Telling};
