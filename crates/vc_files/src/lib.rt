//! Files: a finite map from paths to bytes.
#![tactic(auto)]

mod device;
mod fail_once;
mod faults;
mod fused;
mod memory;
mod path;

pub use device::Files;
pub use fail_once::FailOnce;
pub use faults::Fault;
pub use fused::{Fuse, FusedFiles};
pub use memory::MemoryFiles;
pub use path::is_above;
