//! Refs over one packed file and the loose files over it. A name stands for what its own file spells, if that file
//! is there, and else for what the line of `packed-refs` says.

mod checking_all;
mod getting;
mod head_value;
mod listing;
mod obstacle;
mod packed_file;
mod packing;
mod removing;
mod setting;
mod setting_all;

pub use getting::{get, get_over, get_with};
pub use head_value::{resolve_head, resolve_head_with};
pub use listing::{list, read_all};
pub use obstacle::{packed_in_the_way, refuse_conflict};
pub use packed_file::{PackedCache, read_packed};
pub use packing::pack;
pub use removing::remove;
pub use setting::{set, set_over};
pub use setting_all::set_all;
