//! The messages of a fetch: what each says, how it is spelled in lines, and how it is written.
#![tactic(auto)]

mod advert;
mod error;
mod ids;
mod laws;
mod list;
mod pack;
mod want;

pub use advert::{Advert, AdvertReader, before_nul, is_name};
pub use error::{Error, ErrorReader};
pub use ids::{id_line, id_of};
pub use laws::{
    written_advert_is_read, written_error_is_read, written_list_is_read, written_pack_is_read,
    written_want_is_read,
};
pub use list::{List, ListReader};
pub use pack::{Pack, PackReader, is_object};
pub use want::{MAX_IDS, Want, WantReader};
