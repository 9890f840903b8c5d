//! What a clone makes of what comes from the shared node: functions over the files of a clone.
#![tactic(auto)]

mod quarantined;
mod receiving;
mod wanting;

pub use quarantined::receive_quarantined;
pub use receiving::{
    Advertised, Asked, Moves, Reported, receive_advert, receive_pack, receive_report,
    what_a_report_accepts_is_the_machines,
};
