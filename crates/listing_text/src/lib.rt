// The text of the listing (dump.rs, `space_check_container`), put piece after piece on a page, which is a lent buffer.
#![tactic(auto)]

mod formats;
mod lines;
pub mod listing;
mod names;
mod numerals;
mod page;
