// The directory: which nodes use a page and how, and where its home is.
#![tactic(auto)]

pub mod claim;
pub mod holder;
pub mod home;
pub mod law;
pub mod leave;
pub mod my_dir;
pub mod register;
pub mod row;
pub mod sharers;
pub mod withdraw;
