// Locks, barriers and flags: trying, looking, unlocking, arriving and setting.
#![tactic(auto)]

pub mod arrive;
pub mod counter;
pub mod got;
pub mod lock;
pub mod look;
pub mod set;
pub mod unlock;
