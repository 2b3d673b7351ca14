// Exclusive mode: a node that has a page alone uses it without twin, flush or notice, until another node breaks that.
#![tactic(auto)]

pub mod breaking;
pub mod enter;
pub mod law;
pub mod nle;
