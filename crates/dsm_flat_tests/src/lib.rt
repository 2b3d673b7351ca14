// Tests of the judge and of the search for races. They stand here because the gate proves a crate with tests twice.
#![tactic(auto)]

#[cfg(test)]
mod judging;
#[cfg(test)]
mod racing;
