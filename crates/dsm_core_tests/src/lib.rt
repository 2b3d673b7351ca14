// Tests of the crates from the machine to the report. They stand here because the gate proves a crate with tests twice.
#![tactic(auto)]

#[cfg(test)]
mod adding;
#[cfg(test)]
mod machines;
#[cfg(test)]
mod pages_after;
#[cfg(test)]
mod reports;
#[cfg(test)]
mod room;
#[cfg(test)]
mod schedules;
#[cfg(test)]
mod states;
