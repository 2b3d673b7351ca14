// Tests of the words and of the phases. They stand here because the gate proves a crate with tests twice.
#![tactic(auto)]

#[cfg(test)]
mod clock;
#[cfg(test)]
mod directory;
#[cfg(test)]
mod exclusive;
#[cfg(test)]
mod frames;
#[cfg(test)]
mod incoming;
#[cfg(test)]
mod making;
#[cfg(test)]
mod notice;
#[cfg(test)]
mod outgoing;
#[cfg(test)]
mod sync;
#[cfg(test)]
mod twin;
#[cfg(test)]
mod words;
