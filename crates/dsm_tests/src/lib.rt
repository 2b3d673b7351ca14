// Tests of the top call and of threads. They stand here because the gate proves a crate with tests twice.
#![tactic(auto)]

#[cfg(test)]
mod answers;
#[cfg(test)]
mod asking;
#[cfg(test)]
mod at_once;
#[cfg(test)]
mod clusters;
#[cfg(test)]
mod command_line;
#[cfg(test)]
mod counts;
#[cfg(test)]
mod cruel;
#[cfg(test)]
mod every_instruction;
#[cfg(test)]
mod generated;
#[cfg(test)]
mod held;
#[cfg(test)]
mod plans;
#[cfg(test)]
mod refusals;
#[cfg(test)]
mod sizes;
#[cfg(test)]
mod streams;
#[cfg(test)]
mod texts;
#[cfg(test)]
mod threads;
#[cfg(test)]
mod workers;
