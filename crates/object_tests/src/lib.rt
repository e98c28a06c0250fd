//! The tests of objects, faults and threads of all crates. There are tests alone here, so that no
//! other crate is proved twice.
#![tactic(auto)]

#[cfg(test)]
mod book;
#[cfg(test)]
mod calls;
#[cfg(test)]
mod devices;
#[cfg(test)]
mod flat_turns;
#[cfg(test)]
mod held_runs;
#[cfg(test)]
mod history;
#[cfg(test)]
mod lock;
#[cfg(test)]
mod made;
#[cfg(test)]
mod mailbox;
#[cfg(test)]
mod meeting;
#[cfg(test)]
mod names;
#[cfg(test)]
mod pool;
#[cfg(test)]
mod scarce_memory;
#[cfg(test)]
mod stages;
