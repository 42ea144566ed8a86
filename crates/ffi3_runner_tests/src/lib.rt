//! Runs of scripts by the runner on each target: what they print, how they end, how many moves are left, and what
//! stands in the journal and at the mark; runs with natives that nest to the stack's end, free themselves, make closures
//! without end or print without end: whatever a native does within its contract, the run keeps its own; and calls from
//! outside that a run serves after its main, with a byte over all that a callee must not look at.
#![tactic(auto)]

#[cfg(test)]
mod again;
#[cfg(test)]
mod drop_self;
#[cfg(test)]
mod endless;
#[cfg(test)]
mod hostile;
#[cfg(test)]
mod natives;
#[cfg(test)]
mod running;
#[cfg(test)]
mod scripts;
#[cfg(test)]
mod served;
#[cfg(test)]
mod serving;
#[cfg(test)]
mod showing;
#[cfg(test)]
mod turns;
