//! Tests of the top call, and of those only what no row of `tests/rows` can say: reads and writes that fail, what a run
//! leaves in the machine, and no words at all.
#![tactic(auto)]

#[cfg(test)]
mod top;
#[cfg(test)]
mod traced;
