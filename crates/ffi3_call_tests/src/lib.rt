//! Tests of values of public calls that only the language reaches: instructions, classes of types, stubs, regions, slots
//! and ends by themselves, and calls on the machine by all five standards, with no program among them.
#![tactic(auto)]

#[cfg(test)]
mod adapters;
#[cfg(test)]
mod arguments;
#[cfg(test)]
mod calls;
#[cfg(test)]
mod classes;
#[cfg(test)]
mod encodings;
#[cfg(test)]
mod homogeneous;
#[cfg(test)]
mod regions;
#[cfg(test)]
mod runs;
#[cfg(test)]
mod shapes;
#[cfg(test)]
mod slots;
#[cfg(test)]
mod stub_bytes;
#[cfg(test)]
mod stubs;
#[cfg(test)]
mod table;
#[cfg(test)]
mod win64;
