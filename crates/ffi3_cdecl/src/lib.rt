//! Reads a C declaration of a function, and writes one.
#![tactic(auto)]

mod attribute;
mod bytes;
mod decl;
mod declaration;
mod declarator;
mod fault;
mod followed;
mod integers;
mod members;
mod place;
pub mod read;
mod round;
mod said;
mod settled;
pub mod state;
mod step;
mod text;
pub mod token;
mod words;

/// Whether a byte is a blank between tokens.
pub use bytes::is_blank;
pub use decl::{read_decl, read_decl_everywhere, read_decl_for, read_wide_decl};
pub use declaration::Declaration;
pub use fault::DeclFault;
/// A want of memory: the one answer that no clause ties to a cause.
pub use ffi3_types::NoMemory;
pub use said::Kind;
pub use text::{decl_text, prototype_text};
pub use token::Sign;
