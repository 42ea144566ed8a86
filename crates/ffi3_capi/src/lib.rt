//! Answers to C about a function that it declares, as C text or as nodes: where arguments and result stand in a call, how
//! types are laid out, and which arguments registers and stack hold where the function begins.
#![tactic(auto)]

mod bytes;
mod checking;
pub mod codes;
pub mod declaration;
mod each;
mod entry;
mod fault;
pub mod fill;
mod laws;
mod layouts;
mod lines;
mod natural;
mod nodes;
mod pieces;
mod placing;
mod reading;
mod registers;
mod returned;
mod status;
mod text;
mod whole;

pub use checking::{CheckedText, check_text};
pub use declaration::Declaration;
pub use each::{EachArgument, EachArguments, Seen, see, tell_each};
pub use entry::{EntryArguments, Found, Unread, arguments, find_arguments};
pub use fault::{FaultKind, TextFault, fault_with};
pub use ffi3_nodes::Node;
pub use ffi3_transfer::Registers;
pub use laws::{no_long_double_laws, piece_laws};
pub use layouts::{Laid, LaidLeaf, LaidType, find_layout, layout, layout_for};
pub use lines::fault_lines;
pub use natural::{check_layout, check_layout_for};
pub use pieces::{PlacedPiece, PlacedPieces};
pub use placing::{PlacedCall, Placement, find_placement, place, target_numbered};
pub use registers::register_name;
pub use returned::{FoundResult, ReturnedResult, Unfound, find_result, tell_result};
pub use status::Refusal;
pub use text::fault_text;
pub use whole::{WholeType, layout_nodes, layout_nodes_for, offsets_for, offsets_nodes};
