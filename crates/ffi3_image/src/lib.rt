//! From bytes to the image that they describe, or to the first fault; and what is answered to a question about it.
#![tactic(auto)]

mod answers;
mod fault;
mod lines;
mod object;
mod parts;
mod room;

pub use answers::{Answer, answer_question};
pub use fault::{ImageFault, ImageReason};
pub use ffi3_image_spec::Question;
pub use lines::{argument_line, broken_line, fault_line, hidden_line, outside_line, path_text};
pub use object::{Snapshot, read_snapshot};
pub use room::{buffer_address, room_for_arguments, room_for_explain};
