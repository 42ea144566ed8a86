//! The limits of the library and the addresses of its modelled machine, each in this one place.

/// The most arguments of a signature.
pub const MOST_ARGUMENTS: u64 = 64;
/// The size of the largest struct or array in bytes.
pub const LARGEST_TYPE: u64 = 4_096;
/// The greatest gap before something that begins at a multiple of its alignment: there is room for alignments up
/// to 16.
pub const LARGEST_GAP: u64 = 15;
/// The most bytes of stack that one argument or copy takes, with the gap before it and the rest of its last
/// doubleword: `LARGEST_GAP + LARGEST_TYPE + 7`.
pub const ARGUMENT_SPAN: u64 = 4_118;
/// The most bytes of stack that a call's arguments take: `MOST_ARGUMENTS` times `ARGUMENT_SPAN`.
pub const ARGUMENT_BYTES: u64 = 263_552;
/// How deep structs and arrays stand in one another at most.
pub const DEEPEST_NESTING: u64 = 16;
/// The bytes of the longest script.
pub const LONGEST_SCRIPT: u64 = 1_048_576;
/// The most moves of a run.
pub const MOST_MOVES: u64 = 10_000;
/// The most calls of a made script, which `bench` runs.
pub const MOST_CALLS: u64 = 1_000;

/// The most closures that are live together, each in a slot of its own.
pub const SLOTS: u64 = 256;
/// The bytes of a closure's slot.
pub const SLOT_BYTES: u64 = 64;

/// The bytes of the stack.
pub const STACK_BYTES: u64 = 1_048_576;
/// The lowest address of the stack.
pub const STACK: u64 = 0x7FEF_0000;
/// The address above the stack's highest byte.
pub const STACK_TOP: u64 = 0x7FFF_0000;
/// The bytes of the code region, which has the slots.
pub const CODE_BYTES: u64 = 16_384;
/// The lowest address of the code region.
pub const CODE: u64 = 0x1_0000;
/// The address above the code region's highest byte.
pub const CODE_END: u64 = 0x1_4000;
/// The address to which every trampoline jumps.
pub const ENTRY: u64 = 0x1000;
/// The return address of every call.
pub const RETURN: u64 = 0x2000;
