//! The numbers by which C names things. `capi/ffi3.h` says them again.

/// `FFI3_OK`: what was asked for is there.
pub const DONE: u32 = 0;
/// `FFI3_TOO_SMALL`: the array has no room; the counts tell how much is wanted.
pub const TOO_SMALL: u32 = 1;
/// `FFI3_NOT_DECLARED`: the text or the nodes declare no function that can be called; the fault tells why.
pub const NOT_DECLARED: u32 = 2;
/// `FFI3_UNKNOWN_TARGET`: no calling standard has this number.
pub const UNKNOWN_TARGET: u32 = 3;
/// `FFI3_UNKNOWN_VALUE`: the function has no argument of this number, or there is no such list of moves.
pub const UNKNOWN_VALUE: u32 = 4;
/// `FFI3_OUT_OF_MEMORY`: an allocation was refused.
pub const OUT_OF_MEMORY: u32 = 5;
/// `FFI3_SHORT_STACK`: what a call has on the stack reaches past the bytes of stack.
pub const SHORT_STACK: u32 = 6;
/// `FFI3_NOT_IN_STACK`: the address of an argument, or of a result's buffer, points past the bytes of stack.
pub const NOT_IN_STACK: u32 = 7;
/// `FFI3_WRONG_SIZE`: the values, or the result, take more or fewer bytes than there are.
pub const WRONG_SIZE: u32 = 8;
/// `FFI3_HIGH_STACK`: the bytes of stack reach the last address.
pub const HIGH_STACK: u32 = 9;
/// `FFI3_NOT_PREPARED`: no interface is kept.
pub const NOT_PREPARED: u32 = 10;
/// `FFI3_NO_ADDRESS`: the result is in a buffer whose address the standard does not give back.
pub const NO_ADDRESS: u32 = 11;

/// `FFI3_RESULT`: the result, in place of an argument's number.
pub const RESULT_PART: u32 = 0xFFFF_FFFF;
/// `FFI3_HIDDEN`: the address of the result's buffer, which is passed beside the arguments (sret).
pub const HIDDEN_PART: u32 = 0xFFFF_FFFE;

/// `FFI3_NOT_VARIADIC`: the function is not variadic, in place of how many arguments are fixed.
pub const NOT_VARIADIC: u32 = 0xFFFF_FFFF;

/// `FFI3_BYTES`: bytes of the value.
pub const HOLDS_BYTES: u32 = 0;
/// `FFI3_ADDRESS`: the address of the value, which stands in the caller's frame.
pub const HOLDS_ADDRESS: u32 = 1;

/// `FFI3_GENERAL`: a general register.
pub const IN_GENERAL: u32 = 0;
/// `FFI3_FLOATING`: a floating or vector register.
pub const IN_FLOATING: u32 = 1;
/// `FFI3_STACK`: the stack, by the offset from the first stack argument.
pub const ON_STACK: u32 = 2;
/// `FFI3_X87`: an x87 register, of ten bytes.
pub const IN_X87: u32 = 3;

/// `FFI3_REST_FREE`: anything.
pub const REST_FREE: u32 = 0;
/// `FFI3_REST_EXTENDED`: the integer, extended to 64 bits as its type says.
pub const REST_EXTENDED: u32 = 1;
/// `FFI3_REST_EXTENDED_BY_32`: the integer, extended to 32 bits as its type says, then sign-extended to 64.
pub const REST_EXTENDED_BY_32: u32 = 2;
/// `FFI3_REST_ONES`: all ones.
pub const REST_ONES: u32 = 3;
/// `FFI3_REST_NONE`: there is none, and what stands behind on the stack is another argument's.
pub const REST_NONE: u32 = 4;

/// `FFI3_LEAF_X87`: the kind of a scalar that is a long double in x87's extended format.
pub const LEAF_X87: u32 = 21;
/// `FFI3_LEAF_BINARY128`: the same in IEEE 754's binary128.
pub const LEAF_BINARY128: u32 = 22;

/// The addresses of an argument's copy and of a result's buffer have so many bytes.
pub const ADDRESS_BYTES: u32 = 8;
