//! Values by an interface that a handle keeps. No memory is taken.
ghost use Rattle.std.specs.Prelude.{◌≡◌};
ghost use Rattle.ffi3_transfer.specs.Stored.{image_in};
ghost use Rattle.ffi3_interface.specs.Transfers.{Collects, Gives, Loads, Stores, no_reason, uncollected_reason, uncollected_status, ungiven_reason, ungiven_status, unstored_status};

use ffi3_capi::codes::{
    DONE, HIDDEN_PART, HIGH_STACK, NOT_IN_STACK, NOT_PREPARED, SHORT_STACK, WRONG_SIZE,
};
use ffi3_handle::{Handle, Kept};
use ffi3_transfer::{Registers, Uncollected, Ungiven, Unstored};

/// What is told of a refusal beside its number: C's `struct ffi3_reason`.
#[repr(C)]
#[derive(Clone, Copy)]
pub struct Reason {
    /// How many bytes are wanted, if there are more or fewer.
    pub wanted: usize,
    /// The address that points past the stack's bytes, if that is why.
    pub address: u64,
    /// Of which argument it is, or `HIDDEN_PART` of a result's buffer.
    pub argument: u32,
    /// Nothing yet.
    pub reserved: u32,
}

fn no_reason() -> Reason
    ensures { result ≡ no_reason }
{
    Reason {
        wanted: 0,
        address: 0,
        argument: 0,
        reserved: 0,
    }
}

fn unstored_status(f: Unstored) -> u32
    ensures { result ≡ unstored_status f }
{
    match f {
        Unstored::WrongSize(_) => WRONG_SIZE,
        Unstored::ShortStack(_) => SHORT_STACK,
        Unstored::HighStack => HIGH_STACK,
    }
}

fn uncollected_status(f: Uncollected) -> u32
    ensures { result ≡ uncollected_status f }
{
    match f {
        Uncollected::WrongSize(_) => WRONG_SIZE,
        Uncollected::ShortStack(_) => SHORT_STACK,
        Uncollected::NotInStack(_, _) => NOT_IN_STACK,
    }
}

fn uncollected_reason(f: Uncollected) -> Reason
    ensures { result ≡ uncollected_reason f }
{
    match f {
        Uncollected::WrongSize(wanted) => Reason {
            wanted,
            ..no_reason()
        },
        Uncollected::ShortStack(wanted) => Reason {
            wanted,
            ..no_reason()
        },
        Uncollected::NotInStack(argument, address) => Reason {
            address,
            argument,
            ..no_reason()
        },
    }
}

fn ungiven_status(f: Ungiven) -> u32
    ensures { result ≡ ungiven_status f }
{
    match f {
        Ungiven::WrongSize(_) => WRONG_SIZE,
        Ungiven::ShortStack(_) => SHORT_STACK,
        Ungiven::HighStack => HIGH_STACK,
        Ungiven::NotInStack(_) => NOT_IN_STACK,
    }
}

fn ungiven_reason(f: Ungiven) -> Reason
    ensures { result ≡ ungiven_reason f }
{
    match f {
        Ungiven::WrongSize(wanted) => Reason {
            wanted,
            ..no_reason()
        },
        Ungiven::ShortStack(wanted) => Reason {
            wanted,
            ..no_reason()
        },
        Ungiven::HighStack => no_reason(),
        Ungiven::NotInStack(address) => Reason {
            address,
            argument: HIDDEN_PART,
            ..no_reason()
        },
    }
}

/// The caller's, before the call: its values to registers and stack, as `ffi3_prepared::store`.
pub fn store(it: &mut Handle, values: &[u8], registers: &mut Registers, stack: &mut [u8]) -> u32
    ensures same { it.new.kept ≡ it.old.kept }
    ensures stored { Stores it.old.kept values.now (image_in registers.old stack.old) result (image_in registers.new stack.new) }
{
    if !it.is_kept() {
        return NOT_PREPARED;
    }
    let kept: &Kept = it.value_mut();
    match ffi3_prepared::store(&kept.prepared, values, registers, stack) {
        Ok(()) => DONE,
        Err(fault) => unstored_status(fault),
    }
}

/// The caller's, after the call: the result out of registers or frame, as `ffi3_prepared::load`.
pub fn load(it: &mut Handle, registers: &Registers, stack: &[u8], out: &mut [u8]) -> u32
    ensures same { it.new.kept ≡ it.old.kept }
    ensures loaded { Loads it.old.kept (image_in registers.now stack.now) out.old result out.new }
{
    if !it.is_kept() {
        return NOT_PREPARED;
    }
    let kept: &Kept = it.value_mut();
    match ffi3_prepared::load(&kept.prepared, registers, stack, out) {
        Ok(()) => DONE,
        Err(fault) => unstored_status(fault),
    }
}

/// The callee's, at the entry: its arguments out of registers and stack, as `ffi3_prepared::collect`.
pub fn collect(
    it: &mut Handle,
    registers: &Registers,
    stack: &[u8],
    values: &mut [u8],
    reason: &mut Reason,
) -> u32
    ensures same { it.new.kept ≡ it.old.kept }
    ensures collected { Collects it.old.kept (image_in registers.now stack.now) values.old result reason.new values.new }
{
    *reason = no_reason();
    if !it.is_kept() {
        return NOT_PREPARED;
    }
    let kept: &Kept = it.value_mut();
    match ffi3_prepared::collect(&kept.prepared, registers, stack, values) {
        Ok(()) => DONE,
        Err(fault) => {
            *reason = uncollected_reason(fault);
            uncollected_status(fault)
        }
    }
}

/// The callee's, before its return: its result to registers or buffer, as `ffi3_prepared::give`.
pub fn give(
    it: &mut Handle,
    value: &[u8],
    registers: &mut Registers,
    stack: &mut [u8],
    reason: &mut Reason,
) -> u32
    ensures same { it.new.kept ≡ it.old.kept }
    ensures given { Gives it.old.kept value.now (image_in registers.old stack.old) result reason.new (image_in registers.new stack.new) }
{
    *reason = no_reason();
    if !it.is_kept() {
        return NOT_PREPARED;
    }
    let kept: &Kept = it.value_mut();
    match ffi3_prepared::give(&kept.prepared, value, registers, stack) {
        Ok(()) => DONE,
        Err(fault) => {
            *reason = ungiven_reason(fault);
            ungiven_status(fault)
        }
    }
}
