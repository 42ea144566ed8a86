//! Where the stubs and the exchange region stand, what stands where in that region, and the stubs that a machine is sent
//! to.

/// The lowest address of the stubs.
pub const STUBS: u64 = 0x1000;
/// The bytes of the region of the stubs.
pub const STUBS_BYTES: u64 = 6_144;
/// The address above the highest byte of the stubs' region.
pub const STUBS_END: u64 = 0x2800;
/// The lowest address of the exchange region.
pub const EXCHANGE: u64 = 0x2_0000;
/// The bytes of the exchange region.
pub const EXCHANGE_BYTES: u64 = 552;
/// The address above the highest byte of the exchange region.
pub const EXCHANGE_END: u64 = 0x2_0228;
/// Where the registers end in the exchange region: 32 general ones, and behind them 32 floating ones.
pub const REGISTERS_END: u64 = 512;
/// Where the stub Call finds the address that it calls.
pub const CALLEE_AT: u64 = 512;
/// Where the stub Call finds the stack pointer with which it calls.
pub const CALL_SP_AT: u64 = 520;
/// Where the stub Entry finds the stack pointer with which the callee goes on.
pub const ENTRY_SP_AT: u64 = 528;
/// Where the stub Exit finds the address of the save area.
pub const AREA_AT: u64 = 536;
/// Where the stub Return finds the stack pointer with which the caller goes on.
pub const RETURN_SP_AT: u64 = 544;

/// A stub that the machine is sent to.
#[derive(Clone, Copy, Debug, PartialEq, Eq)]
pub enum Stub {
    /// It loads arguments and calls.
    Call,
    /// It loads results and returns.
    Exit,
}
