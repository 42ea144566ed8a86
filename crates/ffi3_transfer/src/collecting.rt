//! The arguments of a call, as its callee finds them.
ghost use Rattle.std.specs.Prelude.{◌≡◌, ◌≤◌, length, None, IfErr, OnErr, OnOk};
ghost use Rattle.ffi3_type_spec.specs.Layout.{size_of};
ghost use Rattle.ffi3_type_spec.specs.Value.{value_in};
ghost use Rattle.ffi3_place_spec.specs.Standard.{plan_of, round8};
ghost use Rattle.ffi3_place_spec.specs.Sound.{PlaceHasAll};
ghost use Rattle.ffi3_transfer.specs.Places.{ArgumentIsThere};
ghost use Rattle.ffi3_explain_spec.specs.Arguments.{first_outside, least_stack, outside_of, value_by_standard, values_by_standard};
ghost use Rattle.ffi3_transfer.specs.Stored.{image_in};
ghost use Rattle.ffi3_transfer.specs.Packed.{HasZeroPadding, HaveZeroPadding, first_in, packed_size, values_packed};
ghost use Rattle.ffi3_transfer.specs.Collected.{IsCollected, IsNotCollected};

use crate::giving::offset_in;
use crate::padding::clear_padding;
use crate::reading::{place_word, read_pieces};
use crate::storing::packed_size;
use crate::{Registers, Uncollected};
use ffi3_cif::Placed;
use ffi3_explain::{Outside, least_stack_of};
use ffi3_place::{Abi, Place};
use ffi3_type_spec::round_up;
use ffi3_types::CheckedType;

/// Argument `i`, where its address points outside the stack's bytes.
pub fn outside_of(
    registers: &Registers,
    stack: &[u8],
    base: u64,
    i: u32,
    ty: &CheckedType<'_>,
    place: &Place,
) -> Option<Outside>
    requires { ArgumentIsThere (image_in registers.now stack.now) base place.now }
    ensures { result ≡ outside_of (image_in registers.now stack.now) base i ty.now place.now }
{
    match place {
        Place::Direct(_) => None,
        Place::ByRef { at, .. } => {
            let address = place_word(registers, stack, base, *at);
            match offset_in(registers, stack, address, ty.size()) {
                Some(_) => None,
                None => Some(Outside {
                    argument: i,
                    address,
                }),
            }
        }
    }
}

/// The first argument whose address points outside the stack's bytes.
pub fn first_outside<A: Abi>(
    placed: &Placed<A>,
    registers: &Registers,
    stack: &[u8],
) -> Option<Outside>
    requires { least_stack A.standard placed.now ≤ length stack.now }
    ensures { result ≡ first_outside (image_in registers.now stack.now) A.standard.link 0 placed.now.arguments (plan_of A.standard placed.now).places }
{
    let sig = placed.placed_sig();
    let base = A::LINK;
    let count = sig.count();
    for i in 0..count {
        match outside_of(registers, stack, base, i, &sig.arg(i), placed.place(i)) {
            Some(outside) => return Some(outside),
            None => {}
        }
    }
    None
}

/// The bytes of an argument whose address, if it has one, points inside: its own leaves' bytes, and what stands between
/// them.
pub fn read_argument(
    registers: &Registers,
    stack: &[u8],
    base: u64,
    ty: &CheckedType<'_>,
    place: &Place,
    out: &mut [u8],
)
    requires there { ArgumentIsThere (image_in registers.now stack.now) base place.now }
    requires has_all { PlaceHasAll ty.now place.now }
    requires inside { outside_of (image_in registers.now stack.now) base 0 ty.now place.now ≡ None }
    requires sized { length out.old ≡ size_of ty.now }
    ensures value { value_in ty.now out.new ≡ value_by_standard (image_in registers.now stack.now) base ty.now place.now }
    ensures sized { length out.new ≡ size_of ty.now }
{
    match place {
        Place::Direct(pieces) => read_pieces(registers, stack, base, pieces, out),
        Place::ByRef { at, .. } => {
            let address = place_word(registers, stack, base, *at);
            let size = ty.size();
            match offset_in(registers, stack, address, size) {
                Some(from) => out.copy_from_slice(&stack[from..from + size as usize]),
                None => unreachable!(),
            }
        }
    }
}

/// The bytes of an argument, with padding of 0 in and behind it.
fn collect_argument(
    registers: &Registers,
    stack: &[u8],
    base: u64,
    ty: &CheckedType<'_>,
    place: &Place,
    out: &mut [u8],
)
    requires there { ArgumentIsThere (image_in registers.now stack.now) base place.now }
    requires has_all { PlaceHasAll ty.now place.now }
    requires inside { outside_of (image_in registers.now stack.now) base 0 ty.now place.now ≡ None }
    requires sized { length out.old ≡ round8 (size_of ty.now) }
    ensures value { value_in ty.now (first_in ty.now out.new) ≡ value_by_standard (image_in registers.now stack.now) base ty.now place.now }
    ensures padding { HasZeroPadding ty.now out.new }
    ensures sized { length out.new ≡ round8 (size_of ty.now) }
{
    let size = ty.size() as usize;
    read_argument(registers, stack, base, ty, place, &mut out[..size]);
    clear_padding(ty, out);
}

/// The bytes of all arguments, where no address points outside.
fn collect_arguments<A: Abi>(
    placed: &Placed<A>,
    registers: &Registers,
    stack: &[u8],
    values: &mut [u8],
)
    requires long { least_stack A.standard placed.now ≤ length stack.now }
    requires inside { first_outside (image_in registers.now stack.now) A.standard.link 0 placed.now.arguments (plan_of A.standard placed.now).places ≡ None }
    requires sized { length values.old ≡ packed_size placed.now.arguments }
    ensures values { values_packed placed.now.arguments values.new ≡ values_by_standard (image_in registers.now stack.now) A.standard.link placed.now.arguments (plan_of A.standard placed.now).places }
    ensures padding { HaveZeroPadding placed.now.arguments values.new }
    ensures sized { length values.new ≡ packed_size placed.now.arguments }
{
    let sig = placed.placed_sig();
    let base = A::LINK;
    let mut at = values.len();
    for i in (0..sig.count()).rev() {
        let ty = sig.arg(i);
        let size = ty.size();
        let room = round_up(size, 8) as usize;
        at -= room;
        collect_argument(
            registers,
            stack,
            base,
            &ty,
            placed.place(i),
            &mut values[at..at + room],
        );
    }
}

/// Collects the arguments of a call that was entered with these registers and this stack, which is the memory from
/// `registers.sp` on, by the standard alone: what that leaves free is not looked at, and an address is followed to
/// wherever it points in the stack's bytes. Padding is 0, in values and between them.
pub fn collect<A: Abi>(
    placed: &Placed<A>,
    registers: &Registers,
    stack: &[u8],
    values: &mut [u8],
) -> Result<(), Uncollected>
    ensures ok { OnOk result (IsCollected A.standard placed.now (image_in registers.now stack.now) values.new) }
    ensures err { IfErr result (λ f. IsNotCollected A.standard placed.now (image_in registers.now stack.now) values.old f) }
    ensures values { OnErr result (values.new ≡ values.old) }
{
    // its contract tells what is true of every interface
    let _sig = placed.sig();
    let wanted = packed_size(placed);
    if values.len() != wanted {
        return Err(Uncollected::WrongSize(wanted));
    }
    let least = least_stack_of(placed);
    if (stack.len() as u64) < least {
        return Err(Uncollected::ShortStack(least as usize));
    }
    match first_outside(placed, registers, stack) {
        Some(outside) => Err(Uncollected::NotInStack(outside.argument, outside.address)),
        None => {
            collect_arguments(placed, registers, stack, values);
            Ok(())
        }
    }
}
