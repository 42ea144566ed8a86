//! What whoever plays the moves of a call has done.
ghost use Rattle.std.specs.Prelude.{◌≡◌, ◌+◌, ◌-◌, ◌^◌, ◌<◌, ◌≤◌, ◌++◌, [], List, length};
ghost use Rattle.ffi3_type_spec.specs.Layout.{size_of};
ghost use Rattle.ffi3_type_spec.specs.Value.{ValueTree, value_in};
ghost use Rattle.ffi3_place_spec.specs.Holds.{Own, OwnResult};
ghost use Rattle.ffi3_place_spec.specs.Standard.{frame_of, plan_of};
ghost use Rattle.ffi3_transfer.specs.Packed.{packed_size, values_packed};
ghost use Rattle.ffi3_moves.specs.Exchange.{image_at};
ghost use Rattle.ffi3_moves.specs.Laws.{ArePassed, ArePassedWith, IsInBuffer, IsReturned, address_of, with_address, with_returned};
ghost use Rattle.ffi3_moves.specs.Moves.{collect_moves, give_moves, hidden_move, load_moves, moves_of, returned_at, store_moves};
ghost use Rattle.ffi3_moves.specs.Play.{frame_at, play};

use ffi3_cif::Placed;
use ffi3_place::Abi;

/// Does nothing. Its contract says what a caller has done that plays the moves of its arguments on any exchange: at the
/// callee's entry, with the stack pointer at `_sp`, the bytes of `_link` there as the return address, and the frame
/// behind them, the image holds the values, and all else stays. The buffer of a hidden result is in the frame, or
/// anywhere else, at `_buffer`.
pub fn store_law<A: Abi>(
    cif: &Placed<A>,
    _values: &[u8],
    _exchange: &[u8],
    _link: &[u8],
    _sp: u64,
    _buffer: u64,
)
    requires values { length _values.now ≡ packed_size cif.now.arguments }
    requires room { frame_at + frame_of A.standard cif.now ≤ length _exchange.now }
    requires link { length _link.now ≡ A.standard.link }
    requires high { _sp + A.standard.link + (length _exchange.now - frame_at) < 2 ^ 64 }
    ensures passed { ArePassed A.standard cif.now _values.now _sp _link.now _exchange.now (play (_sp + A.standard.link) (store_moves A.standard cif.now ++ moves_of (hidden_move A.standard cif.now)) _values.now _exchange.now) }
    ensures own_buffer { ArePassedWith A.standard cif.now _values.now _sp _link.now _buffer _exchange.now (with_address _buffer (plan_of A.standard cif.now).res (play (_sp + A.standard.link) (store_moves A.standard cif.now) _values.now _exchange.now)) }
{
    // their contracts tell what is true of every interface
    let _sig = cif.sig();
    let _vectors = cif.vectors();
}

/// Does nothing. Its contract says what a callee has done that plays the moves of its arguments: it has the values that
/// the entry's image owns.
pub fn collect_law<A: Abi>(
    cif: &Placed<A>,
    _exchange: &[u8],
    _link: &[u8],
    _sp: u64,
    _values: &[u8],
)
    requires values { length _values.now ≡ packed_size cif.now.arguments }
    requires room { frame_at + frame_of A.standard cif.now ≤ length _exchange.now }
    requires link { length _link.now ≡ A.standard.link }
    ensures { (vs : List ValueTree) → Own A.standard cif.now vs (image_at _sp _link.now _exchange.now) → values_packed cif.now.arguments (play (_sp + A.standard.link) (collect_moves A.standard cif.now) _exchange.now _values.now) ≡ vs }
{
    // its contract tells what is true of every interface
    let _sig = cif.sig();
}

/// Does nothing. Its contract says what a callee has done that plays the moves of its result, which has the bytes
/// `_result`: the image at the return, with the stack pointer at `_sp`, where the frame starts, holds the value, and all
/// else stays. A hidden result it has written to the buffer, and the buffer's address where that is given back.
pub fn give_law<A: Abi>(cif: &Placed<A>, _result: &[u8], _exchange: &[u8], _sp: u64)
    requires result { length _result.now ≡ size_of cif.now.result_type }
    requires room { frame_at + frame_of A.standard cif.now ≤ length _exchange.now }
    requires high { _sp + (length _exchange.now - frame_at) < 2 ^ 64 }
    requires in_buffer { IsInBuffer cif.now.result_type (plan_of A.standard cif.now).res _result.now _exchange.now }
    ensures { IsReturned A.standard cif.now _result.now _sp _exchange.now (with_returned (address_of _sp (plan_of A.standard cif.now).res) (returned_at A.standard cif.now) (play _sp (give_moves A.standard cif.now) _result.now _exchange.now)) }
{
    // its contract tells what is true of every interface
    let _sig = cif.sig();
}

/// Does nothing. Its contract says what a caller has done that plays the moves of its result: it has the value that the
/// image at the return owns.
pub fn load_law<A: Abi>(cif: &Placed<A>, _exchange: &[u8], _sp: u64, _result: &[u8])
    requires result { length _result.now ≡ size_of cif.now.result_type }
    requires room { frame_at + frame_of A.standard cif.now ≤ length _exchange.now }
    ensures { (v : ValueTree) → OwnResult A.standard cif.now v (image_at _sp [] _exchange.now) → value_in cif.now.result_type (play _sp (load_moves A.standard cif.now) _exchange.now _result.now) ≡ v }
{
    // its contract tells what is true of every interface
    let _sig = cif.sig();
}
