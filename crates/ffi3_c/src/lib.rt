//! The C library: each export calls the function of `ffi3_capi` or of `ffi3_interface` that it is named after, and says
//! its clauses again. `capi/ffi3.h` declares them for C.
#![tactic(auto)]

ghost use Rattle.std.specs.Prelude.{◌≡◌, ◌⊎◌, None, length};
ghost use Rattle.ffi3_capi.specs.Chars.{char_sign, layout_sign};
ghost use Rattle.ffi3_capi.specs.Faults.{Declares, DeclaresIn, IsFaultIn, IsFaultOf};
ghost use Rattle.ffi3_capi.specs.CheckedText.{ChecksText};
ghost use Rattle.ffi3_capi.specs.ByNodes.{AreNodesIn, IsFaultOfNodesIn};
ghost use Rattle.ffi3_capi.specs.Formats.{long_double_on};
ghost use Rattle.ffi3_capi.specs.Placed.{Places};
ghost use Rattle.ffi3_capi.specs.Laid.{LaysOut, LaysOutFor};
ghost use Rattle.ffi3_capi.specs.WholeType.{LaysOutNodes, LaysOutNodesFor, TellsOffsets, TellsOffsetsFor};
ghost use Rattle.ffi3_capi.specs.NaturalLayout.{ChecksLayout, ChecksLayoutFor};
ghost use Rattle.ffi3_transfer.specs.Stored.{image_in};
ghost use Rattle.ffi3_capi.specs.Entry.{Reads};
ghost use Rattle.ffi3_capi.specs.Each.{ReadsEach};
ghost use Rattle.ffi3_capi.specs.Returned.{ReadsResult};
ghost use Rattle.ffi3_capi.specs.Filled.{filled, with_end};
ghost use Rattle.ffi3_capi.specs.FaultText.{fault_text};
ghost use Rattle.ffi3_capi.specs.FaultLines.{TellsLines};
ghost use Rattle.ffi3_capi.specs.Registers.{register_name};
ghost use Rattle.ffi3_interface.specs.Keeping.{Prepares, Shares};
ghost use Rattle.ffi3_interface.specs.Numbers.{TellsSizes};
ghost use Rattle.ffi3_interface.specs.Transfers.{Collects, Gives, Loads, Stores};
ghost use Rattle.ffi3_interface.specs.Listing.{TellsMoves};

use ffi3_capi::{
    CheckedText, Declaration, EachArgument, EntryArguments, LaidLeaf, LaidType, Node, PlacedCall,
    PlacedPiece, Registers, ReturnedResult, TextFault, WholeType,
};
use ffi3_handle::Handle;
use ffi3_interface::{InterfaceSizes, Reason, ToldMove};
use std::alloc::Global;

/// Where everything stands in a call of the function that the text declares.
#[unsafe(no_mangle)]
pub extern "C" fn ffi3_place(
    alloc: Global,
    target: u32,
    text: &[u8],
    call: &mut PlacedCall,
    pieces: &mut [PlacedPiece],
) -> u32
    ensures { Places (DeclaresIn (long_double_on target) (char_sign target) text.now) (IsFaultIn (long_double_on target) (char_sign target) text.now) target pieces.old result call.new pieces.new }
{
    ffi3_capi::place(alloc, target, Declaration::Text(text), call, pieces)
}

/// Where everything stands in a call of the function that the nodes declare.
#[unsafe(no_mangle)]
pub extern "C" fn ffi3_place_nodes(
    alloc: Global,
    target: u32,
    nodes: &[Node],
    fixed: u32,
    call: &mut PlacedCall,
    pieces: &mut [PlacedPiece],
) -> u32
    ensures { Places (AreNodesIn (long_double_on target) nodes.now fixed) (IsFaultOfNodesIn (long_double_on target) nodes.now fixed) target pieces.old result call.new pieces.new }
{
    ffi3_capi::place(
        alloc,
        target,
        Declaration::Nodes(nodes, fixed),
        call,
        pieces,
    )
}

/// The layout of an argument or of the result of the function that the text declares.
#[unsafe(no_mangle)]
pub extern "C" fn ffi3_layout(
    alloc: Global,
    text: &[u8],
    value: u32,
    layout: &mut LaidType,
    leaves: &mut [LaidLeaf],
) -> u32
    ensures { LaysOut (Declares layout_sign text.now) (IsFaultOf layout_sign text.now) value leaves.old result layout.new leaves.new }
{
    ffi3_capi::layout(alloc, Declaration::Text(text), value, layout, leaves)
}

/// The same for a target, in whose format long doubles are.
#[unsafe(no_mangle)]
pub extern "C" fn ffi3_layout_for(
    alloc: Global,
    target: u32,
    text: &[u8],
    value: u32,
    layout: &mut LaidType,
    leaves: &mut [LaidLeaf],
) -> u32
    ensures { LaysOutFor (DeclaresIn (long_double_on target) (char_sign target) text.now) (IsFaultIn (long_double_on target) (char_sign target) text.now) target value leaves.old result layout.new leaves.new }
{
    ffi3_capi::layout_for(
        alloc,
        target,
        Declaration::Text(text),
        value,
        layout,
        leaves,
    )
}

/// Whether the text declares a function, and what is told of a place that is unexpected.
#[unsafe(no_mangle)]
pub extern "C" fn ffi3_check_text(
    alloc: Global,
    target: u32,
    text: &[u8],
    checked: &mut CheckedText,
) -> u32
    ensures { ChecksText target text.now result checked.new }
{
    ffi3_capi::check_text(alloc, target, text, checked)
}

/// The layout of the type that the nodes are, and its leaves.
#[unsafe(no_mangle)]
pub extern "C" fn ffi3_layout_nodes(
    alloc: Global,
    nodes: &[Node],
    told: &mut WholeType,
    leaves: &mut [LaidLeaf],
) -> u32
    ensures { LaysOutNodes nodes.now leaves.old result told.new leaves.new }
{
    ffi3_capi::layout_nodes(alloc, nodes, told, leaves)
}

/// The layout of the type that the nodes are, and where its members start.
#[unsafe(no_mangle)]
pub extern "C" fn ffi3_offsets_nodes(
    alloc: Global,
    nodes: &[Node],
    told: &mut WholeType,
    offsets: &mut [usize],
) -> u32
    ensures { TellsOffsets nodes.now offsets.old result told.new offsets.new }
{
    ffi3_capi::offsets_nodes(alloc, nodes, told, offsets)
}

/// The layout of the type that the nodes are on a target, and its leaves.
#[unsafe(no_mangle)]
pub extern "C" fn ffi3_layout_nodes_for(
    alloc: Global,
    target: u32,
    nodes: &[Node],
    told: &mut WholeType,
    leaves: &mut [LaidLeaf],
) -> u32
    ensures { LaysOutNodesFor target nodes.now leaves.old result told.new leaves.new }
{
    ffi3_capi::layout_nodes_for(alloc, target, nodes, told, leaves)
}

/// The layout of the type that the nodes are on a target, and where its members start.
#[unsafe(no_mangle)]
pub extern "C" fn ffi3_offsets_for(
    alloc: Global,
    target: u32,
    nodes: &[Node],
    told: &mut WholeType,
    offsets: &mut [usize],
) -> u32
    ensures { TellsOffsetsFor target nodes.now offsets.old result told.new offsets.new }
{
    ffi3_capi::offsets_for(alloc, target, nodes, told, offsets)
}

/// Whether the type that the nodes are has this size, this alignment and members that start there.
#[unsafe(no_mangle)]
pub extern "C" fn ffi3_check_layout(
    alloc: Global,
    nodes: &[Node],
    size: usize,
    align: usize,
    offsets: &[usize],
    fault: &mut TextFault,
) -> u32
    ensures { ChecksLayout nodes.now size align offsets.now result fault.new }
{
    ffi3_capi::check_layout(alloc, nodes, size, align, offsets, fault)
}

/// The same of the type that the nodes are on a target.
#[unsafe(no_mangle)]
pub extern "C" fn ffi3_check_for(
    alloc: Global,
    target: u32,
    nodes: &[Node],
    size: usize,
    align: usize,
    offsets: &[usize],
    fault: &mut TextFault,
) -> u32
    ensures { ChecksLayoutFor target nodes.now size align offsets.now result fault.new }
{
    ffi3_capi::check_layout_for(alloc, target, nodes, size, align, offsets, fault)
}

/// The arguments of the function that the text declares, as registers and stack have them where it begins.
#[unsafe(no_mangle)]
pub extern "C" fn ffi3_arguments(
    alloc: Global,
    target: u32,
    text: &[u8],
    registers: &Registers,
    stack: &[u8],
    found: &mut EntryArguments,
    values: &mut [u8],
) -> u32
    ensures { Reads (DeclaresIn (long_double_on target) (char_sign target) text.now) (IsFaultIn (long_double_on target) (char_sign target) text.now) target (image_in registers.now stack.now) values.old result found.new values.new }
{
    ffi3_capi::arguments(
        alloc,
        target,
        Declaration::Text(text),
        registers,
        stack,
        found,
        values,
    )
}

/// Each argument of the function that the text declares, as registers and stack have it where it begins.
#[unsafe(no_mangle)]
pub extern "C" fn ffi3_arguments_each(
    alloc: Global,
    target: u32,
    text: &[u8],
    registers: &Registers,
    stack: &[u8],
    found: &mut EntryArguments,
    each: &mut [EachArgument],
    values: &mut [u8],
) -> u32
    ensures { ReadsEach (DeclaresIn (long_double_on target) (char_sign target) text.now) (IsFaultIn (long_double_on target) (char_sign target) text.now) target (image_in registers.now stack.now) each.old values.old result found.new each.new values.new }
{
    let declaration = Declaration::Text(text);
    ffi3_capi::tell_each(
        alloc,
        target,
        declaration,
        registers,
        stack,
        found,
        each,
        values,
    )
}

/// The same of the function that the nodes declare.
#[unsafe(no_mangle)]
pub extern "C" fn ffi3_arguments_nodes(
    alloc: Global,
    target: u32,
    nodes: &[Node],
    fixed: u32,
    registers: &Registers,
    stack: &[u8],
    found: &mut EntryArguments,
    each: &mut [EachArgument],
    values: &mut [u8],
) -> u32
    ensures { ReadsEach (AreNodesIn (long_double_on target) nodes.now fixed) (IsFaultOfNodesIn (long_double_on target) nodes.now fixed) target (image_in registers.now stack.now) each.old values.old result found.new each.new values.new }
{
    let declaration = Declaration::Nodes(nodes, fixed);
    ffi3_capi::tell_each(
        alloc,
        target,
        declaration,
        registers,
        stack,
        found,
        each,
        values,
    )
}

/// The result of the function that the text declares, as registers and stack have it where it has returned.
#[unsafe(no_mangle)]
pub extern "C" fn ffi3_result(
    alloc: Global,
    target: u32,
    text: &[u8],
    registers: &Registers,
    stack: &[u8],
    found: &mut ReturnedResult,
    value: &mut [u8],
) -> u32
    ensures { ReadsResult (DeclaresIn (long_double_on target) (char_sign target) text.now) (IsFaultIn (long_double_on target) (char_sign target) text.now) target (image_in registers.now stack.now) value.old result found.new value.new }
{
    ffi3_capi::tell_result(
        alloc,
        target,
        Declaration::Text(text),
        registers,
        stack,
        found,
        value,
    )
}

/// The same of the function that the nodes declare.
#[unsafe(no_mangle)]
pub extern "C" fn ffi3_result_nodes(
    alloc: Global,
    target: u32,
    nodes: &[Node],
    fixed: u32,
    registers: &Registers,
    stack: &[u8],
    found: &mut ReturnedResult,
    value: &mut [u8],
) -> u32
    ensures { ReadsResult (AreNodesIn (long_double_on target) nodes.now fixed) (IsFaultOfNodesIn (long_double_on target) nodes.now fixed) target (image_in registers.now stack.now) value.old result found.new value.new }
{
    let declaration = Declaration::Nodes(nodes, fixed);
    ffi3_capi::tell_result(alloc, target, declaration, registers, stack, found, value)
}

/// Prepares calls of the function that the nodes declare, by an interface that the handle keeps.
#[unsafe(no_mangle)]
pub extern "C" fn ffi3_prepare(
    alloc: Global,
    target: u32,
    nodes: &[Node],
    fixed: u32,
    interface: &mut Handle,
    fault: &mut TextFault,
) -> u32
    ensures { Prepares (AreNodesIn (long_double_on target) nodes.now fixed) (IsFaultOfNodesIn (long_double_on target) nodes.now fixed) target interface.old.kept result fault.new interface.new.kept }
{
    let declaration = Declaration::Nodes(nodes, fixed);
    ffi3_interface::prepare(alloc, target, declaration, interface, fault)
}

/// Lets another handle keep the same interface.
#[unsafe(no_mangle)]
pub extern "C" fn ffi3_share(alloc: Global, interface: &mut Handle, other: &mut Handle) -> u32
    ensures same { interface.new.kept ≡ interface.old.kept }
    ensures shared { Shares interface.old.kept other.old.kept result other.new.kept }
{
    ffi3_interface::share(alloc, interface, other)
}

/// Gives back what the handle keeps: an interface that no other handle keeps goes with its memory.
#[unsafe(no_mangle)]
pub extern "C" fn ffi3_release(alloc: Global, interface: &mut Handle)
    ensures { interface.new.kept ≡ None }
{
    interface.release(alloc);
}

/// The sizes of an interface.
#[unsafe(no_mangle)]
pub extern "C" fn ffi3_sizes(interface: &mut Handle, sizes: &mut InterfaceSizes) -> u32
    ensures same { interface.new.kept ≡ interface.old.kept }
    ensures told { TellsSizes interface.old.kept result sizes.new }
{
    ffi3_interface::find_sizes(interface, sizes)
}

/// The moves of an interface, of one of the lists.
#[unsafe(no_mangle)]
pub extern "C" fn ffi3_moves(
    interface: &mut Handle,
    list: u32,
    count: &mut usize,
    moves: &mut [ToldMove],
) -> u32
    ensures same { interface.new.kept ≡ interface.old.kept }
    ensures told { TellsMoves interface.old.kept list moves.old result count.new moves.new }
{
    ffi3_interface::tell_moves(interface, list, count, moves)
}

/// The caller's values, before the call, to registers and stack.
#[unsafe(no_mangle)]
pub extern "C" fn ffi3_store(
    interface: &mut Handle,
    values: &[u8],
    registers: &mut Registers,
    stack: &mut [u8],
) -> u32
    ensures same { interface.new.kept ≡ interface.old.kept }
    ensures stored { Stores interface.old.kept values.now (image_in registers.old stack.old) result (image_in registers.new stack.new) }
{
    ffi3_interface::store(interface, values, registers, stack)
}

/// The caller's result, after the call, out of registers or stack.
#[unsafe(no_mangle)]
pub extern "C" fn ffi3_load(
    interface: &mut Handle,
    registers: &Registers,
    stack: &[u8],
    out: &mut [u8],
) -> u32
    ensures same { interface.new.kept ≡ interface.old.kept }
    ensures loaded { Loads interface.old.kept (image_in registers.now stack.now) out.old result out.new }
{
    ffi3_interface::load(interface, registers, stack, out)
}

/// The callee's arguments, at its entry, out of registers and stack.
#[unsafe(no_mangle)]
pub extern "C" fn ffi3_collect(
    interface: &mut Handle,
    registers: &Registers,
    stack: &[u8],
    values: &mut [u8],
    reason: &mut Reason,
) -> u32
    ensures same { interface.new.kept ≡ interface.old.kept }
    ensures collected { Collects interface.old.kept (image_in registers.now stack.now) values.old result reason.new values.new }
{
    ffi3_interface::collect(interface, registers, stack, values, reason)
}

/// The callee's result, before its return, to registers or stack.
#[unsafe(no_mangle)]
pub extern "C" fn ffi3_give(
    interface: &mut Handle,
    value: &[u8],
    registers: &mut Registers,
    stack: &mut [u8],
    reason: &mut Reason,
) -> u32
    ensures same { interface.new.kept ≡ interface.old.kept }
    ensures given { Gives interface.old.kept value.now (image_in registers.old stack.old) result reason.new (image_in registers.new stack.new) }
{
    ffi3_interface::give(interface, value, registers, stack, reason)
}

/// The words of a fault.
#[unsafe(no_mangle)]
pub extern "C" fn ffi3_fault_text(alloc: Global, fault: &TextFault, text: &mut [u8]) -> usize
    ensures { ((result ≡ length (fault_text fault.now)) × (text.new ≡ filled (with_end (fault_text fault.now)) text.old)) ⊎ ((result ≡ 0) × (text.new ≡ text.old)) }
{
    ffi3_capi::fault_text(alloc, fault, text)
}

/// The lines of what is wrong with a text.
#[unsafe(no_mangle)]
pub extern "C" fn ffi3_fault_lines(
    alloc: Global,
    target: u32,
    text: &[u8],
    lines: &mut [u8],
) -> usize
    ensures { TellsLines target text.now lines.old result lines.new }
{
    ffi3_capi::fault_lines(alloc, target, text, lines)
}

/// The name of a register.
#[unsafe(no_mangle)]
pub extern "C" fn ffi3_register_name(target: u32, place: u32, number: u32, name: &mut [u8]) -> usize
    ensures count { result ≡ length (register_name target place number) }
    ensures written { name.new ≡ filled (with_end (register_name target place number)) name.old }
{
    ffi3_capi::register_name(target, place, number, name)
}

/// The library's version: of 1.2.3, 10203.
#[unsafe(no_mangle)]
pub extern "C" fn ffi3_version() -> u32
    ensures { result ≡ 300 }
{
    300
}
