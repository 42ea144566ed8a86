//! The first fault of a type.
ghost use Rattle.std.specs.Prelude.{◌≡◌, ◌+◌, ◌<◌, ◌≤◌, length, true, false, OnOk, IfOk, IfErr};
ghost use Rattle.ffi3_type_spec.specs.declared.limits.TheConstants.{DEEPEST_NESTING};
ghost use Rattle.ffi3_type_spec.specs.Tree.{struct_of, array, trees_of};
ghost use Rattle.ffi3_type_spec.specs.Layout.{size_of, align_of, has_long_double};
ghost use Rattle.ffi3_type_spec.specs.Fault.{HasNoFault, IsFirstFault, takes};
ghost use Rattle.ffi3_type_spec.specs.Signature.{IsFoundFault};
ghost use Rattle.ffi3_types.specs.ScalarSize.{scalar_size_of};
ghost use Rattle.ffi3_types.specs.TreeOf.{tree_of};
ghost use Rattle.ffi3_types.specs.FaultOf.{path_of, fault_of};
ghost use Rattle.ffi3_types.specs.FirstElement.{NoElementHasFault, IsFirstInElements, role_of, role_for, purpose_of};

use crate::layout::Extent;
use crate::{FfiType, Fields, Path, TypeFault};
use ffi3_type_spec::limits::{DEEPEST_NESTING, LARGEST_TYPE};
use ffi3_type_spec::{Role, round_up};

/// Whether the type can be an argument or, `as_result`, a result; otherwise its first fault,
/// going through the tree from the front: a node's own fault comes before those of its
/// elements, but the size of a struct or an array is looked at after all that is inside it.
pub fn check_type(ty: &FfiType, as_result: bool) -> Result<(), TypeFault>
    ensures ok { OnOk result (HasNoFault 0 (role_of as_result) (tree_of ty.now)) }
    ensures err { IfErr result
        (λ e. IsFirstFault 0 (role_of as_result) (tree_of ty.now) (path_of e) (fault_of e)) }
{
    match check_node(ty, 0, role(as_result)) {
        Ok(_) => Ok(()),
        Err(fault) => Err(fault),
    }
}

/// The first fault of the type of a result or an argument, for calls on the machine or for places alone: its own or, for
/// `calls`, that it has a long double of 16 bytes.
pub(crate) fn check_in(ty: &FfiType, as_result: bool, calls: bool) -> Result<(), TypeFault>
    ensures right { OnOk result (HasNoFault 0 (role_for calls as_result) (tree_of ty.now)) }
    ensures plain { OnOk result (calls ≡ true → has_long_double (tree_of ty.now) ≡ false) }
    ensures err { IfErr result
        (λ e. IsFoundFault (purpose_of calls) (role_for calls as_result) (tree_of ty.now) (path_of e) (fault_of e)) }
{
    if let Err(fault) = check_node(ty, 0, role_in(as_result, calls)) {
        return Err(fault);
    }
    if !calls {
        return Ok(());
    }
    if ty.has_long_double() {
        return Err(TypeFault::LeftOut {
            path: Path::new(),
            kind: FfiType::LongDouble,
        });
    }
    Ok(())
}

fn role_in(as_result: bool, calls: bool) -> Role
    ensures { result ≡ role_for calls as_result }
{
    if calls {
        return role(as_result);
    }
    if as_result {
        Role::PlacedResult
    } else {
        Role::PlacedArgument
    }
}

fn role(as_result: bool) -> Role
    ensures { result ≡ role_of as_result }
{
    if as_result {
        Role::AsResult
    } else {
        Role::AsArgument
    }
}

/// The extent of a type without fault, which is found in the same pass as its faults.
#[cycle(check)]
fn check_node(ty: &FfiType, outer: u32, role: Role) -> Result<Extent, TypeFault>
    requires { outer ≤ DEEPEST_NESTING }
    ensures ok { OnOk result (HasNoFault outer role (tree_of ty.now)) }
    ensures size { IfOk result (λ x. x.size ≡ size_of (tree_of ty.now)) }
    ensures align { IfOk result (λ x. x.align ≡ align_of (tree_of ty.now)) }
    ensures err { IfErr result
        (λ e. IsFirstFault outer role (tree_of ty.now) (path_of e) (fault_of e)) }
    ensures room { IfErr result (λ e. outer + length (path_of e) ≤ DEEPEST_NESTING) }
{
    let size = ty.scalar_size();
    if size != 0 {
        return Ok(Extent { size, align: size });
    }
    check_other(ty, outer, role)
}

/// The same of a type that is no scalar.
#[cycle(check)]
fn check_other(ty: &FfiType, outer: u32, role: Role) -> Result<Extent, TypeFault>
    requires shallow { outer ≤ DEEPEST_NESTING }
    requires no_scalar { scalar_size_of (tree_of ty.now) ≡ 0 }
    ensures ok { OnOk result (HasNoFault outer role (tree_of ty.now)) }
    ensures size { IfOk result (λ x. x.size ≡ size_of (tree_of ty.now)) }
    ensures align { IfOk result (λ x. x.align ≡ align_of (tree_of ty.now)) }
    ensures err { IfErr result
        (λ e. IsFirstFault outer role (tree_of ty.now) (path_of e) (fault_of e)) }
    ensures room { IfErr result (λ e. outer + length (path_of e) ≤ DEEPEST_NESTING) }
{
    match ty {
        FfiType::Void => {
            if role.takes_void() {
                Ok(Extent { size: 0, align: 1 })
            } else {
                Err(TypeFault::BadTypedef { path: Path::new() })
            }
        }
        FfiType::LongDouble => Err(TypeFault::LeftOut {
            path: Path::new(),
            kind: FfiType::LongDouble,
        }),
        FfiType::Complex => Err(TypeFault::LeftOut {
            path: Path::new(),
            kind: FfiType::Complex,
        }),
        FfiType::Vector => Err(TypeFault::LeftOut {
            path: Path::new(),
            kind: FfiType::Vector,
        }),
        FfiType::Struct(fields) => check_struct(fields, outer, role),
        FfiType::Array(fields, count) => check_array(fields, *count, outer, role),
        FfiType::U8
        | FfiType::S8
        | FfiType::U16
        | FfiType::S16
        | FfiType::U32
        | FfiType::S32
        | FfiType::U64
        | FfiType::S64
        | FfiType::U128
        | FfiType::S128
        | FfiType::Float
        | FfiType::Double
        | FfiType::Pointer
        | FfiType::X87
        | FfiType::Binary128 => unreachable!(),
    }
}

#[cycle(check)]
fn check_struct(fields: &Fields, outer: u32, role: Role) -> Result<Extent, TypeFault>
    requires { outer ≤ DEEPEST_NESTING }
    ensures ok { OnOk result (HasNoFault outer role (struct_of fields.now)) }
    ensures size { IfOk result (λ x. x.size ≡ size_of (struct_of fields.now)) }
    ensures align { IfOk result (λ x. x.align ≡ align_of (struct_of fields.now)) }
    ensures err { IfErr result
        (λ e. IsFirstFault outer role (struct_of fields.now) (path_of e) (fault_of e)) }
    ensures room { IfErr result (λ e. outer + length (path_of e) ≤ DEEPEST_NESTING) }
{
    if outer as u64 >= DEEPEST_NESTING {
        return Err(TypeFault::TooDeep { path: Path::new() });
    }
    if fields.len() == 0 {
        return Err(TypeFault::BadTypedef { path: Path::new() });
    }
    match check_elements(fields, outer + 1) {
        Err(fault) => Err(fault),
        Ok(whole) => {
            if whole.size > LARGEST_TYPE {
                Err(TypeFault::TooLarge {
                    path: Path::new(),
                    size: whole.size,
                })
            } else {
                Ok(whole)
            }
        }
    }
}

#[cycle(check)]
fn check_array(fields: &Fields, count: u32, outer: u32, role: Role) -> Result<Extent, TypeFault>
    requires { outer ≤ DEEPEST_NESTING }
    ensures ok { OnOk result (HasNoFault outer role (array (trees_of fields.now) count)) }
    ensures size { IfOk result (λ x. x.size ≡ size_of (array (trees_of fields.now) count)) }
    ensures align { IfOk result (λ x. x.align ≡ align_of (array (trees_of fields.now) count)) }
    ensures err { IfErr result
        (λ e. IsFirstFault outer role (array (trees_of fields.now) count) (path_of e) (fault_of e)) }
    ensures room { IfErr result (λ e. outer + length (path_of e) ≤ DEEPEST_NESTING) }
{
    if outer as u64 >= DEEPEST_NESTING {
        return Err(TypeFault::TooDeep { path: Path::new() });
    }
    if !fields.may_stand(count, role) {
        return Err(TypeFault::BadTypedef { path: Path::new() });
    }
    if fields.len() != 1 {
        return Err(TypeFault::BadTypedef { path: Path::new() });
    }
    if count == 0 {
        return Err(TypeFault::BadTypedef { path: Path::new() });
    }
    let inside = outer + 1;
    match check_node(fields.get(0), inside, Role::AsElement) {
        Err(fault) => Err(fault.inside(0)),
        Ok(item) => {
            let size = count as u64 * item.size;
            if size > LARGEST_TYPE {
                Err(TypeFault::TooLarge {
                    path: Path::new(),
                    size,
                })
            } else {
                Ok(Extent {
                    size,
                    align: item.align,
                })
            }
        }
    }
}

/// The extent of the struct of these elements, if none has a fault.
#[cycle(check)]
fn check_elements(fields: &Fields, outer: u32) -> Result<Extent, TypeFault>
    requires inside { 0 < outer }
    requires shallow { outer ≤ DEEPEST_NESTING }
    ensures ok { OnOk result (NoElementHasFault outer fields.now (length fields.now)) }
    ensures size { IfOk result (λ x. x.size ≡ size_of (struct_of fields.now)) }
    ensures align { IfOk result (λ x. x.align ≡ align_of (struct_of fields.now)) }
    ensures err { IfErr result
        (λ e. IsFirstInElements outer fields.now (path_of e) (fault_of e)) }
    ensures room { IfErr result (λ e. outer + length (path_of e) ≤ DEEPEST_NESTING + 1) }
{
    let mut end = 0;
    let mut align = 1;
    for i in 0..fields.len() {
        match check_node(fields.get(i), outer, Role::AsElement) {
            Err(fault) => {
                return Err(fault.inside(i as u32));
            }
            Ok(item) => {
                end = round_up(end, item.align) + item.size;
                if item.align > align {
                    align = item.align;
                }
            }
        }
    }
    Ok(Extent {
        size: round_up(end, align),
        align,
    })
}

impl Fields {
    /// Whether the array of `count` elements of the first type may stand there.
    fn may_stand(&self, count: u32, role: Role) -> bool
        ensures { result ≡ takes role (array (trees_of self.now) count) }
    {
        if role.takes_array() {
            return true;
        }
        if !role.takes_complex() {
            return false;
        }
        self.is_complex(count)
    }
}
