//! The bytes of a value that lie in none of its leaves.
ghost use Rattle.std.specs.Prelude.{◌≡◌, ℕ, ◌<◌, ◌≤◌, ◌⊎◌, get_or, length};
ghost use Rattle.ffi3_type_spec.specs.Layout.{size_of};
ghost use Rattle.ffi3_transfer.specs.Packed.{IsCleared};

use ffi3_types::CheckedType;

/// Zeros from an offset up to another.
fn clear(out: &mut [u8], from: usize, to: usize)
    requires order { from ≤ to }
    requires within { to ≤ length out.old }
    ensures zeros { (i : ℕ) → from ≤ i → i < to → get_or out.new i 0 ≡ 0 }
    ensures beside { (i : ℕ) → (i < from) ⊎ (to ≤ i) → get_or out.new i 0 ≡ get_or out.old i 0 }
    ensures size { length out.new ≡ length out.old }
{
    out[from..to].fill(0);
}

/// Clears each byte that lies in no leaf of the type whose value begins there.
pub(crate) fn clear_padding(ty: &CheckedType<'_>, out: &mut [u8])
    requires { size_of ty.now ≤ length out.old }
    ensures { IsCleared ty.now out.old out.new }
{
    // its contract tells what is true of every such type
    let _plain = ty.as_type();
    let mut end = out.len();
    for k in (0..ty.leaf_count()).rev() {
        let leaf = ty.leaf(k);
        let at = leaf.at as usize;
        clear(out, at + leaf.kind.value_size() as usize, end);
        end = at;
    }
    clear(out, 0, end);
}
