// Parts: a part of a column, copied into another.
#![tactic(auto)]

ghost use Rattle.std.specs.Prelude.{◌≡◌, ◌+◌, ◌≤◌, length};
ghost use Rattle.std.proofs.Math.Seq.{slice};
ghost use Rattle.laws.specs.Lists.{pasted};

// Copies `s` elements of a column from `i` on to another from `o` on. `copy_from_slice` would need `memmove`, and of the C library the archives have only memcpy and memset.
pub fn copy<T: Copy>(from: &[T], i: usize, s: usize, to: &mut [T], o: usize)
    requires { (i + s ≤ length from.now) × (o + s ≤ length to.old) }
    ensures { to.new ≡ pasted (slice i (i + s) from.now) o to.old }
{
    for j in 0..s {
        to[o + j] = from[i + j];
    }
}
