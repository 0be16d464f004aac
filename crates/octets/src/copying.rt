// Copying a stretch of octets.
ghost use Rattle.std.specs.Prelude.{◌≡◌, ◌+◌, ◌≤◌, length, drop};
ghost use Rattle.std.proofs.Math.Seq.{paste};
ghost use Rattle.octets.specs.Copying.{copied};

use crate::reading::within;

fn copy_inside(s: &[u8], from: usize, n: usize, out: &mut [u8], at: usize)
    requires { (from + n ≤ length s.now) × (at + n ≤ length out.old) }
    ensures { out.new ≡ paste out.old at (drop from s.now) n }
{
    out[at..at + n].copy_from_slice(&s[from..from + n]);
}

// Copies the n octets of s from place `from` on to place `at` of `out`; nothing if either has fewer.
pub fn copy(s: &[u8], from: usize, n: usize, out: &mut [u8], at: usize)
    ensures { out.new ≡ copied s.now from n out.old at }
{
    if within(from, n, s.len()) & within(at, n, out.len()) {
        copy_inside(s, from, n, out, at);
    }
}
