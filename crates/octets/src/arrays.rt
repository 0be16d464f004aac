// Arrays of zeros.
ghost use Rattle.std.specs.Prelude.{◌≡◌, replicate};

// An array of so many zeros. A proof that has a long array before it goes through all of it, so programs take theirs from here,
// and their proofs have this clause alone.
pub fn zeros<const N: usize>() -> [u8; N]
    ensures { result ≡ replicate N 0 }
{
    [0; N]
}
