// The bits of a number.
ghost use Rattle.std.specs.Prelude.{◌≡◌, ◌/◌, ◌%◌, ◌^◌, eqb};

// Whether bit k of x is set, counted from the last: the one that has the weight 2^k.
pub fn bit(x: u64, k: u8) -> bool
    ensures { result ≡ eqb (x / 2 ^ k % 2) 1 }
{
    k < 64 && (x >> k) % 2 == 1
}
