// The purposes of extended key usage.
ghost use Rattle.std.specs.Prelude.{◌≡◌};
ghost use Rattle.usages.specs.Purposes.{purpose_arc};

use der::Head;

// The arc below id-kp that a purpose is, 0 where it is another: rules 407 and 408 ask which purpose it is.
pub fn purpose_arc(s: &[u8], h: Head) -> u8
    ensures { result ≡ purpose_arc s.now h }
{
    der::arc_below(s, h, b"\x2b\x06\x01\x05\x05\x07\x03")
}
