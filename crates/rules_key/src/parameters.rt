// The parameters of a key's algorithm, by their octets.
ghost use Rattle.std.specs.Prelude.{◌≡◌};
ghost use Rattle.rules_key.specs.Parameters.{is_null, is_curve};

use der::Head;

pub fn is_null(s: &[u8], h: Head) -> bool
    ensures { result ≡ is_null s.now h }
{
    der::octets_are(s, h, b"\x05\x00")
}

// Whether it names P-256, P-384 or P-521.
pub fn is_curve(s: &[u8], h: Head) -> bool
    ensures { result ≡ is_curve s.now h }
{
    let p256 = der::octets_are(s, h, b"\x06\x08\x2A\x86\x48\xCE\x3D\x03\x01\x07");
    let p384 = der::octets_are(s, h, b"\x06\x05\x2B\x81\x04\x00\x22");
    let p521 = der::octets_are(s, h, b"\x06\x05\x2B\x81\x04\x00\x23");
    p256 | (p384 | p521)
}
