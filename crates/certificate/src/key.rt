// The key of a certificate (RFC 5280, 4.1.2.7).
ghost use Rattle.std.specs.Prelude.{◌≡◌};
ghost use Rattle.certificate.specs.Key.{kind_of, key_of};

use der::Head;

#[derive(Clone, Copy)]
pub enum KeyKind {
    Rsa,
    EllipticCurve,
    Other,
}

// Of a SubjectPublicKeyInfo the AlgorithmIdentifier, its parameters (not sound if there are none), the BIT STRING,
// and the kind, which goes by the algorithm's OBJECT IDENTIFIER alone.
#[derive(Clone, Copy)]
pub struct Key {
    pub algorithm: Head,
    pub parameters: Head,
    pub bits: Head,
    pub kind: KeyKind,
}

// The kind of key that an OBJECT IDENTIFIER names.
fn kind_of(s: &[u8], identifier: Head) -> KeyKind
    ensures { result ≡ kind_of s.now identifier }
{
    if der::contents_are(s, identifier, b"\x2A\x86\x48\x86\xF7\x0D\x01\x01\x01") {
        return KeyKind::Rsa;
    }
    if der::contents_are(s, identifier, b"\x2A\x86\x48\xCE\x3D\x02\x01") {
        return KeyKind::EllipticCurve;
    }
    KeyKind::Other
}

pub fn key_of(s: &[u8], key: Head) -> Key
    ensures { result ≡ key_of s.now key }
{
    let algorithm = der::first_in(s, key);
    let identifier = der::first_in(s, algorithm);
    Key {
        algorithm: algorithm,
        parameters: der::after(s, identifier, algorithm.end),
        bits: der::after(s, algorithm, key.end),
        kind: kind_of(s, identifier),
    }
}
