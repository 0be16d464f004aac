// The key that an RSA key's BIT STRING holds.
ghost use Rattle.std.specs.Prelude.{◌≡◌, ◌+◌, min};
ghost use Rattle.rules_key.specs.Bits.{bits_from, is_positive_integer};
ghost use Rattle.rules_key.specs.Workings.Bits.{rsa_key_of};

use der::Head;

// The two INTEGERs that rules 205 to 208 judge, of bits that keep rule 204.
#[derive(Clone, Copy)]
pub struct RsaKey {
    pub modulus: Head,
    pub exponent: Head,
}

// Where the bits start: after the octet that counts the unused ones.
fn bits_from(h: Head) -> usize
    ensures { result ≡ bits_from h }
{
    let body = h.body;
    let end = h.end;
    if body < end {
        return body + 1;
    }
    end
}

fn is_positive_integer(s: &[u8], h: Head) -> bool
    ensures { result ≡ is_positive_integer s.now h }
{
    (h.tag == 2) & numbers::positive(s, h.body, h.end)
}

pub fn rsa_key(s: &[u8], bits: Head) -> Option<RsaKey>
    ensures { result ≡ rsa_key_of s.now bits }
{
    let from = bits_from(bits);
    let none_unused = octets::octet(s, bits.body) == 0;
    let sound = der::check_stretch(s, from, bits.end).is_ok();
    let whole = der::head_any(s, from, bits.end);
    let end = whole.end;
    let modulus = der::head_any(s, whole.body, end);
    let exponent = der::head_at(s, modulus.end, end);
    let two = (whole.body < end) & ((modulus.end < end) & (exponent.end == end));
    let positive = is_positive_integer(s, modulus) & is_positive_integer(s, exponent);
    let kept = none_unused & (sound & ((whole.tag == 48) & (two & positive)));
    kept.then_some(RsaKey {
        modulus: modulus,
        exponent: exponent,
    })
}
