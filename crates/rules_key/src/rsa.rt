// Rules 204 to 208: the key in an RSA key's bits.
ghost use Rattle.std.specs.Prelude.{◌≡◌, not, ◌&&◌};
ghost use Rattle.der.specs.Contents.{contents_of};
ghost use Rattle.octets.specs.Numbers.{number_of};
ghost use Rattle.numbers.specs.Numbers.{modulus_ok, long_modulus, exponent_ok};
ghost use Rattle.primes.specs.Primes.{free_of, primes_below};
ghost use Rattle.report.specs.Sinks.{SinkPuts};
ghost use Rattle.rules_key.specs.Rsa.{rsa_rows};
ghost use Rattle.rules_key.specs.Workings.Bits.{number_rows};

use crate::bits::{RsaKey, rsa_key};
use certificate::Key;
use der::Head;
use facts::is_rsa;
use profiles::Profile;
use report::Sink;

fn is_bad_modulus(s: &[u8], h: Head) -> bool
    ensures { result ≡ not (modulus_ok (number_of (contents_of s.now h))) }
{
    !numbers::modulus_ok(s, h.body, h.end)
}

fn is_short_modulus(s: &[u8], h: Head) -> bool
    ensures { result ≡ not (long_modulus (number_of (contents_of s.now h))) }
{
    !numbers::long_modulus(s, h.body, h.end)
}

fn is_bad_exponent(s: &[u8], h: Head) -> bool
    ensures { result ≡ not (exponent_ok (number_of (contents_of s.now h))) }
{
    !numbers::exponent_ok(s, h.body, h.end)
}

// Whether a prime below 752 divides the modulus, where that is judged: it takes time.
fn is_divided(judged: bool, s: &[u8], h: Head) -> bool
    ensures { result ≡ (judged && not (free_of (primes_below 752) (number_of (contents_of s.now h)))) }
{
    if judged {
        return !primes::divisible_by_none(s, h.body, h.end);
    }
    false
}

// Rules 205 to 208.
fn number_rules(sink: &mut Sink, p: Profile, s: &[u8], key: RsaKey)
    ensures { SinkPuts p (number_rows s.now key) sink.old sink.new }
{
    let modulus = is_bad_modulus(s, key.modulus);
    let short = is_short_modulus(s, key.modulus);
    let exponent = is_bad_exponent(s, key.exponent);
    let divided = is_divided(profiles::holds(p, 207), s, key.modulus);
    sink.judge(p, 205, modulus, key.modulus);
    sink.judge(p, 206, exponent, key.exponent);
    sink.judge(p, 207, divided, key.modulus);
    sink.judge(p, 208, short, key.modulus);
}

pub fn rsa_rules(sink: &mut Sink, p: Profile, s: &[u8], k: Key)
    ensures { SinkPuts p (rsa_rows s.now k) sink.old sink.new }
{
    if !is_rsa(k.kind) {
        return;
    }
    match rsa_key(s, k.bits) {
        Some(key) => number_rules(sink, p, s, key),
        None => sink.judge(p, 204, true, k.bits),
    }
}
