// Rules 105 to 108: the two signature algorithms and the issuer's name.
ghost use Rattle.std.specs.Prelude.{◌≡◌};
ghost use Rattle.der.specs.Order.{octets_of};
ghost use Rattle.report.specs.Sinks.{SinkPuts};
ghost use Rattle.rules_fields.specs.Algorithms.{is_sha256_rsa, signature_rows};

use certificate::Certificate;
use der::Head;
use profiles::Profile;
use report::Sink;

fn is_sha256_rsa(s: &[u8], algorithm: Head) -> bool
    ensures { result ≡ is_sha256_rsa s.now algorithm }
{
    der::contents_are(
        s,
        algorithm,
        b"\x06\x09\x2A\x86\x48\x86\xF7\x0D\x01\x01\x0B\x05\x00",
    )
}

// `name` is the issuer's subject, in its octets.
pub fn algorithms_and_name(
    sink: &mut Sink,
    p: Profile,
    s: &[u8],
    c: Certificate,
    issuer: &[u8],
    name: Head,
)
    ensures { SinkPuts p (signature_rows s.now c (octets_of issuer.now name)) sink.old sink.new }
{
    let inner = !is_sha256_rsa(s, c.inner);
    let outer = !is_sha256_rsa(s, c.outer);
    let differ = !der::same_element(s, c.inner, s, c.outer);
    let stranger = !der::same_element(s, c.issuer, issuer, name);
    sink.judge(p, 105, inner, c.inner);
    sink.judge(p, 106, outer, c.outer);
    sink.judge(p, 107, differ, c.outer);
    sink.judge(p, 108, stranger, c.issuer);
}
