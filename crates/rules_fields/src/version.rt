// Rules 101 to 104: the version and the serial number.
ghost use Rattle.std.specs.Prelude.{◌≡◌};
ghost use Rattle.report.specs.Sinks.{SinkPuts};
ghost use Rattle.rules_fields.specs.Version.{is_v3, version_place, serial_length, is_above_zero, version_rows};

use certificate::Certificate;
use der::Head;
use profiles::Profile;
use report::Sink;

// Whether the first member of the TBS structure is a version that says 2, which is v3.
fn is_v3(s: &[u8], version: Head) -> bool
    ensures { result ≡ is_v3 s.now version }
{
    if version.tag == 0xA0 {
        return der::first_is(s, version, b"\x02");
    }
    false
}

// The [0], or the TBS structure if the version is not written.
fn version_place(version: Head, tbs: Head) -> Head
    ensures { result ≡ version_place version tbs }
{
    if version.tag == 0xA0 {
        return version;
    }
    tbs
}

fn serial_length(serial: Head) -> usize
    ensures { result ≡ serial_length serial }
{
    octets::minus(serial.end, serial.body)
}

fn is_above_zero(s: &[u8], serial: Head) -> bool
    ensures { result ≡ is_above_zero s.now serial }
{
    numbers::positive(s, serial.body, serial.end)
}

pub fn version_and_serial(sink: &mut Sink, p: Profile, s: &[u8], c: Certificate)
    ensures { SinkPuts p (version_rows s.now c) sink.old sink.new }
{
    let serial = c.serial;
    let length = serial_length(serial);
    let place = version_place(c.version, c.tbs);
    let old = !is_v3(s, c.version);
    let negative = !is_above_zero(s, serial);
    sink.judge(p, 101, old, place);
    sink.judge(p, 102, negative, serial);
    sink.judge(p, 103, 20 < length, serial);
    sink.judge(p, 104, length < 8, serial);
}
