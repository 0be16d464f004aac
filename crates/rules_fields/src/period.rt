// Rules 109 to 111: the validity.
ghost use Rattle.std.specs.Prelude.{◌≡◌, not};
ghost use Rattle.report.specs.Sinks.{SinkPuts};
ghost use Rattle.rules_fields.specs.Period.{within_limit, validity_rows};

use certificate::Certificate;
use profiles::{Limit, Profile};
use report::Sink;
use times::Validity;

// Rule 111 is broken: so many days, or so many years by the calendar.
fn is_too_long(v: Validity, limit: Limit) -> bool
    ensures { result ≡ not (within_limit v limit) }
{
    match limit {
        Limit::Days(days) => !times::within_days(v, days),
        Limit::Years(years) => !times::within_years(v, years),
    }
}

pub fn validity(sink: &mut Sink, p: Profile, c: Certificate)
    ensures { SinkPuts p (validity_rows p c) sink.old sink.new }
{
    let times = c.validity;
    let start = times.not_before;
    let end = times.not_after;
    let early_start = times::early_general(start);
    let early_end = times::early_general(end);
    let reversed = times::reversed(times);
    let too_long = is_too_long(times, profiles::limit_of(p));
    sink.judge(p, 109, early_start, c.not_before);
    sink.judge(p, 109, early_end, c.not_after);
    sink.judge(p, 110, reversed, c.period);
    sink.judge(p, 111, too_long, c.period);
}
