// Rules 361 to 363: extensions by their identifiers, whatever their values. They share what was found out about repeats.
ghost use Rattle.facts.specs.Case.{seen_by};
ghost use Rattle.report.specs.Sinks.{SinkPuts};
ghost use Rattle.rules_extensions.specs.Identifiers.{identifier_rows};

use der::Head;
use forms::{Items, Kind, Repeats};
use profiles::Profile;
use report::Sink;

pub fn identifiers(sink: &mut Sink, p: Profile, s: &[u8], list: Head, repeated: bool)
    ensures { SinkPuts p (identifier_rows p s.now list (seen_by s.now list repeated)) sink.old sink.new }
{
    let repeats = Repeats {
        from: list.body,
        some: repeated,
    };
    let extensions = Items::Members(list);
    forms::judge_each(sink, p, 361, Kind::Repeated(repeats), s, extensions);
    forms::judge_each(sink, p, 362, Kind::Unwanted(repeats), s, extensions);
    forms::judge_each(sink, p, 363, Kind::OutOfPlace(repeats), s, extensions);
}
