// The linter's answer: a pass that counts, over no room at all, and where there is something to write a pass that
// writes.
ghost use Rattle.std.specs.Prelude.{◌≡◌};
ghost use Rattle.facts.specs.Case.{case_by};
ghost use Rattle.report.specs.Rows.{findings_of, Puts};
ghost use Rattle.rules.specs.Rules.{all_rules, findings};
ghost use Rattle.lint.specs.Refusals.{answer_values};
ghost use Rattle.lint.specs.Answers.{Answered};
ghost use Rattle.lint.specs.Workings.Answers.{Reported};

use crate::judging::examine;
use crate::reasons::{Refusal, refusal_values};
use facts::Evidence;
use profiles::Profile;
use refusals::{Values, unrefused};
use report::Sink;

// The paper's number, side, place and count of findings.
pub fn answer_values(answer: Result<usize, Refusal>) -> Values
    ensures { result ≡ answer_values answer }
{
    match answer {
        Ok(findings) => unrefused(findings),
        Err(r) => refusal_values(r),
    }
}

// A pass over all rules: the count of the findings by this evidence, and the room with those that fit.
fn pass(room: &mut [u8], p: Profile, evidence: &Evidence) -> usize
    ensures { Puts p (all_rules p (case_by evidence.now)) 0 room.old result room.new }
{
    let mut sink = Sink::new(room);
    rules::all_rules(&mut sink, p, evidence);
    sink.count
}

// The answer to the findings by this evidence, and the room that they are written to.
fn report_facts(room: &mut [u8], p: Profile, evidence: &Evidence) -> Result<usize, Refusal>
    ensures { Reported (findings_of p (all_rules p (case_by evidence.now))) room.old result room.new }
{
    let count = pass(&mut room[..0], p, evidence);
    if !report::has_room(count, room.len()) {
        return Err(Refusal::NoRoom);
    }
    if 0 < count {
        pass(room, p, evidence);
    }
    Ok(count)
}

// The same of a certificate and its issuer's, both accepted.
fn report_on(room: &mut [u8], p: Profile, s: &[u8], issuer: &[u8]) -> Result<usize, Refusal>
    ensures { Reported (findings p s.now issuer.now) room.old result room.new }
{
    let evidence = Evidence {
        octets: s,
        facts: facts::facts_of(s, issuer),
        issuer,
    };
    report_facts(room, p, &evidence)
}

// So many findings, written to the room, or a refusal.
pub fn lint(
    certificate: &[u8],
    issuer: &[u8],
    profile: u8,
    room: &mut [u8],
) -> Result<usize, Refusal>
    ensures { Answered certificate.now issuer.now profile room.old result room.new }
{
    let p = examine(certificate, issuer, profile)?;
    report_on(room, p, certificate, issuer)
}
