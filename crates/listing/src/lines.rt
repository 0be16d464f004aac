// The lines (document 01, "The deck"), each with the line feed that ends it. No `impl Display`: `write!` would answer a
// `Result` at each line, and a text that ends where its buffer does has no error to tell.
ghost use Rattle.texts.specs.Putting.{Grown};
ghost use Rattle.report.specs.Entries.{entry_of, decode};
ghost use Rattle.listing.specs.Lines.{level_text, finding_line, refusal_text, answer_text, record_line, lost_line, total_line, too_long_line};
ghost use Rattle.listing.specs.Listing.{finding_lines, record_lines, item_lines};

use lint::Refusal;
use reader::{Counts, Item, Loss, Record};
use report::read_entry;
use texts::Text;

// The word for a level (document 02, CR 3).
fn level_word(text: &mut Text, number: usize)
    ensures { Grown (level_text number) text.old text.new }
{
    match number {
        1 => text.word(b" must"),
        2 => text.word(b" should"),
        _ => {}
    }
}

// The line of entry k of a report, from 0.
pub fn finding_line(text: &mut Text, report: &[u8], k: usize)
    ensures { Grown (finding_line (entry_of report.now k)) text.old text.new }
{
    let e = read_entry(report, k);
    text.field(b"  ", e.rule);
    text.field(b" at ", e.place.start);
    text.field(b" length ", e.place.len);
    level_word(text, e.level);
    text.word(b"\n");
}

fn refusal(text: &mut Text, r: Refusal)
    ensures { Grown (refusal_text r) text.old text.new }
{
    let v = lint::refusal_values(r);
    text.field(b" refused ", v.number);
    text.field(b" side ", v.side);
    text.field(b" at ", v.place);
}

fn outcome(text: &mut Text, answer: Result<usize, Refusal>)
    ensures { Grown (answer_text answer) text.old text.new }
{
    match answer {
        Ok(count) => text.field(b" findings ", count),
        Err(r) => refusal(text, r),
    }
}

pub fn record_line(text: &mut Text, record: Record)
    ensures { Grown (record_line «record») text.old text.new }
{
    text.field(b"record ", record.number);
    text.field(b" profile ", usize::from(record.profile));
    outcome(text, record.answer);
    text.word(b"\n");
}

// The block at a position.
pub fn lost_line(text: &mut Text, position: usize, loss: Loss)
    ensures { Grown (lost_line position loss) text.old text.new }
{
    text.field(b"lost ", position);
    match loss {
        Loss::Short => text.word(b" short\n"),
        Loss::Unsound => text.word(b" unsound\n"),
        Loss::Stray => text.word(b" stray\n"),
    }
}

pub fn total_line(text: &mut Text, counts: Counts, blocks: usize)
    ensures { Grown (total_line counts blocks) text.old text.new }
{
    text.field(b"records ", counts.records);
    text.field(b" blocks ", blocks);
    text.field(b" lost ", counts.lost);
    text.word(b"\n");
}

pub fn too_long(text: &mut Text)
    ensures { Grown too_long_line text.old text.new }
{
    text.word(b"deck too long\n");
}

// The lines of the first `count` entries of a report.
fn finding_lines(text: &mut Text, report: &[u8], count: usize)
    ensures { Grown (finding_lines (decode count report.now)) text.old text.new }
{
    for k in 0..count {
        finding_line(text, report, k);
    }
}

fn record_lines(text: &mut Text, record: Record, report: &[u8])
    ensures { Grown (record_lines «record» report.now) text.old text.new }
{
    record_line(text, record);
    let answer = record.answer;
    match answer {
        Ok(count) => finding_lines(text, report, count),
        Err(_) => {}
    }
}

// All lines of what a step of the reader hands out at a position, with the report that it leaves in the room.
pub fn item_lines(text: &mut Text, position: usize, item: Item, report: &[u8])
    ensures { Grown (item_lines position item report.now) text.old text.new }
{
    match item {
        Item::Record(record) => record_lines(text, record, report),
        Item::Lost(loss) => lost_line(text, position, loss),
        Item::End => {}
    }
}
