// Lines of words and numbers. A line is put together first and written at once.
use lint::Refusal;
use reader::{Loss, Record};
use refusals::Values;
use std::io::Print;
use texts::Text;
use writer::NotWritten;

// So many octets hold every line.
const LINE: usize = 80;

// Writes octets. Where standard output takes them no more, nothing is left to say so on, and whoever reads the answers
// sees that some are missing.
pub fn put_out(output: &impl Print, octets: &[u8]) {
    let _ = output.write_all(octets);
}

// Puts an answer's values behind a line's text. `counted` says what is counted.
fn put_values(line: &mut Text, counted: &[u8], v: Values) {
    if v.number == 0 {
        return line.field(counted, v.count);
    }
    line.field(b"refused ", v.number);
    line.field(b" side ", v.side);
    line.field(b" at ", v.place);
}

// Ends a line and writes it.
fn end(output: &impl Print, mut line: Text) {
    line.word(b"\n");
    put_out(output, line.octets());
}

// Writes a line of a text and a number.
pub fn say(output: &impl Print, text: &[u8], number: usize) {
    let mut space = [0u8; LINE];
    let mut line = Text::new(&mut space);
    line.field(text, number);
    end(output, line);
}

pub fn say_answer(output: &impl Print, answer: Result<usize, Refusal>) {
    let mut space = [0u8; LINE];
    let mut line = Text::new(&mut space);
    put_values(&mut line, b"findings ", lint::answer_values(answer));
    end(output, line);
}

pub fn say_written(output: &impl Print, answer: Result<usize, NotWritten>) {
    let mut space = [0u8; LINE];
    let mut line = Text::new(&mut space);
    put_values(&mut line, b"blocks ", writer::placing_values(answer));
    end(output, line);
}

pub fn say_record(output: &impl Print, record: Record) {
    let mut space = [0u8; LINE];
    let mut line = Text::new(&mut space);
    line.field(b"record ", record.number);
    line.field(b" profile ", usize::from(record.profile));
    line.field(b" length ", record.length);
    line.word(b" ");
    put_values(&mut line, b"findings ", lint::answer_values(record.answer));
    end(output, line);
}

pub fn say_lost(output: &impl Print, position: usize, loss: Loss) {
    match loss {
        Loss::Short => say_loss(output, position, b" short"),
        Loss::Unsound => say_loss(output, position, b" unsound"),
        Loss::Stray => say_loss(output, position, b" stray"),
    }
}

fn say_loss(output: &impl Print, position: usize, loss: &[u8]) {
    let mut space = [0u8; LINE];
    let mut line = Text::new(&mut space);
    line.field(b"lost ", position);
    line.word(loss);
    end(output, line);
}

pub fn say_counts(output: &impl Print, records: usize, blocks: usize, lost: usize) {
    let mut space = [0u8; LINE];
    let mut line = Text::new(&mut space);
    line.field(b"records ", records);
    line.field(b" blocks ", blocks);
    line.field(b" lost ", lost);
    end(output, line);
}
