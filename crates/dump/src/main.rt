// For tests alone: walks over standard input and prints, of each record that it places, all that is answered about it,
// in the format of tests/vectors/README.md. It asks the questions and makes rows of what they answer; the answers are
// not its own.
#![tactic(auto)]

ghost use Rattle.std.specs.Prelude.{◌≤◌};

use group::Characteristic;
use place::{Placing, Record};
use reply::Reply;
use std::io;
use std::io::Write;

// A row as it is made. It has room for the longest: 5,989 elements of group 40 (R13), with at most 18 bytes for the
// cells of each. What has no room is left out. No heap is asked for, so it is no `Vec`. Numbers are
// cast to `u64`, which has no `From` of a `usize`; signed ones have a function of their own in `decimal`.
#[derive(Drop)]
struct OutputRow {
    bytes: [u8; 131072],
    end: usize,
    ghost within: { end ≤ 131072 },
}

impl OutputRow {
    fn byte(&mut self, byte: u8) {
        if self.end < self.bytes.len() {
            self.bytes[self.end] = byte;
            self.end += 1;
        }
    }

    #[tactic(auto, unfolding(decimal::specs::Writing::put_answer))]
    fn number(&mut self, number: usize) {
        self.byte(b' ');
        if let Some(end) = decimal::put_number(&mut self.bytes, self.end, number as u64) {
            self.end = end;
        }
    }

    #[tactic(auto, unfolding(decimal::specs::Writing::put_answer))]
    fn cell(&mut self, cell: i64) {
        self.byte(b' ');
        if let Some(end) = decimal::put_signed(&mut self.bytes, self.end, cell) {
            self.end = end;
        }
    }

    // The reply's number, and the numbers beside it.
    fn reply(&mut self, reply: Reply) {
        self.number(reply.number as usize);
        self.number(beside(reply));
        self.number(reply.element);
    }

    fn print(&mut self, out: &mut impl Write, name: &[u8]) -> io::Result<()> {
        self.byte(b'\n');
        out.write_all(name)?;
        out.write_all(&self.bytes[..self.end])?;
        self.end = 0;
        Ok(())
    }
}

// The first number beside a reply to a question about a group: cells, group, line or position. The second is the
// element.
fn beside(reply: Reply) -> usize {
    match reply.number {
        0 => reply.written,
        6 | 7 => reply.group,
        8 | 9 => reply.line,
        10 => reply.position,
        _ => 0,
    }
}

// ---- Answers.

// A record that was placed, with the rules and the text that it is asked about with.
#[derive(Clone, Copy)]
struct Asked<'a> {
    rules: rules::Rules,
    text: &'a [u8],
    record: &'a Record,
}

// The place, and what placing answers there.
fn put_placing(row: &mut OutputRow, at: usize, answer: Placing) {
    let reply = Reply::from(answer);
    row.number(at);
    row.number(reply.number as usize);
    row.number(reply.next);
    row.number(reply.group);
}

// A group's cells, and its lines: where they begin, and where the part that is told as them ends; 0 where that is no
// part of the text.
fn print_group(
    out: &mut impl Write,
    asked: Asked<'_>,
    group: usize,
    row: &mut OutputRow,
) -> io::Result<()> {
    let mut table = [0i64; 11978];
    let record = *asked.record;
    let answer = sao::record_group(asked.rules, asked.text, record, group, &mut table);
    let from = sao::record_lines_at(asked.rules, asked.text, record, group).from;
    let part = sao::record_lines(asked.rules, asked.text, record, group);
    let to = from
        .checked_add(part.len())
        .filter(|to| *to <= asked.text.len())
        .unwrap_or(0);
    let reply = Reply::from(answer);
    let Some(cells) = table.get(..reply.written) else {
        return Ok(());
    };
    row.number(group);
    row.reply(reply);
    row.number(from);
    row.number(to);
    for cell in cells {
        row.cell(*cell);
    }
    row.print(out, b"group")
}

// A characteristic: its kind, a number in this format, its value or 0, and the reply.
fn print_characteristic(
    out: &mut impl Write,
    asked: Asked<'_>,
    number: usize,
    row: &mut OutputRow,
) -> io::Result<()> {
    let told = sao::record_characteristic(asked.rules, asked.text, *asked.record, number);
    let (kind, value) = match told {
        Characteristic::Value(value) => (0, value),
        Characteristic::NoReading => (1, 0),
        Characteristic::NotReported => (2, 0),
        Characteristic::Refused(_) => (3, 0),
    };
    row.number(number);
    row.number(kind);
    row.cell(value);
    row.reply(Reply::from(told));
    row.print(out, b"char")
}

fn print_record(
    out: &mut impl Write,
    at: usize,
    asked: Asked<'_>,
    row: &mut OutputRow,
) -> io::Result<()> {
    put_placing(row, at, asked.record.answer);
    for count in &asked.record.counts {
        row.number(usize::from(*count));
    }
    row.print(out, b"record")?;
    for group in 1..61 {
        print_group(out, asked, group, row)?;
    }
    for number in 1..50 {
        print_characteristic(out, asked, number, row)?;
    }
    Ok(())
}

// The records from a place on. A record has 242 bytes at least (R9, R21, R28), so 65,536 bytes hold fewer than 300.
fn print_records(
    out: &mut impl Write,
    rules: rules::Rules,
    text: &[u8],
    row: &mut OutputRow,
) -> io::Result<()> {
    let mut at = 0;
    for _ in 0..300 {
        let record = sao::place(rules, text, at);
        let (Placing::Placed(next) | Placing::BrokenRule(_, next)) = record.answer else {
            put_placing(row, at, record.answer);
            return row.print(out, b"stop");
        };
        let asked = Asked {
            rules,
            text,
            record: &record,
        };
        print_record(out, at, asked, row)?;
        at = next;
    }
    Ok(())
}

fn main(rt: HostRuntime) -> io::Result<()> {
    let Ok(asked) = words::given(&rt, &mut rt.stderr(), b"dump")? else {
        return Ok(());
    };
    let rules = rules::choose(asked.strict, asked.entries);
    let mut space = [0u8; 65537];
    let n = words::filled(&mut rt.stdin(), &mut space)?;
    if 65536 < n {
        return rt.write_all(b"stop 0 11 0 0\n");
    }
    let mut row = OutputRow {
        bytes: [0; 131072],
        end: 0,
    };
    print_records(&mut rt.stdout(), rules, &space[..n], &mut row)
}
