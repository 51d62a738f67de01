// The report on a file: a line for each of its lines, and a summary.
ghost use Rattle.std.specs.Prelude.{◌≡◌, ◌^◌, ◌<◌, ◌≤◌, ◌++◌, length, IfOk, string_bytes, OnOk, Some};
ghost use Rattle.cells.specs.Refusals.{answer, gives, number_of};
ghost use Rattle.text.specs.Pieces.{pieces};
ghost use Rattle.locate.specs.Drafts.{Noted};
ghost use Rattle.locate.specs.Report.{refusal_line, shown, summary, answers, end_answers, line_answers, report_of};

use crate::line::{Place, levels_of, locate_line};
use cells::refusal::Refusal;
use std::alloc::{AllocError, Global};
use std::fmt::{self, Write};
use text::piece::cut_at;

pub const MOST_BYTES: usize = 16_384;

// A refusal and the line of the file where it came, printed as a line.
#[derive(Clone, Copy, PartialEq, Eq, Debug)]
struct Refused {
    refusal: Refusal,
    line: u32,
}

impl fmt::Display for Refused {
    ghost output = { λ refused. Some (refusal_line (number_of refused.refusal) refused.line) };

    fn fmt<W: fmt::Write>(&self, f: &mut fmt::Formatter<W>) -> fmt::Result {
        writeln!(f, "refused {} at {}", self.refusal, self.line)
    }
}

// The report that is a refusal alone.
fn refusal_line(heap: Global, refusal: Refusal, line: u32) -> Result<String, AllocError>
    ensures { IfOk result (λ s. string_bytes s ≡ refusal_line (number_of refusal) line) }
{
    format!(in heap; "{}", Refused { refusal, line })
}

// A report that is being written: its text, the next line of the file, and the counts so far.
#[derive(Drop)]
struct Draft {
    text: String,
    line: u32,
    located: u32,
    refused: u32,
}

impl Draft {
    // The answer of the next line.
    fn note(&mut self, found: Result<Place, Refusal>) -> Result<(), AllocError>
        requires { (self.old.line < 2 ^ 31) × ((self.old.located < 2 ^ 31) × (self.old.refused < 2 ^ 31)) }
        ensures { OnOk result (Noted self.old (answer found) self.new) }
    {
        match found {
            Ok(place) => {
                self.located += 1;
                writeln!(self.text, "{place}")?;
            }
            Err(refusal) => {
                self.refused += 1;
                let refused = Refused {
                    refusal,
                    line: self.line,
                };
                write!(self.text, "{refused}")?;
            }
        }
        self.line += 1;
        Ok(())
    }

    // The summary, and with it the whole text.
    fn close(mut self) -> Result<String, AllocError>
        ensures { IfOk result (λ s. string_bytes s ≡ string_bytes self.text ++ summary self.located self.refused) }
    {
        writeln!(
            self.text,
            "located {} refused {}",
            self.located, self.refused
        )?;
        let Draft {
            text,
            line: _,
            located: _,
            refused: _,
        } = self;
        Ok(text)
    }

    // The end of the file: what stands behind the last line feed is no line, or one without its line feed.
    fn finish(mut self, last: &[u8]) -> Result<String, AllocError>
        requires { (self.line < 2 ^ 31) × ((self.located < 2 ^ 31) × (self.refused < 2 ^ 31)) }
        ensures { IfOk result (λ s. string_bytes s ≡ string_bytes self.text ++ answers self.line self.located self.refused (end_answers last.now)) }
    {
        if last.is_empty() {
            return self.close();
        }
        self.note(Err(Refusal::BadLine))?;
        self.close()
    }
}

// The report on the lines after the first.
fn report_lines(heap: Global, levels: u32, lines: &[u8]) -> Result<String, AllocError>
    requires { length lines.now ≤ 16384 }
    ensures { IfOk result (λ s. string_bytes s ≡ answers 2 0 0 (line_answers levels (pieces 10 lines.now))) }
{
    let mut draft = Draft {
        text: String::new(heap),
        line: 2,
        located: 0,
        refused: 0,
    };
    let mut rest = lines;
    // no `split`: what stands behind the last line feed is told apart from the lines
    loop {
        let next = cut_at(rest, b'\n');
        let Some(after) = next.rest else {
            return draft.finish(next.piece);
        };
        draft.note(locate_line(levels, next.piece))?;
        rest = after;
    }
}

// The report on a file.
pub fn report(heap: Global, file: &[u8]) -> Result<String, AllocError>
    ensures { IfOk result (λ s. string_bytes s ≡ report_of file.now) }
{
    if file.len() > MOST_BYTES {
        return refusal_line(heap, Refusal::BadLine, 0);
    }
    let first = cut_at(file, b'\n');
    let Some(lines) = first.rest else {
        return refusal_line(heap, Refusal::BadLine, 1);
    };
    match levels_of(first.piece) {
        Ok(levels) => report_lines(heap, levels, lines),
        Err(refusal) => refusal_line(heap, refusal, 1),
    }
}
