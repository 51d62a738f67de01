// One line of the file: a code, or a cell by its three coordinates.
ghost use Rattle.std.specs.Prelude.{◌≡◌, Some};
ghost use Rattle.std.specs.Option.{option_map};
ghost use Rattle.cells.specs.Refusals.{answer};
ghost use Rattle.text.specs.Numbers.{number_in};
ghost use Rattle.text.specs.Pieces.{pieces};
ghost use Rattle.locate.specs.Lines.{place_text, with_number, with_cell, code_place, cell_place, line_answer, first_field, levels_answer};

use cells::hall::{Cell, code_of};
use cells::levels::Levels;
use cells::refusal::Refusal;
use std::fmt;
use text::number::{long_number, number};
use text::piece::cut_at;

// A cell of the hall with its code.
#[derive(Clone, Copy, PartialEq, Eq, Debug)]
pub struct Place {
    pub cell: Cell,
    pub code: u32,
}

impl fmt::Display for Place {
    ghost output = { λ place. Some (place_text place) };

    fn fmt<W: fmt::Write>(&self, f: &mut fmt::Formatter<W>) -> fmt::Result {
        write!(f, "cell {} code {}", self.cell, self.code)
    }
}

// The place of a code, as it is written in a field.
fn place_of_code(levels: u32, field: &[u8]) -> Result<Place, Refusal>
    ensures { answer result ≡ with_number (number_in 10 field.now) (code_place levels) }
{
    let number = long_number(field).ok_or(Refusal::BadLine)?;
    let levels = Levels::try_from(levels)?;
    // `map_err` with `?`, and `ok` with `ok_or`, were tried: that the number is past all codes stayed open in the proof
    let Ok(code) = u32::try_from(number) else {
        return Err(Refusal::Outside);
    };
    let cell = levels.cell_of(code)?;
    Ok(Place { cell, code })
}

// The place of a cell, as its three coordinates are written in fields.
fn place_of_cell(levels: u32, x: &[u8], y: &[u8], z: &[u8]) -> Result<Place, Refusal>
    ensures { answer result ≡ with_cell (number_in 6 x.now) (number_in 6 y.now) (number_in 6 z.now) (cell_place levels) }
{
    let x = number(x).ok_or(Refusal::BadLine)?;
    let y = number(y).ok_or(Refusal::BadLine)?;
    let z = number(z).ok_or(Refusal::BadLine)?;
    let cell = Cell { x, y, z };
    let code = code_of(levels, cell)?;
    Ok(Place { cell, code })
}

// What one line of the file points at, without its line feed. The levels come as a plain number, as from any caller,
// so that a wrong one has its refusal.
pub fn locate_line(levels: u32, line: &[u8]) -> Result<Place, Refusal>
    ensures { answer result ≡ line_answer levels (pieces 32 line.now) }
{
    let first = cut_at(line, b' ');
    let Some(rest) = first.rest else {
        return place_of_code(levels, first.piece);
    };
    let second = cut_at(rest, b' ');
    let rest = second.rest.ok_or(Refusal::BadLine)?;
    let third = cut_at(rest, b' ');
    let None = third.rest else {
        return Err(Refusal::BadLine);
    };
    place_of_cell(levels, first.piece, second.piece, third.piece)
}

// What follows the letter and the space of a first line.
fn first_field(line: &[u8]) -> Option<&[u8]>
    ensures { option_map (λ x. x.now) result ≡ first_field line.now }
{
    match line {
        [b'L', b' ', field @ ..] => Some(field),
        _ => None,
    }
}

// The levels that the first line of the file names.
pub fn levels_of(line: &[u8]) -> Result<u32, Refusal>
    ensures { answer result ≡ levels_answer line.now }
{
    let field = first_field(line).ok_or(Refusal::BadLine)?;
    let levels = number(field).ok_or(Refusal::BadLine)?;
    Ok(Levels::try_from(levels)?.count)
}
