// A text in pieces: a file in lines, a line in fields.
ghost use Rattle.std.specs.Prelude.{◌≡◌, ◌<◌, length, IfSome};
ghost use Rattle.std.specs.Option.{option_map};
ghost use Rattle.text.specs.Pieces.{pieces, cut_pieces};

use cells::row::{Items, search};

// A text cut at its first separator: what stands before it, and what follows. Without a separator nothing follows.
#[derive(Clone, Copy, PartialEq, Eq, Debug)]
pub struct Cut<'a> {
    pub piece: &'a [u8],
    pub rest: Option<&'a [u8]>,
}

// A text cut at its first separator.
pub fn cut_at(bytes: &[u8], separator: u8) -> Cut<'_>
    ensures pieces { pieces separator bytes.now ≡ cut_pieces separator result.piece.now (option_map (λ x. x.now) result.rest) }
    ensures shorter { IfSome result.rest (λ rest. length rest.now < length bytes.now) }
{
    match search(&Items { items: bytes }, &separator) {
        None => Cut {
            piece: bytes,
            rest: None,
        },
        Some(n) => Cut {
            piece: &bytes[..n],
            rest: Some(&bytes[n + 1..]),
        },
    }
}
