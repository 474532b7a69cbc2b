// Codes by the letters that the feed has for them.
ghost use Rattle.row_lines.specs.Codes.{letter};
ghost use Rattle.std.specs.Prelude.{Some};

use std::fmt;
use wire_types::Code;

/// A code by the character of its byte.
#[derive(Clone, Copy)]
pub(crate) struct CodeLetter<C>(pub(crate) C);

impl<C: Code> fmt::Display for CodeLetter<C> {
    ghost output = { λ x. Some (letter (C.byte_of x.0)) };

    fn fmt<W: fmt::Write>(&self, f: &mut fmt::Formatter<W>) -> fmt::Result {
        f.write_char(char::from(self.0.byte()))
    }
}
