// Lines with blanks in front.
ghost use Rattle.std.specs.Prelude.{Some};
ghost use Rattle.wire_report.specs.Lines.{indented};

use std::fmt;

/// The lines of a text, each with two blanks in front.
#[derive(Clone, Copy)]
pub struct Indented<'a>(pub &'a str);

impl fmt::Display for Indented<'_> {
    ghost output = { λ x. Some (indented x.0.now) };

    fn fmt<W: fmt::Write>(&self, f: &mut fmt::Formatter<W>) -> fmt::Result {
        for line in self.0.lines() {
            writeln!(f, "  {line}")?;
        }
        Ok(())
    }
}
