// The legs of a spread: how they lie in bytes, and how to go over them.
ghost use Rattle.std.specs.Prelude.{◌≡◌, length};
ghost use Rattle.std.specs.Iterator.{YieldsFirstBy, item_count};
ghost use Rattle.std.specs.List.{slice_get};
ghost use Rattle.std.specs.Option.{option_map};
ghost use Rattle.wire_types.specs.Legs.{leg_of, legs_in};
ghost use Rattle.wire_types.specs.Records.{leg_meaning, legs_left, legs_meaning};

use crate::instrument::{Leg, Legs};

impl From<&[u8; 10]> for Leg {
    ghost from_gives = { λ row leg. leg_meaning leg ≡ leg_of row.now };

    fn from(row: &[u8; 10]) -> Leg {
        Leg {
            ratio: i32::from_le_bytes(*row.first_chunk().unwrap()),
            symbol: *row[4..].first_chunk().unwrap(),
        }
    }
}

/// As many legs as there are whole rows of ten bytes.
impl<'a> From<&'a [u8]> for Legs<'a> {
    ghost from_gives = { λ bytes legs. legs_meaning legs ≡ legs_in bytes.now };

    #[tactic(auto, using(crate::proofs::Rows::row_legs))]
    fn from(bytes: &'a [u8]) -> Legs<'a> {
        let (rows, _) = bytes.as_chunks();
        Legs { rows }
    }
}

impl<'a> Legs<'a> {
    /// How many legs there are.
    pub fn count(self) -> usize
        ensures { result ≡ length (legs_meaning self.entry) }
    {
        self.rows.len()
    }

    /// The leg at a place from 0, or none past the last.
    pub fn get(self, i: usize) -> Option<Leg>
        ensures { option_map leg_meaning result ≡ slice_get (legs_meaning self.entry) i }
    {
        self.rows.get(i).map(|row| Leg::from(row))
    }
}

impl<'a> IntoIterator for Legs<'a> {
    type Item = Leg;

    type IntoIter = LegIter<'a>;

    ghost into_iter_gives = { λ legs it. legs_left it ≡ legs_meaning legs };

    fn into_iter(self) -> LegIter<'a> {
        LegIter { left: self }
    }
}

/// Goes over the legs of a spread.
#[derive(Drop)]
pub struct LegIter<'a> {
    left: Legs<'a>,
}

impl Iterator for LegIter<'_> {
    type Item = Leg;

    ghost next_gives = { YieldsFirstBy leg_meaning legs_left };

    ghost remaining = { item_count legs_left };

    fn next(&mut self) -> Option<Leg> {
        let (row, behind) = self.left.rows.split_first()?;
        self.left = Legs { rows: behind };
        Some(Leg::from(row))
    }
}
