// The legs of an instrument.
ghost use Rattle.market.specs.Legs.{leg_count};
ghost use Rattle.std.specs.Prelude.{◌≡◌};

use crate::row::Definition;

impl Definition {
    /// How many legs the instrument has; one that is no spread has none.
    pub fn leg_count(&self) -> usize
        ensures { result ≡ leg_count self.now.legs }
    {
        self.legs.iter().filter(|leg| leg.is_some()).count()
    }
}
