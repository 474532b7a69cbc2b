// The order of symbols.
ghost use Rattle.market.specs.Symbols.{precedes};
ghost use Rattle.std.specs.Prelude.{◌≡◌};

/// Whether a symbol stands before another, byte by byte.
#[tactic(auto, unfolding(crate::specs::Symbols::against))]
pub fn comes_before(a: &[u8; 6], b: &[u8; 6]) -> bool
    ensures { result ≡ precedes a.now b.now }
{
    a.cmp(b).is_lt()
}
