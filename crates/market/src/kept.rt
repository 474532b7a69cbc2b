// What a row keeps of a message.
ghost use Rattle.market.specs.Effects.{defined, in_snapshot, kept_legs, leg_at, limited, settled};
ghost use Rattle.wire_types.specs.Records.{definition_meaning, legs_meaning, limits_meaning, makeup, settlement_meaning, snapshot_meaning};
ghost use Rattle.std.specs.Prelude.{◌≡◌, ◌==◌, if◌then◌else◌, Some, None};

use crate::row::{Definition, Limits, Quotes, Settlement};
use std::array;
use wire_types;
use wire_types::{Leg, PriceLimits, Snapshot, Structure};

/// A value that stands for none where its count is 0.
pub(crate) fn counted<T: Drop>(count: u32, value: T) -> Option<T>
    ensures { result ≡ (if count == 0 then None else Some value) }
{
    (count != 0).then_some(value)
}

impl From<&Snapshot<'_>> for Quotes {
    ghost from_gives = { λ x r. r ≡ in_snapshot (snapshot_meaning x.now) };

    fn from(x: &Snapshot<'_>) -> Quotes {
        Quotes {
            bid: counted(x.bid.quantity, x.bid),
            ask: counted(x.ask.quantity, x.ask),
            last: counted(x.last.size, x.last),
            volume: x.volume,
            status: x.status,
        }
    }
}

impl From<&wire_types::Settlement<'_>> for Settlement {
    ghost from_gives = { λ x r. r ≡ settled (settlement_meaning x.now) };

    fn from(x: &wire_types::Settlement<'_>) -> Settlement {
        Settlement {
            trade_date: x.trade_date,
            price: x.price,
            issue: x.issue,
        }
    }
}

impl From<&PriceLimits<'_>> for Limits {
    ghost from_gives = { λ x r. r ≡ limited (limits_meaning x.now) };

    fn from(x: &PriceLimits<'_>) -> Limits {
        Limits {
            upper: x.upper,
            lower: x.lower,
        }
    }
}

impl From<&wire_types::Definition<'_>> for Definition {
    ghost from_gives = { λ x r. r ≡ defined (definition_meaning x.now) };

    fn from(x: &wire_types::Definition<'_>) -> Definition {
        Definition {
            report_symbol: *x.report_symbol,
            flags: x.flags,
            expiration: x.expiration,
            contract_size: x.contract_size,
            listing: x.listing,
            increment: x.increment,
            contract_date: x.contract_date,
            legs: legs_of(x.structure),
        }
    }
}

/// The legs of a spread; an instrument that is no spread has none.
fn legs_of(structure: Structure<'_>) -> [Option<Leg>; 4]
    ensures { result ≡ kept_legs (makeup structure.entry) }
{
    match structure {
        Structure::Spread(legs) => array::from_fn(
            |place| -> Option<Leg>
                ensures { result ≡ leg_at (legs_meaning legs.entry) place }
            { legs.get(place) },
        ),
        Structure::Outright | Structure::Variance(_) => [None; 4],
    }
}
