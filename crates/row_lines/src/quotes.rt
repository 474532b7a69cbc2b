// The quote part of a row as part of its line.
ghost use Rattle.row_lines.specs.Parts.{quote_part, trade_part, quotes_part};
ghost use Rattle.std.specs.Prelude.{Some};

use crate::code::CodeLetter;
use market::Quotes;
use std::fmt;
use wire_types::{Code, LastTrade, Quote};
use wire_words::{HexByte, OrDash};

#[derive(Clone, Copy)]
pub(crate) struct QuotesPart(pub(crate) Quotes);

impl fmt::Display for QuotesPart {
    ghost output = { λ x. Some (quotes_part x.0) };

    fn fmt<W: fmt::Write>(&self, f: &mut fmt::Formatter<W>) -> fmt::Result {
        let quotes = self.0;
        write!(
            f,
            "bid {} ask {} last {} volume {} status {}",
            OrDash(quotes.bid.map(QuotePart)),
            OrDash(quotes.ask.map(QuotePart)),
            OrDash(quotes.last.map(TradePart)),
            quotes.volume,
            CodeLetter(quotes.status),
        )
    }
}

#[derive(Clone, Copy)]
struct QuotePart(Quote);

impl fmt::Display for QuotePart {
    ghost output = { λ x. Some (quote_part (Some x.0)) };

    fn fmt<W: fmt::Write>(&self, f: &mut fmt::Formatter<W>) -> fmt::Result {
        let Quote { price, quantity } = self.0;
        write!(f, "{price} {quantity}")
    }
}

#[derive(Clone, Copy)]
struct TradePart(LastTrade);

impl fmt::Display for TradePart {
    ghost output = { λ x. Some (trade_part (Some x.0)) };

    fn fmt<W: fmt::Write>(&self, f: &mut fmt::Formatter<W>) -> fmt::Result {
        let LastTrade {
            price,
            size,
            condition,
        } = self.0;
        write!(f, "{price} {size} {}", HexByte(condition.byte()))
    }
}
