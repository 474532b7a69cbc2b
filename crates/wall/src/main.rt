// Plays a recording to a book, and shows the market that comes of it.
#![tactic(auto)]

mod log;
mod options;
mod show;

use crate::log::Log;
use crate::options::{Follow, parse_options};
use anyhow::anyhow;
use book::{Board, Book, MOST_ROWS, Watch, check_rows};
use market::Row;
use recording::{PIECE, Recording};
use std::io::{BufRead, BufReader, Read, Write};
use std::{env, fs, io};

fn main(rt: HostRuntime) -> anyhow::Result<()> {
    run(&rt)
}

fn run(rt: &HostRuntime) -> anyhow::Result<()> {
    let words: Vec<String> = env::args(rt)?.skip(1).collect(rt.alloc())?;
    let Some(options) = parse_options(words.as_slice()) else {
        return Err(anyhow!("use: wall [--rows N | --watch SYMBOL] [FILE]"));
    };
    match options.follow {
        Follow::Every { rows } => on_board(rt, rows, options.file),
        Follow::One { symbol } => play_file(rt, Watch::new(&symbol)?, options.file),
    }
}

/// Follows every symbol, on so many rows.
fn on_board(rt: &HostRuntime, rows: usize, file: Option<&str>) -> anyhow::Result<()> {
    // One row too many is refused as more are.
    let mut rows = vec![in rt.alloc(); Row::blank(); rows.min(MOST_ROWS + 1)]?;
    check_rows(rows.as_slice())?;
    play_file(rt, Board::new(rows.as_mut_slice()), file)
}

fn play_file<B: Book + Drop>(rt: &HostRuntime, book: B, file: Option<&str>) -> anyhow::Result<()> {
    let Some(path) = file else {
        return play_lines(rt, book, rt.stdin());
    };
    let file = fs::open(rt, path).map_err(|e| anyhow!("{path}: {e}"))?;
    play_lines(rt, book, file)
}

fn play_lines<B: Book + Drop, R: Read + Drop>(
    rt: &HostRuntime,
    book: B,
    input: R,
) -> anyhow::Result<()> {
    let mut input = BufReader::new(rt.alloc(), input)?;
    let mut recording = Recording::new(rt.alloc());
    let mut log = Log::new(rt.alloc(), book);
    let mut out = io::writer(rt);
    let mut line = Vec::new(rt.alloc());
    for number in 1..u64::MAX {
        line.clear();
        if input.read_until(b'\n', &mut line)? == 0 {
            break;
        }
        log.add_line(&mut recording, number, line.as_slice())?;
        if log.text().len() >= PIECE {
            out.write_all(log.text().as_bytes())?;
            log.clear();
        }
    }
    out.write_all(log.text().as_bytes())?;
    out.write_all(log.market()?.as_bytes())?;
    Ok(())
}
