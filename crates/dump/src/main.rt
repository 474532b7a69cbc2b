// Says in words what the blocks of a recording hold.
#![tactic(auto)]

mod log;

use crate::log::Log;
use anyhow::anyhow;
use recording::{PIECE, Recording};
use std::io::{BufRead, BufReader, Read, Write};
use std::{env, fs, io};

fn main(rt: HostRuntime) -> anyhow::Result<()> {
    run(&rt)
}

fn run(rt: &HostRuntime) -> anyhow::Result<()> {
    let mut args = env::args(rt)?.skip(1);
    let file = args.next();
    if args.next().is_some() {
        return Err(anyhow!("use: dump [FILE]"));
    }
    let Some(path) = file else {
        return dump(rt, rt.stdin());
    };
    let file = fs::open(rt, path.as_str()).map_err(|e| anyhow!("{path}: {e}"))?;
    dump(rt, file)
}

fn dump<R: Read + Drop>(rt: &HostRuntime, input: R) -> anyhow::Result<()> {
    let mut input = BufReader::new(rt.alloc(), input)?;
    let mut recording = Recording::new(rt.alloc());
    let mut log = Log::new(rt.alloc());
    let mut out = io::writer(rt);
    let mut line = Vec::new(rt.alloc());
    for number in 1..u64::MAX {
        line.clear();
        if input.read_until(b'\n', &mut line)? == 0 {
            break;
        }
        recording.collect_line(&mut log, number, line.as_slice())?;
        if log.text().len() >= PIECE {
            out.write_all(log.text().as_bytes())?;
            log.clear();
        }
    }
    out.write_all(log.text().as_bytes())?;
    rt.println(log.tally())?;
    Ok(())
}
