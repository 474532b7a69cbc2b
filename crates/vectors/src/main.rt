// Holds what is said of blocks to the lines that are expected of them.
#![tactic(auto)]

mod blocks;

use crate::blocks::Blocks;
use recording::Recording;
use std::io::{BufRead, BufReader};

fn main(rt: HostRuntime) -> anyhow::Result<()> {
    run(&rt)
}

fn run(rt: &HostRuntime) -> anyhow::Result<()> {
    let mut input = BufReader::new(rt.alloc(), rt.stdin())?;
    let mut recording = Recording::new(rt.alloc());
    let mut blocks = Blocks::new(rt.alloc());
    let mut line = Vec::new(rt.alloc());
    for number in 1..u64::MAX {
        line.clear();
        if input.read_until(b'\n', &mut line)? == 0 {
            break;
        }
        match line.strip_prefix(b"= ") {
            Some(expected) => blocks.expect(number, expected)?,
            None => recording.collect_line(&mut blocks, number, line.as_slice())?,
        }
    }
    blocks.close()?;
    rt.print(blocks.bench().text())?;
    rt.println(blocks.bench().score())?;
    blocks.bench().score().verdict()?;
    Ok(())
}
