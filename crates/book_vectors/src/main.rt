// Drives books by a script, and holds what they answer to the lines that are expected.
#![tactic(auto)]

mod answer;
mod command;
mod making;
mod script;

use crate::answer::answer;
use crate::making::{Made, Rows};
use crate::script::Script;
use book::Board;
use std::alloc::{AllocError, Global};
use std::io::Read;

fn main(rt: HostRuntime) -> anyhow::Result<()> {
    run(&rt)
}

fn run(rt: &HostRuntime) -> anyhow::Result<()> {
    let mut text = String::new(rt.alloc());
    rt.stdin().read_to_string(&mut text)?;
    let mut script = Script::new(rt.alloc(), text.as_str());
    drive(rt.alloc(), &mut script)?;
    rt.print(script.bench().text())?;
    let score = script.bench().score();
    rt.println(score)?;
    score.verdict()?;
    Ok(())
}

/// Puts every line of the script to the book that is at hand there.
fn drive(heap: Global, script: &mut Script<'_>) -> Result<(), AllocError> {
    let mut made = script.drive(|_| String::from_str(heap, "no book\n"))?;
    // Counted, since a `while let` would need a measure: the lines left, which a `for` over a lent iterator does not tell.
    for _ in 0..u64::MAX {
        made = match made {
            None => break,
            Some(Made::Board(rows)) => drive_board(heap, script, rows)?,
            Some(Made::Watch(mut watch)) => {
                script.drive(|question| answer(heap, &mut watch, question))?
            }
        };
    }
    script.close()
}

fn drive_board(
    heap: Global,
    script: &mut Script<'_>,
    mut rows: Rows,
) -> Result<Option<Made>, AllocError> {
    let mut board = Board::new(rows.rows.as_mut_slice());
    script.drive(|question| answer(heap, &mut board, question))
}
