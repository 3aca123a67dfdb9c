// Reads commands on the standard input, one a line, and prints what it did or why it refused.
#![tactic(auto)]

use command::LONGEST;
use input::LineFront;
use std::io::Read;

mod buffers;
mod console;
mod problem;
mod show;

use console::Console;

fn main(rt: HostRuntime) -> anyhow::Result<()> {
    run(&rt)
}

// A line ends at a line feed, which the last one may lack; after a final line feed no further line begins.
fn run(rt: &HostRuntime) -> anyhow::Result<()> {
    let mut input = rt.stdin();
    let mut chunk = [0u8; 4096];
    let mut front = LineFront::new(rt.alloc(), LONGEST + 1);
    let mut console = Console::new(rt.alloc())?;
    // a count, so that the loop is seen to end
    for _ in 0..u64::MAX {
        let n = input.read(&mut chunk)?;
        if n == 0 {
            break;
        }
        for byte in &chunk[0..n] {
            if *byte == b'\n' {
                console.answer(rt, front.bytes())?;
                front.clear();
            } else {
                front.put(*byte)?;
            }
        }
    }
    if !front.bytes().is_empty() {
        console.answer(rt, front.bytes())?;
    }
    Ok(())
}
