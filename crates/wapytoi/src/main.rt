// Plays a script from standard input, and prints one line for each action.
#![tactic(auto)]

use script::{Answer, play_line};
use std::io::{BufRead, BufReader};

fn run(rt: &HostRuntime) -> anyhow::Result<()> {
    let heap = rt.alloc();
    for line in BufReader::new(heap, rt.stdin())?.split(heap, b'\n') {
        match play_line(heap, line?.as_slice())? {
            Answer::Nothing => {}
            answer => println!(rt; "{answer}")?,
        }
    }
    Ok(())
}

fn main(rt: HostRuntime) -> anyhow::Result<()> {
    run(&rt)
}
