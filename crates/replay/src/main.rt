// Plays lines whose answers are known, and says which are answered otherwise.
// Each line stands on its own, and behind it a line `-> ANSWER`, or `->` where nothing is printed.
#![tactic(auto)]

use script::play_line;
use std::alloc::Global;
use std::io::{BufRead, BufReader};

#[derive(Drop)]
struct Tally {
    given: String,
    played: u64,
    differ: u64,
}

impl Tally {
    // Takes one line: a line of a script, or the answer to the one before. Says whether that was answered otherwise.
    fn take(&mut self, heap: Global, line: &[u8]) -> anyhow::Result<bool> {
        match line.strip_prefix(b"->") {
            Some(expected) => Ok(self.compare(expected)),
            None => {
                self.given = play_line(heap, line)?.text(heap)?;
                Ok(false)
            }
        }
    }

    // Compares the last answer with what stands behind the arrow and a blank.
    fn compare(&mut self, expected: &[u8]) -> bool {
        self.played = self.played.saturating_add(1);
        let expected = expected.strip_prefix(b" ").unwrap_or(expected);
        let otherwise = self.given.as_bytes() != expected;
        if otherwise {
            self.differ = self.differ.saturating_add(1);
        }
        otherwise
    }
}

fn run(rt: &HostRuntime) -> anyhow::Result<()> {
    let heap = rt.alloc();
    let mut tally = Tally {
        given: String::new(heap),
        played: 0,
        differ: 0,
    };
    for line in BufReader::new(heap, rt.stdin())?.split(heap, b'\n') {
        if tally.take(heap, line?.as_slice())? {
            println!(rt; "answer {} is {}", tally.played, tally.given.as_str())?;
        }
    }
    println!(rt;
        "{} lines played, {} answered otherwise",
        tally.played, tally.differ
    )?;
    Ok(())
}

fn main(rt: HostRuntime) -> anyhow::Result<()> {
    run(&rt)
}
