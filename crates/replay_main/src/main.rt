// Replays a list of inputs: reads many files from standard input, each after a line `file LENGTH`, and prints the answer to each and a line `end`.
#![tactic(auto)]

use lines::Num;
use std::io;
use std::io::Read;

// The most of a list that is read.
const MOST: u64 = 1_048_576;

fn answer(rt: &impl Print, input: &[u8]) -> io::Result<()> {
    let mut out = [0u8; count::ROOM];
    let k = count::count_text(input, &mut out);
    rt.write_all(&out[..k])?;
    println!(rt; "end")
}

// The list is left at the first thing in it that is no file. The loop goes on by a file, as long as its line says, and counts nothing.
fn replay(rt: &impl Print, list: &[u8]) -> io::Result<()> {
    let mut at = 0;
    while at < list.len() {
        let Some(Num { value, next }) = lines::dec_line(list, at, b"file ") else {
            return Ok(());
        };
        let n = value as usize;
        if list.len() - next < n {
            return Ok(());
        }
        let e = next + n;
        answer(rt, &list[next..e])?;
        at = e;
    }
    Ok(())
}

fn main(rt: HostRuntime) -> io::Result<()> {
    let mut list = Vec::new(rt.alloc());
    rt.stdin().take(MOST).read_to_end(&mut list)?;
    replay(&rt, list.as_slice())
}
