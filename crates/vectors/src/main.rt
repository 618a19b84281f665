// Each step of standard input is the number of a line's edition and then a burst. Plays the burst on such a line with a fresh
// sample wall, and once more, and prints the number, the burst and its two answers.
#![tactic(auto)]

use packet::Edition;
use sample::{Answer, Bytes};
use std::io;

fn answer(rt: &impl Print, edition: Edition, burst: &[u8]) -> io::Result<()> {
    let first = Answer(edition, sample::reply_to(edition, burst));
    let second = Answer(edition, sample::reply_again(edition, burst));
    println!(rt; " {} {first} {second}", Bytes(burst))
}

// A burst on a line that is opened with this number.
fn play_on(rt: &impl Print, number: u8, burst: &[u8]) -> io::Result<()> {
    print!(rt; "{number}")?;
    match Edition::try_from(u32::from(number)) {
        Ok(edition) => answer(rt, edition, burst),
        Err(unknown) => println!(rt; " refused {}", u8::from(unknown)),
    }
}

fn play(rt: &impl Print, step: &[u8]) -> io::Result<()> {
    match step {
        [] => println!(rt; "unknown"),
        [number, burst @ ..] => play_on(rt, *number, burst),
    }
}

fn run(rt: &(impl Print + Input)) -> io::Result<()> {
    text::each_step(rt, (), |_, _, step| play(rt, step))
}

fn main(rt: HostRuntime) -> io::Result<()> {
    run(&rt)
}
