// Translates the requests of standard input's steps for QX panels, and prints what the answers to their packets say.
#![tactic(auto)]

use packet::LONGEST;
use qx::{Packets, Reply};
use requests::Request;
use std::io;
use text::Digits;

// Prints the packets that stand one behind the other, a space between two.
fn print_packets(rt: &impl Print, packets: Packets, out: &[u8]) -> io::Result<()> {
    let mut left = out;
    for (k, size) in packets.sizes.iter().take(packets.count).enumerate() {
        if k != 0 {
            print!(rt; " ")?;
        }
        print!(rt; "{}", Digits(text::front(left, *size)))?;
        left = left.get(*size..).unwrap_or(&[]);
    }
    println!(rt)
}

// Says that a step is neither of the two, or is cut short.
fn unknown(rt: &impl Print) -> io::Result<()> {
    println!(rt; "unknown")
}

// Translates the request that a step tells; it is then the last.
fn play_request(
    rt: &impl Print,
    last: Option<Request>,
    told: Option<Request>,
) -> io::Result<Option<Request>> {
    let Some(request) = told else {
        unknown(rt)?;
        return Ok(last);
    };
    let mut out = [0u8; LONGEST];
    match qx::translate(request, &mut out) {
        Ok(packets) => {
            print_packets(rt, packets, &out)?;
            Ok(told)
        }
        Err(refusal) => {
            println!(rt; "refused {}", u8::from(refusal))?;
            Ok(last)
        }
    }
}

// Prints what a panel says.
fn print_reply(rt: &impl Print, reply: Reply) -> io::Result<()> {
    match reply {
        Reply::Ack => println!(rt; "ack"),
        Reply::Nack => println!(rt; "nack"),
        Reply::Nav => println!(rt; "nav"),
        Reply::Report(value) => println!(rt; "report {value:02X}"),
    }
}

// Tells what the answers to the last request that was translated say.
fn play_answers(rt: &impl Print, last: Option<Request>, answers: &[u8]) -> io::Result<()> {
    let Some(request) = last else {
        return unknown(rt);
    };
    match qx::hear(request, answers) {
        Some(Ok(reply)) => print_reply(rt, reply),
        Some(Err(wrong)) => println!(rt; "refused {}", u8::from(wrong)),
        None => unknown(rt),
    }
}

// One step: its kind, 1 for a request and 2 for answers, and what stands behind it.
fn play(rt: &impl Print, last: Option<Request>, step: &[u8]) -> io::Result<Option<Request>> {
    match step {
        [1, told @ ..] => play_request(rt, last, request_steps::told_with_model(told)),
        [2, answers @ ..] => {
            play_answers(rt, last, answers)?;
            Ok(last)
        }
        _ => {
            unknown(rt)?;
            Ok(last)
        }
    }
}

// Every step of standard input, in order.
fn run(rt: &(impl Print + Input)) -> io::Result<()> {
    text::each_step(rt, None, |last, number, step| {
        print!(rt; "{number} ")?;
        play(rt, last, step)
    })?;
    Ok(())
}

fn main(rt: HostRuntime) -> io::Result<()> {
    run(&rt)
}
