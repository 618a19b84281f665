// Drives the host side over the steps of standard input and prints what comes of each.
#![tactic(auto)]

use host::{End, Host, Outcome, Step};
use models::Model;
use packet::{Edition, LONGEST};
use requests::Request;
use settings::Profile;
use std::io;
use text::Digits;
use tiling::Kind;

// Prints what has become of the request, and behind it a report's values.
fn print_outcome(rt: &impl Print, outcome: Outcome, values: &[u8]) -> io::Result<()> {
    match outcome {
        Outcome::Over(End::Report, _) => print!(rt; "{outcome} {}", Digits(values)),
        _ => print!(rt; "{outcome}"),
    }
}

// Prints the packet given out or a dash, what has become of the request, and what was wrong with the burst.
fn show(rt: &impl Print, step: Step, out: &[u8]) -> io::Result<Host> {
    if step.length == 0 {
        print!(rt; "-")?;
    } else {
        print!(rt; "{}", Digits(text::front(out, step.length)))?;
    }
    print!(rt; " ")?;
    let values = step.values;
    let outcome = step.outcome;
    print_outcome(rt, outcome, text::front(&values, step.count))?;
    if let Some(damage) = step.damage {
        print!(rt; " {damage}")?;
    }
    println!(rt)?;
    Ok(step.host)
}

// Says that a step is none of the five.
fn unknown(rt: &impl Print, host: Host) -> io::Result<Host> {
    println!(rt; "- unknown")?;
    Ok(host)
}

// The request that a step tells is started.
fn play_start(rt: &impl Print, host: Host, told: Option<Request>) -> io::Result<Host> {
    let Some(request) = told else {
        return unknown(rt, host);
    };
    let mut out = [0u8; LONGEST];
    let step = host.start(request, &mut out);
    show(rt, step, &out)
}

// The host is opened anew on a line of the edition that has this number; where none has, it stays.
fn play_open(rt: &impl Print, host: Host, number: u8) -> io::Result<Host> {
    match Edition::try_from(u32::from(number)) {
        Ok(edition) => {
            println!(rt; "- idle")?;
            Ok(Host::open(edition))
        }
        Err(unknown) => {
            println!(rt; "- refused {}", u8::from(unknown))?;
            Ok(host)
        }
    }
}

// One step: its kind, 1 for a start, 2 for a burst, 3 for the mark, 4 for a start with a model, 5 for a line opened, and what
// stands behind it.
fn play(rt: &impl Print, host: Host, step: &[u8]) -> io::Result<Host> {
    let mut out = [0u8; LONGEST];
    match step {
        [1, told @ ..] => {
            let model = Model {
                profile: Profile::General,
                kind: Kind::FiveByFive,
            };
            play_start(rt, host, request_steps::told_for(model, told))
        }
        [2, burst @ ..] => {
            let step = host.hear(burst, &mut out);
            show(rt, step, &out)
        }
        [3] => {
            let step = host.mark(&mut out);
            show(rt, step, &out)
        }
        [4, told @ ..] => play_start(rt, host, request_steps::told_with_model(told)),
        [5, number] => play_open(rt, host, *number),
        _ => unknown(rt, host),
    }
}

// Every step of standard input, in order.
fn run(rt: &(impl Print + Input)) -> io::Result<()> {
    text::each_step(rt, Host::open(Edition::Sicp201), |host, number, step| {
        print!(rt; "{number} ")?;
        play(rt, host, step)
    })?;
    Ok(())
}

fn main(rt: HostRuntime) -> io::Result<()> {
    run(&rt)
}
