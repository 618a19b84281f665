// The play program: the bursts of standard input, played through the receiver that keeps a whole packet.
#![tactic(auto)]

use line::Receiver;
use std::io;

fn main(rt: HostRuntime) -> io::Result<()> {
    play_line::run::<Receiver>(&rt)?;
    Ok(())
}
