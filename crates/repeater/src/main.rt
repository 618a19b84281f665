// The repeater: the play program, through the small receiver.
#![tactic(auto)]

use small_receiver::SmallReceiver;
use std::io;

fn main(rt: HostRuntime) -> io::Result<()> {
    play_line::run::<SmallReceiver>(&rt)?;
    Ok(())
}
