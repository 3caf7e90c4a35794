// Replays the round-trip times that standard input holds, and prints the estimate after each.
#![tactic(auto)]

use rtt_report::report::replay;
use std::io;
use std::io::Read;
use values::rtt::Rtt;

// The round-trip time before the first sample: 100 ms.
const INITIAL_RTT: u64 = 100_000_000;

fn main(rt: HostRuntime) -> io::Result<()> {
    let initial_rtt = Rtt::new(INITIAL_RTT).unwrap();
    let mut input = Vec::new(rt.alloc());
    let _ = rt.stdin().read_to_end(&mut input)?;
    let report = replay(rt.alloc(), initial_rtt, input.as_slice())?;
    print!(rt; "{report}")
}
