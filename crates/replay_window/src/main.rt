// Replays the log on standard input through the controller that the argument names, and prints each line with the
// window and the threshold after it.
#![tactic(auto)]

use bbr::bbr::Bbr;
use bbr::config::BbrConfig;
use congestion::controller::Controller;
use cubic::config::CubicConfig;
use cubic::cubic::Cubic;
use draws::recorded::Recorded;
use new_reno::config::NewRenoConfig;
use new_reno::new_reno::NewReno;
use std::io::{Read, Write};
use std::{env, io};
use values::mtu::Mtu;
use values::rtt::Rtt;
use window_log::report::replay;

const USAGE: &str = "usage: replay_window new_reno|cubic|bbr\n";

fn print_report<C: Controller + Drop>(
    rt: &(impl Input + Print + AllocGlobal),
    controller: C,
) -> io::Result<()> {
    let initial_rtt = Rtt::new(100_000_000).unwrap();
    let mut log = Vec::new(rt.alloc());
    let _ = rt.reader().read_to_end(&mut log)?;
    let report = replay(rt.alloc(), controller, initial_rtt, log.as_slice())?;
    io::writer(rt).write_all(report.as_slice())
}

fn main(rt: HostRuntime) -> io::Result<()> {
    let mtu = Mtu::new(1_200).unwrap();
    let Some(name) = env::args(&rt)?.nth(1) else {
        return print!(rt; "{USAGE}");
    };
    match name.as_str() {
        "new_reno" => print_report(&rt, NewReno::new(NewRenoConfig::default(), 0, mtu)),
        "cubic" => print_report(&rt, Cubic::new(CubicConfig::default(), 0, mtu)),
        "bbr" => {
            // Each place of the cycle that a draw can give, one after the other.
            let draws = Recorded::new([0, 1, 2, 3, 4, 5, 6, 0]);
            print_report(&rt, Bbr::new(BbrConfig::default(), mtu, draws))
        }
        _ => print!(rt; "{USAGE}"),
    }
}
