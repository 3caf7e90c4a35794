// Runs a list of calls on a path above NewReno, and prints what each answered, the window that it met, and the report in the end.
#![tactic(auto)]

use book::call::Step;
use book::run::run;
use book::text::Printed;
use new_reno::config::NewRenoConfig;
use new_reno::new_reno::NewReno;
use std::io;
use values::mtu::Mtu;
use values::opening::Opening;
use values::rtt::Rtt;

const MILLISECOND: u64 = 1_000_000;

fn print(rt: &HostRuntime, steps: &[Step]) -> io::Result<()> {
    for (place, step) in steps.iter().enumerate() {
        let answer = Printed(step.answer);
        let window = step.window;
        println!(rt; "{place} {answer} {window}")?;
    }
    Ok(())
}

fn main(rt: HostRuntime) -> io::Result<()> {
    let mtu = Mtu::new(1_200).unwrap();
    let opening = Opening::new(0, mtu, Rtt::new(100 * MILLISECOND).unwrap(), 0).unwrap();
    let mut steps = [
        Step::grant(1_201, MILLISECOND),
        Step::grant(1_200, MILLISECOND),
        Step::ack(0, MILLISECOND),
        Step::transmit(),
        Step::transmit(),
        Step::grant(1_200, 0),
        Step::grant(1_200, 2 * MILLISECOND),
        Step::withdraw(),
        Step::ack(0, 51 * MILLISECOND),
        Step::ack(0, 51 * MILLISECOND),
        Step::end(51 * MILLISECOND),
        Step::grant(1_200, 52 * MILLISECOND),
        Step::transmit(),
        Step::lose(2, 60 * MILLISECOND),
        Step::end(60 * MILLISECOND),
    ];
    let mut purse = [None];
    let controller = NewReno::new(NewRenoConfig::default(), 0, mtu);
    let mut path = run(controller, opening, &mut steps, &mut purse);
    let [left] = purse;
    if let Some(permit) = left {
        path.withdraw(permit).unwrap();
    }
    print(&rt, &steps)?;
    let report = path.report();
    let numbers = report.handed_out;
    let counts = report.counts;
    println!(rt;
        "{numbers} handed out: {} held, {} in flight, {} acknowledged, {} lost, {} withdrawn",
        counts.held, counts.in_flight, counts.acknowledged, counts.lost, counts.withdrawn,
    )
}
