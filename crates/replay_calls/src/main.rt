// Replays recorded calls: a call on each line of the input, and on each line of the output the state after it and its
// answer, if it has one. A line `module NAME` says whose calls follow; each sequence of calls starts with `new`.
#![tactic(auto)]

ghost use Rattle.replay_calls.specs.Recordings.{ReadsCall};

mod bbr_controller_calls;
mod bw_calls;
mod call;
mod controller_calls;
mod min_max_calls;
mod pacer_calls;
mod recording;
mod replayed;
mod rtt_calls;

use crate::call::{Call, FromCall, OrNone};
use crate::controller_calls::Controlled;
use crate::recording::{Module, Recording};
use crate::replayed::{Replayed, StateOf};
use anyhow::anyhow;
use bandwidth::bw_estimation::BandwidthEstimation;
use bbr::bbr::Bbr;
use cubic::cubic::Cubic;
use draws::recorded::Recorded;
use draws::xorshift::Xorshift;
use filter::min_max::MinMax;
use new_reno::new_reno::NewReno;
use pacing::pacer::Pacer;
use rtt::estimator::RttEstimator;
use std::io::{BufRead, BufReader};

fn reply<S: Replayed>(rt: &impl Print, subject: &S, answer: Option<OrNone>) -> anyhow::Result<()> {
    let state = StateOf(subject);
    match answer {
        Some(answer) => println!(rt; "{state} {answer}")?,
        None => println!(rt; "{state}")?,
    }
    Ok(())
}

// What the call on a line makes. The line goes before the next one is read, however long it is.
fn made<S: FromCall>(line: String) -> anyhow::Result<S> {
    S::from_call(&Call::from(line.as_str()))
}

// Replays a sequence of calls on the subject that the first one makes, and answers the line that begins the next sequence.
fn replay_on<S: Replayed>(
    rt: &impl Print,
    recording: &mut Recording,
    first: String,
) -> anyhow::Result<Option<String>>
    ensures { ReadsCall recording.old recording.new result }
{
    let mut subject = made::<S>(first)?;
    reply(rt, &subject, None)?;
    while let Some(line) = recording.next_call(rt)? {
        let call = Call::from(line.as_str());
        if call.name == "new" {
            return Ok(Some(line));
        }
        let answer = subject.perform(&call)?;
        reply(rt, &subject, answer)?;
    }
    Ok(None)
}

// Replays the sequence that `first` begins, on a subject of the module that was named last.
fn replay_sequence(
    rt: &impl Print,
    recording: &mut Recording,
    first: String,
) -> anyhow::Result<Option<String>>
    ensures { ReadsCall recording.old recording.new result }
{
    match recording.module {
        Module::Rtt => replay_on::<RttEstimator>(rt, recording, first),
        Module::MinMax => replay_on::<MinMax<u64>>(rt, recording, first),
        Module::Bandwidth => replay_on::<BandwidthEstimation>(rt, recording, first),
        Module::Pacer => replay_on::<Pacer>(rt, recording, first),
        Module::NewReno => replay_on::<Controlled<NewReno>>(rt, recording, first),
        Module::Cubic => replay_on::<Controlled<Cubic>>(rt, recording, first),
        Module::Bbr => match Call::from(first.as_str()).word(3)? {
            "recorded" => replay_on::<Controlled<Bbr<Recorded>>>(rt, recording, first),
            "xorshift" => replay_on::<Controlled<Bbr<Xorshift>>>(rt, recording, first),
            _ => Err(anyhow!("no source of draws")),
        },
    }
}

fn replay(rt: &impl Print, mut recording: Recording) -> anyhow::Result<()> {
    let Some(mut first) = recording.next_call(rt)? else {
        return Ok(());
    };
    while let Some(next) = replay_sequence(rt, &mut recording, first)? {
        first = next;
    }
    Ok(())
}

fn main(rt: HostRuntime) -> anyhow::Result<()> {
    let lines = BufReader::new(rt.alloc(), rt.stdin())?.lines(rt.alloc());
    replay(&rt, Recording::new(lines))
}
