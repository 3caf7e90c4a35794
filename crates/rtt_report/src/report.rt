// The report of a replay.
ghost use Rattle.std.specs.Prelude.{◌≡◌, ◌++◌, IfOk, OnOk, string_bytes};
ghost use Rattle.rtt_report.specs.Reports.{row, report_of};

use crate::session::{Session, StepError, Taken};
use measurements::lines::Lines;
use std::alloc::{AllocError, Global};
use values::rtt::Rtt;

// Writes the line of the report, or nothing.
fn put_row(text: &mut String, outcome: Result<Option<Taken>, StepError>) -> Result<(), AllocError>
    ensures { OnOk result (string_bytes text.new ≡ string_bytes text.old ++ row outcome) }
{
    match outcome {
        Ok(None) => Ok(()),
        Ok(Some(taken)) => writeln!(text, "{taken}"),
        Err(fault) => writeln!(text, "{fault}"),
    }
}

// The report of a whole input: a line for each sample and for each line that is none, and the counts.
pub fn replay(heap: Global, initial_rtt: Rtt, input: &[u8]) -> Result<String, AllocError>
    ensures { IfOk result (λ s. string_bytes s ≡ report_of initial_rtt.nanos input.now) }
{
    let mut session = Session::new(initial_rtt);
    let mut text = String::new(heap);
    for line in Lines::new(input) {
        put_row(&mut text, session.step(line))?;
    }
    text.push_str(session.summary(heap)?.as_str())?;
    Ok(text)
}
