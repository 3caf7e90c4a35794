// The report of a replay.
ghost use Rattle.std.specs.Prelude.{◌≡◌, ◌++◌, IfOk, OnOk};
ghost use Rattle.window_log.specs.Reports.{row, report_of};

use crate::session::{Session, Standing, StepError};
use congestion::controller::Controller;
use measurements::lines::Lines;
use measurements::parts::{is_skipped, without_return};
use std::alloc::{AllocError, Global};
use values::rtt::Rtt;

// The line and what became of it, if anything did.
fn put_row(
    heap: Global,
    report: &mut Vec<u8>,
    line: &[u8],
    outcome: Result<Option<Standing>, StepError>,
) -> Result<(), AllocError>
    ensures { OnOk result (report.new.items ≡ report.old.items ++ row line.now outcome) }
{
    let text = match outcome {
        Ok(None) => return Ok(()),
        Ok(Some(standing)) => format!(in heap; ": {standing}\n")?,
        Err(error) => format!(in heap; ": {error}\n")?,
    };
    report.extend_from_slice(line)?;
    report.extend_from_slice(text.as_bytes())
}

/// The report of a whole log: each line, and the window and threshold after it or what is wrong with it.
pub fn replay<C: Controller + Drop>(
    heap: Global,
    controller: C,
    initial_rtt: Rtt,
    log: &[u8],
) -> Result<Vec<u8>, AllocError>
    ensures { IfOk result (λ v. v.items ≡ report_of C.rules (C.model controller) initial_rtt.nanos log.now) }
{
    let mut session = Session::new(controller, initial_rtt);
    let mut report = Vec::new(heap);
    for line in Lines::new(log) {
        let line = without_return(line);
        // `step` says of it that it comes to nothing, and it then costs an outcome and a row.
        if is_skipped(line) {
            continue;
        }
        let outcome = session.step(line);
        put_row(heap, &mut report, line, outcome)?;
    }
    Ok(report)
}
