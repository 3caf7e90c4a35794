// A replay of measurements: the estimator and the counts of what the lines were.
use measurements::line::{LineFault, Measurement, read};
use refusals::Refusal;
use rtt::estimator::RttEstimator;
use std::alloc::{AllocError, Global};
use std::error::Error;
use values::rtt::Rtt;

#[derive(Clone, Copy)]
pub struct Session {
    estimator: RttEstimator,
    taken: u64,
    refused: u64,
    unreadable: u64,
    skipped: u64,
}

// A sample that was taken, and the estimate after it. Its place counts the samples before it, taken or refused.
#[derive(Clone, Copy, Debug, PartialEq, Eq)]
pub struct Taken {
    pub place: u64,
    pub smoothed: u64,
    pub variation: u64,
    pub minimum: u64,
    pub pto_base: u64,
}

// Why a line that is not skipped gave no estimate. Places are those of samples; lines count from 1.
#[derive(Clone, Copy, Debug, PartialEq, Eq)]
pub enum StepError {
    Refused { place: u64, refusal: Refusal },
    Unreadable { line: u64, fault: LineFault },
}

impl Error for StepError {}

impl Session {
    ghost use Rattle.std.specs.Prelude.{◌≡◌, IfOk, string_bytes};
    ghost use Rattle.measurements.specs.Lines.{line_in};
    ghost use Rattle.rtt_report.specs.Reports.{summary_text};
    ghost use Rattle.rtt_report.specs.Sessions.{progress_of, started, place_in, line_number, sampled, after_sample, outcome, next};

    pub fn new(initial_rtt: Rtt) -> Session
        ensures { progress_of result ≡ started initial_rtt.nanos }
    {
        Session {
            estimator: RttEstimator::new(initial_rtt),
            taken: 0,
            refused: 0,
            unreadable: 0,
            skipped: 0,
        }
    }

    // The counts, as the report's last line.
    pub fn summary(&self, heap: Global) -> Result<String, AllocError>
        ensures { IfOk result (λ s. string_bytes s ≡ summary_text (progress_of self.now)) }
    {
        let taken = self.taken;
        let refused = self.refused;
        let unreadable = self.unreadable;
        format!(in heap; "taken {taken} refused {refused} unreadable {unreadable}\n")
    }

    // The place of the next sample.
    fn place(&self) -> u64
        ensures { result ≡ place_in (progress_of self.now) }
    {
        self.taken.saturating_add(self.refused)
    }

    // The number of the next line.
    fn line(&self) -> u64
        ensures { result ≡ line_number (progress_of self.now) }
    {
        self.place()
            .saturating_add(self.unreadable)
            .saturating_add(self.skipped)
            .saturating_add(1)
    }

    fn sample(&mut self, measurement: Measurement) -> Result<Taken, StepError>
        ensures value { result ≡ sampled (progress_of self.old) measurement }
        ensures after { progress_of self.new ≡ after_sample (progress_of self.old) measurement }
    {
        let place = self.place();
        let answer = self
            .estimator
            .update(measurement.ack_delay, measurement.rtt);
        if let Err(refusal) = answer {
            self.refused = self.refused.saturating_add(1);
            return Err(StepError::Refused { place, refusal });
        }
        self.taken = self.taken.saturating_add(1);
        Ok(Taken {
            place,
            smoothed: self.estimator.get(),
            variation: self.estimator.variation(),
            minimum: self.estimator.min(),
            pto_base: self.estimator.pto_base(),
        })
    }

    // Reads a line, its newline taken off. A blank line and a comment come to nothing.
    pub fn step(&mut self, line: &[u8]) -> Result<Option<Taken>, StepError>
        ensures value { result ≡ outcome (progress_of self.old) (line_in line.now) }
        ensures after { progress_of self.new ≡ next (progress_of self.old) (line_in line.now) }
    {
        match read(line) {
            Ok(None) => {
                self.skipped = self.skipped.saturating_add(1);
                Ok(None)
            }
            Ok(Some(measurement)) => self.sample(measurement).map(Some),
            Err(fault) => {
                let line = self.line();
                self.unreadable = self.unreadable.saturating_add(1);
                Err(StepError::Unreadable { line, fault })
            }
        }
    }
}
