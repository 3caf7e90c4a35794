// The lines of a recording: calls, and between them lines `module NAME`, which say whose calls follow.
use anyhow::anyhow;
use std::io::{BufReader, Lines, Stdin};
use std::str::FromStr;

// Read at its own line, so that a name of no module is refused there and not at the next `new`.
#[derive(Clone, Copy)]
pub(crate) enum Module {
    Rtt,
    MinMax,
    Bandwidth,
    Pacer,
    NewReno,
    Cubic,
    Bbr,
}

impl FromStr for Module {
    type Err = anyhow::Error;

    fn from_str(name: &str) -> anyhow::Result<Module> {
        match name {
            "rtt" => Ok(Module::Rtt),
            "min_max" => Ok(Module::MinMax),
            "bw" => Ok(Module::Bandwidth),
            "pacer" => Ok(Module::Pacer),
            "new_reno" => Ok(Module::NewReno),
            "cubic" => Ok(Module::Cubic),
            "bbr" | "bbr_modes" | "bbr_edges" | "bbr_connections" => Ok(Module::Bbr),
            _ => Err(anyhow!("no such module")),
        }
    }
}

#[derive(Drop)]
pub(crate) struct Recording {
    lines: Lines<BufReader<Stdin>>,
    // The module of the next subject that is made.
    pub(crate) module: Module,
}

impl Recording {
    ghost use Rattle.replay_calls.specs.Recordings.{ReadsCall};

    pub(crate) fn new(lines: Lines<BufReader<Stdin>>) -> Recording {
        Recording {
            lines,
            module: Module::Rtt,
        }
    }

    // Prints the modules that are named before the next call, and answers that call.
    pub(crate) fn next_call(&mut self, rt: &impl Print) -> anyhow::Result<Option<String>>
        ensures { ReadsCall self.old self.new result }
    {
        // After a `for` over `by_ref` the proof knows nothing of the lines that are left.
        while let Some(line) = self.lines.next() {
            let line = line?;
            let Some(name) = line.as_str().strip_prefix("module ") else {
                return Ok(Some(line));
            };
            self.module = name.parse::<Module>()?;
            println!(rt; "module {name}")?;
        }
        Ok(None)
    }
}
