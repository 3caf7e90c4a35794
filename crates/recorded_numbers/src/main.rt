// Recorded calls, answered again: a call on each line of the input, its answer on each line of the
// output. A float is written by its bits.
#![tactic(auto)]

use anyhow::{Context, bail};
use numbers::{cube, cube_root, nearest, seconds, whole_part};
use std::fmt;
use std::io::{BufRead, BufReader};
use std::num::{
    f32_from_bits_with_nan, f32_to_bits_with_nan, f64_from_bits_with_nan, f64_to_bits_with_nan,
};

#[derive(Drop)]
enum Answer {
    Whole(u64),
    Single(f32),
    Double(f64),
}

impl fmt::Display for Answer {
    fn fmt<W: fmt::Write>(&self, f: &mut fmt::Formatter<W>) -> fmt::Result {
        match self {
            Answer::Whole(n) => write!(f, "{n}"),
            Answer::Single(x) => {
                let bits = f32_to_bits_with_nan(*x);
                write!(f, "{bits:#010x}")
            }
            Answer::Double(x) => {
                let bits = f64_to_bits_with_nan(*x);
                write!(f, "{bits:#018x}")
            }
        }
    }
}

// A number in decimal, or in hexadecimal after 0x.
fn number(text: &str) -> anyhow::Result<u64> {
    match text.strip_prefix("0x") {
        Some(digits) => Ok(u64::from_str_radix(digits, 16)?),
        None => Ok(text.parse::<u64>()?),
    }
}

fn call(line: &str) -> anyhow::Result<Answer> {
    let (name, argument) = line
        .split_once(' ')
        .context("a call is a name and a number")?;
    let n = number(argument)?;
    Ok(match name {
        "f32_from_u64" => Answer::Single(nearest(n)),
        "f64_from_u64" => Answer::Double(nearest(n)),
        "u64_from_f32" => {
            let bits = u32::try_from(n)?;
            Answer::Whole(whole_part(f32_from_bits_with_nan(bits)))
        }
        "u64_from_f64" => Answer::Whole(whole_part(f64_from_bits_with_nan(n))),
        "seconds" => Answer::Double(seconds(n)),
        "cube" => Answer::Double(cube(f64_from_bits_with_nan(n))),
        "cube_root" => Answer::Double(cube_root(f64_from_bits_with_nan(n))),
        _ => bail!("no such call"),
    })
}

fn main(rt: HostRuntime) -> anyhow::Result<()> {
    for line in BufReader::new(rt.alloc(), rt.stdin())?.lines(rt.alloc()) {
        rt.println(call(line?.as_str())?)?;
    }
    Ok(())
}
