// Cubes and cube roots of floats. A root is found bit by bit, over whole numbers.
ghost use Rattle.std.specs.Prelude.{◌≡◌, ◌+◌, ◌^◌, ◌<◌, ◌≤◌};
ghost use Rattle.numbers.specs.Root.{CubeRoot, cubed, cube_root, third_power, whole_root};

use crate::cast::whole_part;

/// `(d * d) * d`.
pub fn cube(d: f64) -> f64
    ensures { result ≡ cubed d }
{
    d * d * d
}

// The greatest number whose cube is not above a, bit by bit.
#[tactic(auto, using(crate::proofs::Cubes::starts, crate::proofs::Cubes::small, crate::proofs::Cubes::cube_fits, crate::proofs::Cubes::taken, crate::proofs::Cubes::taken_room, crate::proofs::Cubes::left_out, crate::proofs::Cubes::left_room, crate::proofs::Cubes::ends))]
fn whole_cube_root(a: u64) -> u64
    requires { a < 2 ^ 63 }
    ensures low { third_power result ≤ a }
    ensures high { a < third_power (result + 1) }
    ensures small { result < 2 ^ 21 }
    ensures is { result ≡ whole_root a }
{
    let mut root = 0;
    for k in (0..21u32).rev() {
        let next = root + (1 << k);
        if next * next * next <= a {
            root = next;
        }
    }
    root
}

/// The cube root of `a`, cut to a multiple of 2^-14: 128 from 2^21 on, 0 for a NaN and a negative.
#[tactic(auto, using(crate::proofs::Scaled::no_root, crate::proofs::Scaled::largest_root, crate::proofs::Scaled::root_between, crate::proofs::Scaled::scaled))]
pub fn cube_root(a: f64) -> f64
    ensures law { CubeRoot a result }
    ensures is { result ≡ cube_root a }
{
    if !(0.0 < a) {
        return 0.0;
    }
    if 2097152.0 <= a {
        return 128.0;
    }
    // The root of a * 2^42 is 2^14 times the root of a. Both powers scale exactly.
    let n = whole_cube_root(whole_part(a * 4398046511104.0));
    n as f64 / 16384.0
}
