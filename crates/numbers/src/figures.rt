// Worked figures, which the casts and the cube root compute.
ghost use Rattle.std.specs.Prelude.{◌≡◌, pos};
ghost use Rattle.std.specs.Float.{binary64};
ghost use Rattle.std.specs.Float.Ieee.{of_int};
ghost use Rattle.numbers.specs.Figures.{Figures, root_of, through_single};

use crate::cast::{nearest, whole_part};
use crate::root::cube_root;

/// What the worked figures come to.
#[derive(Clone, Copy, Drop)]
pub struct Worked {
    /// 16,777,217 as an f32 and back.
    pub tie_to_even_below: u64,
    /// 16,777,219 as an f32 and back.
    pub tie_to_even_above: u64,
    /// The cube root of 8.
    pub root_of_eight: f64,
    /// The cube root of 0.
    pub root_of_zero: f64,
    /// The cube root of 2^21.
    pub root_of_limit: f64,
}

fn through_f32(n: u64) -> u64
    ensures { result ≡ through_single n }
{
    whole_part(nearest::<f32>(n))
}

fn root_of(n: u64) -> f64
    ensures { result ≡ root_of n }
{
    cube_root(nearest(n))
}

/// The worked figures, computed: the facts hold of the definitions, and the code gives them.
#[tactic(auto, using(crate::proofs::Worked::figures))]
pub fn compute() -> Worked
    ensures stand { Figures }
    ensures below { result.tie_to_even_below ≡ 16_777_216 }
    ensures above { result.tie_to_even_above ≡ 16_777_220 }
    ensures eight { result.root_of_eight ≡ of_int binary64 (pos 2) }
    ensures zero { result.root_of_zero ≡ of_int binary64 (pos 0) }
    ensures limit { result.root_of_limit ≡ of_int binary64 (pos 128) }
{
    Worked {
        tie_to_even_below: through_f32(16_777_217),
        tie_to_even_above: through_f32(16_777_219),
        root_of_eight: root_of(8),
        root_of_zero: root_of(0),
        root_of_limit: root_of(0x20_0000),
    }
}
