// What may be done with a permit on a way out. Each use has a neighbour that does not compile: see `misuse/`.
#![tactic(auto)]

ghost use Rattle.std.specs.Prelude.{◌≡◌, length, ◌==◌};
ghost use Rattle.path.specs.Paths.{state_of, grant_answer, grant_state};
ghost use Rattle.permits.specs.Uses.{block_answer, block_state, number_of, own_state, other_state};

use congestion::controller::Controller;
use path::path::Path;
use refusals::{Layer, Refusal};

/// Sends a block that must fill a datagram exactly; a block of another length is refused 1, and its permit is withdrawn before that
/// is passed up.
pub fn send_block<C: Controller>(
    path: &mut Path<C>,
    block: &[u8],
    size: u16,
    time: u64,
) -> Result<u64, Refusal>
    ensures answer { result ≡ block_answer (grant_answer C.rules (state_of C.model path.old) size time) (length block.now == size) }
    ensures state { state_of C.model path.new ≡ block_state C.rules (grant_state C.rules (state_of C.model path.old) size time) (grant_answer C.rules (state_of C.model path.old) size time) (length block.now == size) }
{
    let permit = path.grant(size, time)?;
    let number = permit.number();
    // A permit that its own path granted is held there, so the path takes it.
    if block.len() != size as usize {
        path.withdraw(permit).unwrap();
        return Err(Refusal::OutsideLimit(Layer::Value));
    }
    path.transmit(permit).unwrap();
    Ok(number)
}

/// Presents a permit to another path first. Refusal 9 hands it back, still owed, and its own path takes it.
pub fn present_again<C: Controller>(
    own: &mut Path<C>,
    other: &mut Path<C>,
    size: u16,
    time: u64,
) -> Result<u64, Refusal>
    ensures answer { result ≡ number_of (grant_answer C.rules (state_of C.model own.old) size time) }
    ensures own { state_of C.model own.new ≡ own_state C.rules (grant_state C.rules (state_of C.model own.old) size time) (state_of C.model other.old) (grant_answer C.rules (state_of C.model own.old) size time) }
    ensures other { state_of C.model other.new ≡ other_state C.rules (state_of C.model other.old) (grant_answer C.rules (state_of C.model own.old) size time) }
{
    let permit = own.grant(size, time)?;
    let number = permit.number();
    if let Err(refusal) = other.transmit(permit) {
        let back = refusal.into_permit().unwrap();
        own.transmit(back).unwrap();
    }
    Ok(number)
}
