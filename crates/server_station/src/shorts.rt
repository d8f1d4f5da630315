//! Which replies of a step are for want of memory.
ghost use Rattle.std.specs.Prelude.{◌≡◌, ◌%◌, ◌^◌, if◌then◌else◌, Bool, List};
ghost use Rattle.server_journal.specs.Items.{bits, is_short, short_of, shorts_with};

use cell_model::Output;
use server_state::Outputs;
use ubik_calls::Reply;

/// Which replies are for want of memory: bit i stands for the i-th one, counted from 0.
#[tactic(auto, using(crate::proofs::Bits::shorts_next))]
pub(crate) fn shorts_in(outputs: &Outputs) -> u128
    ensures { result ≡ short_of outputs.now }
{
    let mut place = outputs.len();
    let mut short: u128 = 0;
    while place > 0 {
        place -= 1;
        if let Some(output) = outputs.get(place) {
            short = before(output, short);
        }
    }
    short
}

/// The bits of later replies, with those of one output before them.
#[tactic(auto, using(crate::proofs::Bits::bit_before))]
fn before(output: &Output, short: u128) -> u128
    ensures { (later : List Bool) → short ≡ bits later % 2 ^ 128 → result ≡ bits (shorts_with output.now later) % 2 ^ 128 }
{
    match output {
        Output::Reply { reply, .. } => short.wrapping_mul(2).wrapping_add(ran_short(reply)),
        _ => short,
    }
}

/// 1 for a reply that is for want of memory.
fn ran_short(reply: &Reply) -> u128
    ensures { result ≡ (if is_short reply.now then 1 else 0) }
{
    match reply {
        Reply::NoMemory => 1,
        _ => 0,
    }
}
