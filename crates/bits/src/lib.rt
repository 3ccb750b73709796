// Functions on machine words that several crates call. The laws of bits, vectors and words are in proofs/.
#![tactic(auto)]

ghost use Rattle.std.specs.Prelude.{◌≡◌};
ghost use Rattle.bits.specs.Words.{parity_of};

pub mod octets;
pub mod rows;

// 1 if an odd number of the places that `mask` names hold 1 in `value`, else 0.
pub fn parity(mask: u64, value: u64) -> u8
    ensures { result ≡ parity_of mask value }
{
    (u64::count_ones(mask & value) % 2) as u8
}
