//! Numbers that are drawn from SplitMix64, for generated documents and for drawn turns.
//!
//! A generator is known by its state. `drawn` says which number below a count comes of it, `after_draws` its state after so
//! many draws. Whoever knows the seed and the number of draws before knows each number.
#![tactic(auto)]

ghost use Rattle.std.specs.Prelude.{◌≡◌, ◌<◌};
ghost use Rattle.drawn_numbers.specs.Draws.{after_draw, drawn};

use rand_core::utils::NextWord;
use rand_xoshiro::SplitMix64;

/// A number below the count, by the next 64 bits. Those that it leaves over by division aren't drawn again, so small numbers
/// come a little more often than great ones.
#[tactic(auto, unfolding(crate::specs::Draws::drawn, crate::specs::Draws::after_draw))]
pub fn draw(draws: &mut SplitMix64, count: u64) -> u64
    requires { 0 < count }
    ensures drawn { result ≡ drawn count draws.old }
    ensures below { result < count }
    ensures draws { draws.new ≡ after_draw draws.old }
{
    draws.next_word() % count
}
