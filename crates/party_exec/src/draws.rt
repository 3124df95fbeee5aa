// What is drawn for the turns of a round.

ghost use Rattle.std.specs.Prelude.{◌≡◌, ◌<◌};
ghost use Rattle.drawn_numbers.specs.Draws.{after_draw};
ghost use Rattle.party_exec.specs.Draws.{first_place, turn_count};

use drawn_numbers::draw;
use rand_xoshiro::SplitMix64;

// The place at which a round begins, of so many.
pub(crate) fn draw_place(draws: &mut SplitMix64, count: usize) -> usize
    requires { 0 < count }
    ensures place { result ≡ first_place count draws.old }
    ensures below { result < count }
    ensures draws { draws.new ≡ after_draw draws.old }
{
    draw(draws, count as u64) as usize
}

// How many turns a party makes.
pub(crate) fn draw_turns(draws: &mut SplitMix64) -> u64
    ensures turns { result ≡ turn_count draws.old }
    ensures draws { draws.new ≡ after_draw draws.old }
{
    draw(draws, 3) + 1
}
