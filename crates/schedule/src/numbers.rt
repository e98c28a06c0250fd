//! The numbers of a schedule with a seed, and the place of the move that a schedule takes.

ghost use Rattle.std.specs.Prelude.{◌≡◌, ◌<◌};
ghost use Rattle.network_steps.specs.Schedule.{move_place, next_number, next_seed};

const MULTIPLIER: u64 = 6364136223846793005;

const INCREMENT: u64 = 1442695040888963407;

/// The next number, modulo 2^64.
fn next_number(number: u64) -> u64
    ensures { result ≡ next_number number }
{
    number.wrapping_mul(MULTIPLIER).wrapping_add(INCREMENT)
}

/// The seed after a turn: the next number. No seed stays none.
pub(crate) fn next_seed(seed: Option<u64>) -> Option<u64>
    ensures { result ≡ next_seed seed }
{
    match seed {
        None => None,
        Some(number) => Some(next_number(number)),
    }
}

/// The place, among so many moves, of the one that a schedule takes: the first, or with a seed the
/// one that the high bits of the next number say, modulo the number of moves.
pub(crate) fn move_place(seed: Option<u64>, count: u128) -> u128
    requires { 0 < count }
    ensures place { result ≡ move_place seed count }
    ensures below { result < count }
{
    match seed {
        None => 0,
        Some(number) => u128::from(next_number(number) >> 33) % count,
    }
}
