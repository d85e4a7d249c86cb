//! A walk in small steps, which a linear congruential generator draws.
ghost use Rattle.std.specs.Prelude.{◌≡◌, ℕ, ◌+◌, ◌*◌, ◌^◌, ◌<◌, ◌≤◌, ◌-ℤ◌, unsigned_abs};
ghost use Rattle.sample_maker.specs.Walk.{state_after, drawn_from, level_after, reading_at, level_of};

/// The state of the generator after this one.
pub(crate) fn next_state(state: u32) -> u32
    requires { state < 2 ^ 31 }
    ensures { result ≡ state_after state }
{
    ((u64::from(state) * 1_103_515_245 + 12_345) % (1 << 31)) as u32
}

/// The number that is drawn from a state.
pub(crate) fn draw(state: u32) -> u32
    ensures { result ≡ drawn_from state }
{
    state / 65_536
}

/// The level after a step of at most 3.
pub(crate) fn next_level(level: i64, draw: u32) -> i64
    requires { unsigned_abs level ≤ 10 ^ 6 }
    ensures { result ≡ level_after level draw }
{
    level + i64::from(draw % 7) - 3
}

/// The reading at a level.
pub(crate) fn reading(level: i64, draw: u32) -> i64
    requires { unsigned_abs level ≤ 10 ^ 6 }
    ensures { result ≡ reading_at level draw }
{
    if draw % 50 == 0 { level + 500 } else { level }
}

/// The level moves by at most 3 from each row to the next.
pub fn levels_move_slowly()
    ensures { (seed k s : ℕ) → unsigned_abs (level_of seed (k + s) -ℤ level_of seed k) ≤ 3 * s }
{}
