//! What the bounds' prices are.
ghost use Rattle.std.specs.Prelude.{◌≡◌, ◌<◌, ◌^◌, ◌↔◌, length, slice_get, slice_index, EachIndex, IsTrue, IfOk};

use std::alloc::{AllocError, Global};
use std::marker::Model;

/// The price of each bound, 0 for none. Where no bound has a price they take no memory.
#[derive(Drop)]
pub(crate) struct Prices {
    kept: Kept,
}

/// What is kept of prices.
#[derive(Drop)]
pub(crate) enum Kept {
    /// How many bounds there are, of which none has a price.
    Count(u32),
    /// The price of each bound.
    Each(Vec<u32>),
}

impl Model for Prices {
    ghost use Rattle.std.specs.Prelude.{ℕ, List, length, ◌<◌, ◌^◌};
    ghost use Rattle.flow_core.specs.Stored.{prices_in};

    ghost Value = { List ℕ };

    ghost view = { λ prices. prices_in prices.kept };

    ghost invariant = { λ prices. length (prices_in prices.kept) < 2 ^ 32 };
}

impl Prices {
    /// These prices. Takes memory only where one of them is not 0, and fails only where that runs out.
    pub(crate) fn of(alloc: Global, prices: &[u32]) -> Result<Prices, AllocError>
        requires { length prices.now < 2 ^ 32 }
        ensures { IfOk result (λ kept. kept ≡ prices.now) }
    {
        if are_zero(prices) {
            return Ok(Prices {
                kept: Kept::Count(prices.len() as u32),
            });
        }
        Ok(Prices {
            kept: Kept::Each(Vec::from_slice(alloc, prices)?),
        })
    }

    /// The number of bounds.
    #[inline]
    pub(crate) fn len(&self) -> u32
        ensures { result ≡ length self.now }
    {
        match &self.kept {
            Kept::Count(count) => *count,
            Kept::Each(prices) => prices.len() as u32,
        }
    }

    /// The price of a bound, 0 for none, and `None` where there is no such bound.
    #[inline]
    pub(crate) fn get(&self, bound: u32) -> Option<u32>
        ensures { result ≡ slice_get self.now bound }
    {
        match &self.kept {
            Kept::Count(count) => { if bound < *count { Some(0) } else { None } }
            Kept::Each(prices) => prices.get(bound as usize).copied(),
        }
    }
}

/// Whether all prices are 0.
fn are_zero(prices: &[u32]) -> bool
    ensures { IsTrue result ↔ EachIndex prices.now (λ k. slice_index prices.now k ≡ 0) }
{
    prices.iter().all(|price| *price == 0)
}
