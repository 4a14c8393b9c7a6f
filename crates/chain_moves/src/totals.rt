//! The two bounds: what arriving customers bring by a vector, for each of them.
ghost use Rattle.std.specs.Prelude.{◌≡◌, ℕ, ◌*◌, ◌/◌, ◌^◌, ◌<◌, ◌≤◌, length, slice_index};
ghost use Rattle.offer_model.specs.Chains.{place_count, arriving, customer_count};
ghost use Rattle.offer_model.specs.Stopping.{quotient_up};
ghost use Rattle.chain_moves.specs.Values.{AreSmall};

use offer_model::Chain;

/// A value times an arrival.
fn weighed(arrival: u64, value: u64) -> u128
    requires arrival { arrival ≤ 10 ^ 9 }
    requires value { value ≤ 10 ^ 15 }
    ensures value { result ≡ arrival * value }
    ensures range { result ≤ 10 ^ 24 }
{
    u128::from(arrival) * u128::from(value)
}

/// The values where customers arrive, times the arrivals.
fn arriving(chain: &Chain, values: &[u64]) -> u128
    requires each { length values.now ≡ place_count chain.now }
    requires small { AreSmall values.now }
    ensures value { result ≡ arriving chain.now (slice_index values.now) }
    ensures range { result ≤ 256 * 10 ^ 24 }
{
    let arrivals = chain.arrivals().as_slice();
    let mut sum = 0;
    for i in 0..arrivals.len() {
        sum += weighed(arrivals[i], values[i]);
    }
    sum
}

/// The weight of all customers.
fn customer_count(chain: &Chain) -> u64
    ensures value { result ≡ customer_count chain.now }
    ensures range { result ≤ 257 * 10 ^ 9 }
    ensures some { 0 < result }
{
    let arrivals = chain.arrivals().as_slice();
    let mut sum = chain.away();
    for i in 0..arrivals.len() {
        sum += arrivals[i];
    }
    sum
}

/// A quotient, rounded up.
fn rounded_up(sum: u128, all: u64) -> u64
    requires some { 0 < all }
    requires small { sum ≤ all * 10 ^ 15 }
    ensures { result ≡ quotient_up sum all }
{
    let all = u128::from(all);
    ((sum + (all - 1)) / all) as u64
}

/// A quotient, rounded down.
fn rounded_down(sum: u128, all: u64) -> u64
    requires some { 0 < all }
    requires small { sum ≤ all * 10 ^ 15 }
    ensures { result ≡ sum / all }
{
    (sum / u128::from(all)) as u64
}

/// The bound that no assortment exceeds, in millionths of a margin unit.
pub fn up_of(chain: &Chain, upper: &[u64]) -> u64
    requires each { length upper.now ≡ place_count chain.now }
    requires small { AreSmall upper.now }
    ensures { result ≡ quotient_up (arriving chain.now (slice_index upper.now)) (customer_count chain.now) }
{
    rounded_up(arriving(chain, upper), customer_count(chain))
}

/// The bound that the assortment reaches, in millionths of a margin unit.
pub fn lo_of(chain: &Chain, lower: &[u64]) -> u64
    requires each { length lower.now ≡ place_count chain.now }
    requires small { AreSmall lower.now }
    ensures { result ≡ arriving chain.now (slice_index lower.now) / customer_count chain.now }
{
    rounded_down(arriving(chain, lower), customer_count(chain))
}
