// The signs of the differences, and the whole coefficients.
ghost use Rattle.std.specs.Prelude.{◌≡◌, ◌+◌, ◌*◌, ◌≤◌, ◌<◌, pos, negsuc, ◌-ℤ◌, ◌≤ℤ◌};
ghost use Rattle.pixel_response.specs.Samples.{total};
ghost use Rattle.pixel_response.specs.Steps.{listed};
ghost use Rattle.gradient.specs.Coefficients.{sign_of, square_sign, edge_sign, mean_sign, minus_where, coefficient};

// The sign of 5 · ring sum - 16 · cross sum.
#[tactic(auto, unfolding(crate::specs::Coefficients::mean_sign, pixel_response::specs::Samples::ring_sum, pixel_response::specs::Samples::cross_sum))]
pub fn mean_sign(samples: &[u8; 21]) -> i32
    ensures sign { result ≡ mean_sign (listed samples.now) (λ k. listed samples.now (16 + k)) }
    ensures from_minus_one { negsuc 0 ≤ℤ result }
    ensures to_one { result ≤ℤ pos 1 }
{
    sign(5 * sum(samples, 0, 16), 16 * sum(samples, 16, 5))
}

// The coefficient of ring place k, less the sign of the means.
pub fn ring_coefficient(samples: &[u8; 21], mean: i32, k: usize) -> i32
    requires from_minus_one { negsuc 0 ≤ℤ mean }
    requires to_one { mean ≤ℤ pos 1 }
    requires on_ring { k < 16 }
    ensures coefficient { result ≡ coefficient (listed samples.now) k -ℤ mean }
    ensures from_minus_three { negsuc 2 ≤ℤ result }
    ensures to_three { result ≤ℤ pos 3 }
{
    let square = minus_where(k / 4 % 2 == 1, square_sign(samples, k % 4));
    let edge = minus_where(k < 8, edge_sign(samples, k % 8));
    square + edge - mean
}

#[tactic(auto, unfolding(crate::specs::Coefficients::square_sign))]
fn square_sign(samples: &[u8; 21], q: usize) -> i32
    requires { q < 4 }
    ensures sign { result ≡ square_sign (listed samples.now) q }
    ensures from_minus_one { negsuc 0 ≤ℤ result }
    ensures to_one { result ≤ℤ pos 1 }
{
    sign(
        both(samples[q], samples[q + 8]),
        both(samples[q + 4], samples[q + 12]),
    )
}

#[tactic(auto, unfolding(crate::specs::Coefficients::edge_sign))]
fn edge_sign(samples: &[u8; 21], e: usize) -> i32
    requires { e < 8 }
    ensures sign { result ≡ edge_sign (listed samples.now) e }
    ensures from_minus_one { negsuc 0 ≤ℤ result }
    ensures to_one { result ≤ℤ pos 1 }
{
    sign(samples[e] as u16, samples[e + 8] as u16)
}

// The sign of a - b.
fn sign(a: u16, b: u16) -> i32
    ensures sign_of { result ≡ sign_of a b }
    ensures from_minus_one { negsuc 0 ≤ℤ result }
    ensures to_one { result ≤ℤ pos 1 }
{
    (a as i32 - b as i32).signum()
}

// Minus the sign, or the sign itself.
fn minus_where(minus: bool, sign: i32) -> i32
    requires from_minus_one { negsuc 0 ≤ℤ sign }
    requires to_one { sign ≤ℤ pos 1 }
    ensures turned { result ≡ minus_where minus sign }
    ensures from_minus_one { negsuc 0 ≤ℤ result }
    ensures to_one { result ≤ℤ pos 1 }
{
    if minus { -sign } else { sign }
}

fn both(a: u8, b: u8) -> u16
    ensures { result ≡ a + b }
{
    a as u16 + b as u16
}

// The sum of n samples from one on.
fn sum(samples: &[u8; 21], from: usize, n: usize) -> u16
    requires { from + n ≤ 21 }
    ensures total { result ≡ total n (λ k. listed samples.now (from + k)) }
    ensures most { result ≤ 255 * n }
{
    let mut sum = 0;
    for k in 0..n {
        sum = sum + samples[from + k] as u16;
    }
    sum
}
