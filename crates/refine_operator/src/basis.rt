// The quadratic basis over the offsets of a square.
ghost use Rattle.std.specs.Prelude.{◌≡◌, ◌<◌, ◌≤◌, length};
ghost use Rattle.std.proofs.Math.IntN.{sub_ℕ};
ghost use Rattle.std.specs.Float.{binary32};
ghost use Rattle.std.specs.Float.Ieee.{of_int};
ghost use Rattle.shapes.specs.Numbers.{entry};
ghost use Rattle.refine_operator.specs.Steps.{phi_at};

use crate::Phi;

// The offset of the column or row number i.
fn offset_of(i: usize, radius: usize) -> f32
    requires { (i ≤ 14) × (radius ≤ 7) }
    ensures { result ≡ of_int binary32 (sub_ℕ i radius) }
{
    std::num::nearest_i32_to_f32(i as i32 - radius as i32)
}

// The regressors at the column x and the row y, widened.
pub fn phi_of(radius: usize, x: usize, y: usize) -> Phi
    requires { (radius ≤ 7) × (x ≤ 14) × (y ≤ 14) }
    ensures { result ≡ phi_at radius x y }
{
    let u = offset_of(x, radius);
    let v = offset_of(y, radius);
    Phi {
        a: std::num::f32_to_f64_with_nan(u * u),
        b: std::num::f32_to_f64_with_nan(u * v),
        c: std::num::f32_to_f64_with_nan(v * v),
        d: std::num::f32_to_f64_with_nan(u),
        e: std::num::f32_to_f64_with_nan(v),
        f: 1.0,
    }
}

// An entry of a list. What is lent as a slice is known to have its length, an array behind a reference is not.
pub fn element(list: &[f64], i: usize) -> f64
    requires { i < length list.now }
    ensures { result ≡ entry list.now i }
{
    list[i]
}
