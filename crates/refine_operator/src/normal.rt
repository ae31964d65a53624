// The normal matrix, sample by sample: a sample's regressors once, and all their products added.
ghost use Rattle.std.specs.Prelude.{◌≡◌, ◌+◌, ◌*◌, ◌<◌, ◌≤◌};
ghost use Rattle.refine_operator.specs.Basis.{side, samples};
ghost use Rattle.refine_operator.specs.Inverse.{normal_matrix};
ghost use Rattle.refine_operator.specs.Steps.{upper_added, upper_at};

use crate::{Phi, Upper, basis};

// The sums with one sample.
fn add_sample(s: Upper, p: Phi) -> Upper
    ensures { result ≡ upper_added s p }
{
    Upper {
        aa: s.aa + p.a * p.a,
        ab: s.ab + p.a * p.b,
        ac: s.ac + p.a * p.c,
        ad: s.ad + p.a * p.d,
        ae: s.ae + p.a * p.e,
        af: s.af + p.a * p.f,
        bb: s.bb + p.b * p.b,
        bc: s.bc + p.b * p.c,
        bd: s.bd + p.b * p.d,
        be: s.be + p.b * p.e,
        bf: s.bf + p.b * p.f,
        cc: s.cc + p.c * p.c,
        cd: s.cd + p.c * p.d,
        ce: s.ce + p.c * p.e,
        cf: s.cf + p.c * p.f,
        dd: s.dd + p.d * p.d,
        de: s.de + p.d * p.e,
        df: s.df + p.d * p.f,
        ee: s.ee + p.e * p.e,
        ef: s.ef + p.e * p.f,
        ff: s.ff + p.f * p.f,
    }
}

// The sums with the row y.
fn add_line(radius: usize, y: usize, s: Upper) -> Upper
    requires { (radius ≤ 7) × (y < side radius) × (s ≡ upper_at radius (y * side radius)) }
    ensures { result ≡ upper_at radius ((y + 1) * side radius) }
{
    let mut sums = s;
    for x in 0..2 * radius + 1 {
        sums = add_sample(sums, basis::phi_of(radius, x, y));
    }
    sums
}

// The sums over all samples.
fn sums_of(radius: usize) -> Upper
    requires { radius ≤ 7 }
    ensures { result ≡ upper_at radius (samples radius) }
{
    let mut sums = Upper {
        aa: 0.0,
        ab: 0.0,
        ac: 0.0,
        ad: 0.0,
        ae: 0.0,
        af: 0.0,
        bb: 0.0,
        bc: 0.0,
        bd: 0.0,
        be: 0.0,
        bf: 0.0,
        cc: 0.0,
        cd: 0.0,
        ce: 0.0,
        cf: 0.0,
        dd: 0.0,
        de: 0.0,
        df: 0.0,
        ee: 0.0,
        ef: 0.0,
        ff: 0.0,
    };
    for y in 0..2 * radius + 1 {
        sums = add_line(radius, y, sums);
    }
    sums
}

// The matrix with the identity beside it.
pub fn normal_matrix(radius: usize) -> [f64; 72]
    requires { radius ≤ 7 }
    ensures { result ≡ normal_matrix radius }
{
    let s = sums_of(radius);
    [
        s.aa, s.ab, s.ac, s.ad, s.ae, s.af, 1.0, 0.0, 0.0, 0.0, 0.0, 0.0, s.ab, s.bb, s.bc, s.bd,
        s.be, s.bf, 0.0, 1.0, 0.0, 0.0, 0.0, 0.0, s.ac, s.bc, s.cc, s.cd, s.ce, s.cf, 0.0, 0.0,
        1.0, 0.0, 0.0, 0.0, s.ad, s.bd, s.cd, s.dd, s.de, s.df, 0.0, 0.0, 0.0, 1.0, 0.0, 0.0, s.ae,
        s.be, s.ce, s.de, s.ee, s.ef, 0.0, 0.0, 0.0, 0.0, 1.0, 0.0, s.af, s.bf, s.cf, s.df, s.ef,
        s.ff, 0.0, 0.0, 0.0, 0.0, 0.0, 1.0,
    ]
}
