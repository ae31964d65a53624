// What may be claimed of squared distances in exact numbers. Nothing is computed here: a function states a theorem, its claim is in specs/, its proof in proofs/.
#![tactic(auto)]

ghost use Rattle.exact_distance.specs.Exact.{DistanceExact};

/// Where the squared distance in binary32 is at most a limit of 2^-100 or more, the exact one is at most limit * (1 + 2^-20).
pub fn distance_exact()
    ensures { DistanceExact }
{}
