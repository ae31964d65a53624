// The theorems of tying corners to a board, over the definitions of `board`. Nothing is computed here: a function states a theorem, its claim is in specs/, its
// proof in proofs/. Each holds of every board, every list of places, every limit, every list of corners and every room for answers.
#![tactic(auto)]

ghost use Rattle.std.specs.Prelude.{List, ℕ, Float};
ghost use Rattle.board_theorems.specs.Claims.{AcceptedExactly, UnmetMeans, SharedMeans, NeverAnswered};
ghost use Rattle.board_theorems.specs.Exact.{TiedExactly};

/// A call is accepted exactly when what is lent can be used, every place has a nearest corner within the limit, and no two have the same.
pub fn accepted_exactly()
    ensures { (rows columns : ℕ) (places : List Float) (limit : Float) (list : List Float) (room : ℕ) → AcceptedExactly rows columns places limit list room }
{}

/// A refusal with 33 names a place without a corner within the limit; the places before it have their own corners.
pub fn unmet_means()
    ensures { (rows columns : ℕ) (places : List Float) (limit : Float) (list : List Float) (room : ℕ) → UnmetMeans rows columns places limit list room }
{}

/// A refusal with 34 names the later of two places with the same nearest corner; the places before it have their own corners.
pub fn shared_means()
    ensures { (rows columns : ℕ) (places : List Float) (limit : Float) (list : List Float) (room : ℕ) → SharedMeans rows columns places limit list room }
{}

/// Where a place has no corner within the limit the call never answers: it names that place or an earlier fault, and the lent answers stay as they were.
pub fn never_answered()
    ensures { (rows columns : ℕ) (places : List Float) (limit : Float) (list : List Float) (room : ℕ) → NeverAnswered rows columns places limit list room }
{}

/// In exact numbers a corner that is tied to a place is finite, and its squared distance from the place at most limit * (1 + 2^-20).
pub fn tied_exactly()
    ensures { (rows columns : ℕ) (places : List Float) (limit : Float) (list : List Float) (room : ℕ) → TiedExactly rows columns places limit list room }
{}
