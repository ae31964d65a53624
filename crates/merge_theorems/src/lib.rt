// The theorems of merging, over the definitions of `merge`, and the promises of its call. Nothing is computed here: a function states a theorem, its claim is in
// specs/ of this crate or of `merge`, its proof in proofs/. Each holds of every list and every rule by which corners meet.
#![tactic(auto)]

ghost use Rattle.std.specs.Prelude.{◌≡◌, ◌≤◌, Bool, List, ℕ, length, Float};
ghost use Rattle.corners.specs.declared.Corner.{Corner};
ghost use Rattle.merge.specs.Meets.{Grid, plain_meets, grid_meets};
ghost use Rattle.merge.specs.Fold.{merged};
ghost use Rattle.merge.specs.Claims.{Stays, Local, Uninvented, Ordered, StrongHeld, Alike, HeadsServe};
ghost use Rattle.merge_theorems.specs.Promises.{Touching, GriddedPromised, ScannedPromised};
ghost use Rattle.merge_theorems.specs.Apart.{FarNeverMeet};
ghost use Rattle.merge_theorems.specs.Bridged.{MergedOnce, MergedAgain};

/// Corners of which none meets an earlier one stay.
pub fn separated_stay()
    ensures { (meets : Corner → Corner → Bool) (l : List Corner) → Stays meets l }
{}

/// Corners in one place are joined by a chain of lent corners, each meeting the next.
pub fn merging_is_local()
    ensures { (meets : Corner → Corner → Bool) (l : List Corner) → Local meets l }
{}

/// Every kept corner was lent, coordinates and strength together.
pub fn nothing_invented()
    ensures { (meets : Corner → Corner → Bool) (l : List Corner) → Uninvented meets l }
{}

/// Places are in the order of their first corners.
pub fn order_kept()
    ensures { (meets : Corner → Corner → Bool) (l : List Corner) → Ordered meets l }
{}

/// Every lent corner has a kept one in its place that is not weaker.
pub fn strong_held()
    ensures { (meets : Corner → Corner → Bool) (l : List Corner) → StrongHeld meets l }
{}

/// Two rules that say the same of every two corners of a list merge it alike.
pub fn alike_merges()
    ensures { (meets meets' : Corner → Corner → Bool) (l : List Corner) → Alike meets meets' l → merged meets l ≡ merged meets' l }
{}

/// Where corners that are near lie in cells that touch, the grid merges as the plain scan does.
pub fn grid_as_scan()
    ensures { (g : Grid) (r2 : Float) (l : List Corner) → Touching g r2 l → merged (grid_meets g r2) l ≡ merged (plain_meets r2) l }
{}

/// Two corners or fewer that are merged once stay so, by whatever rule the list that is left gives.
pub fn twice_as_once()
    ensures { (rule : List Corner → Corner → Corner → Bool) (l : List Corner) → length l ≤ 2 → merged (rule (merged (rule l) l)) (merged (rule l) l) ≡ merged (rule l) l }
{}

/// What is promised of a call that merged on the grid.
pub fn gridded_promised()
    ensures { (list : List Float) (radius : Float) (heads links : ℕ) (kept : List Corner) → GriddedPromised list radius heads links kept }
{}

/// What is promised of a call that merged by the plain scan.
pub fn scanned_promised()
    ensures { (list : List Float) (radius : Float) (heads links : ℕ) (kept : List Corner) → ScannedPromised list radius heads links kept }
{}

/// In exact numbers, corners whose squared distance is above radius^2 * (1 + 2^-19) never meet.
pub fn far_never_meet()
    ensures { FarNeverMeet }
{}

/// As many heads as are wanted serve, and fewer do not, where there are links enough.
pub fn heads_serve()
    ensures { HeadsServe }
{}

/// A second merge may do more: of three corners the first keeps two, and the second one.
pub fn twice_is_not_once()
    ensures once { MergedOnce }
    ensures again { MergedAgain }
{}
