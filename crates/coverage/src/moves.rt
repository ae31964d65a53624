// Records of the list moved down by one.
ghost use Rattle.std.specs.Prelude.{◌≡◌, ◌≤◌, ◌<◌, length};
ghost use Rattle.coverage.specs.Call.{dropped};

use corners::Corner;

// Record k of n is dropped: the later ones move down, and the last is cleared.
pub fn drop_record(list: &mut [f32], n: usize, k: usize)
    requires listed { k < n }
    requires few { n ≤ 4096 }
    requires whole { length list.old ≡ 12288 }
    ensures { list.new ≡ dropped n k list.old }
{
    list.copy_within(3 * k + 3..3 * n, 3 * k);
    let freed = Corner {
        x: 0.0,
        y: 0.0,
        strength: 0.0,
    };
    corners::put(list, n - 1, freed);
}
