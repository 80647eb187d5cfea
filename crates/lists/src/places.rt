// Sets at places of a list: place k of sets of so many numbers begins k times as many numbers behind the first.
ghost use Rattle.std.specs.Prelude.{◌≡◌, true, false, ◌+◌, ◌*◌, ◌-◌, ◌≤◌, ◌<◌, length};
ghost use Rattle.std.proofs.Math.Seq.{paste};
ghost use Rattle.model.specs.Lists.{tabulate, any_of};
ghost use Rattle.model.specs.Bound.{same_z};
ghost use Rattle.model.specs.Matrix.{same_matrix};
ghost use Rattle.memory.specs.Numbers.{bounds_in};
ghost use Rattle.memory.specs.Side.{numbers_at};
ghost use Rattle.lists.specs.Lists.{zone_at};
ghost use Rattle.lists.specs.Comparing.{Other};

// The numbers of zone k of the list.
pub(crate) fn at(list: &[i32], k: usize, size: usize) -> &[i32]
    requires { k * size + size ≤ length list.now }
    ensures { result.now ≡ numbers_at size list.now k }
{
    let base = k * size;
    &list[base..base + size]
}

// The first place at which zone k of the list is another than this one, if it is another.
fn first_other(list: &[i32], k: usize, zone: &[i32]) -> Option<usize>
    requires { k * length zone.now + length zone.now ≤ length list.now }
    ensures { Other list.now k zone.now result }
{
    zone.iter()
        .zip(at(list, k, zone.len()))
        .position(|(a, b)| a != b)
}

// Place p, if there is such a place, shows that zone k of the list is another than this one.
fn apart(list: &[i32], k: usize, zone: &[i32], p: usize) -> bool
    requires { k * length zone.now + length zone.now ≤ length list.now }
    ensures { result ≡ true → same_matrix (bounds_in zone.now) (zone_at (length zone.now) list.now k) ≡ false }
{
    p < zone.len() && zone[p] != list[k * zone.len() + p]
}

// Some zone of the list, from zone first on and before zone end, is this one. The last ones are looked at first: a set that is made again was
// most often made a short while ago. Of each the place comes first at which the one before was another: most often it is another there too.
pub(crate) fn has(list: &[i32], first: usize, end: usize, zone: &[i32]) -> bool
    requires { (first ≤ end) × (end * length zone.now ≤ length list.now) }
    ensures { result ≡ any_of (same_matrix (bounds_in zone.now)) (tabulate (end - first) first (zone_at (length zone.now) list.now)) }
{
    let mut p = 0;
    for k in (first..end).rev() {
        if apart(list, k, zone, p) {
            continue;
        }
        match first_other(list, k, zone) {
            None => return true,
            Some(other) => p = other,
        }
    }
    false
}

// The zone, as zone k of the list. By index, as `powers::put_front`: without memmove.
pub(crate) fn store(list: &mut [i32], k: usize, zone: &[i32])
    requires { k * length zone.now + length zone.now ≤ length list.old }
    ensures { list.new ≡ paste list.old (k * length zone.now) zone.now (length zone.now) }
{
    let base = k * zone.len();
    for p in 0..zone.len() {
        list[base + p] = zone[p];
    }
}

// The zone at one place, copied to a later place.
pub(crate) fn copy(list: &mut [i32], from: usize, to: usize, size: usize)
    requires { (from < to) × (to * size + size ≤ length list.old) }
    ensures { list.new ≡ paste list.old (to * size) (numbers_at size list.old from) size }
{
    let source = from * size;
    list.copy_within(source..source + size, to * size);
}
