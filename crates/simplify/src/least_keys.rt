//! A tree of keys, of which the least stands at the root, and each change is made along one path.
ghost use Rattle.std.specs.Prelude.{◌≡◌, ◌<◌, ◌≤◌, ◌*◌, ◌%◌, ℕ, length, slice_set};
ghost use Rattle.simplify.specs.LeastKeys.{AreLesserBut, AreSameLeaves};

/// Writes the lesser key of the two below into each node.
pub(crate) fn settle_all(keys: &mut [u64])
    requires { length keys.old % 2 ≡ 0 }
    ensures lesser { AreLesserBut keys.new 0 }
    ensures leaves { AreSameLeaves keys.old keys.new }
{
    let mut node = keys.len() / 2;
    while node > 1 {
        node -= 1;
        keys[node] = keys[2 * node].min(keys[2 * node + 1]);
    }
}

/// Writes a leaf's key, and then the nodes above it.
pub(crate) fn write(keys: &mut [u64], leaf: usize, key: u64)
    requires even { length keys.old % 2 ≡ 0 }
    requires lesser { AreLesserBut keys.old 0 }
    requires leaf { (leaf < length keys.old) × (length keys.old ≤ 2 * leaf) }
    ensures lesser { AreLesserBut keys.new 0 }
    ensures leaves { AreSameLeaves (slice_set keys.old leaf key) keys.new }
{
    keys[leaf] = key;
    let mut node = leaf;
    while node > 1 {
        node /= 2;
        let lesser = keys[2 * node].min(keys[2 * node + 1]);
        if keys[node] == lesser {
            return;
        }
        keys[node] = lesser;
    }
}
