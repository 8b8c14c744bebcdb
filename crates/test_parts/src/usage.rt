// What sizes take, and the arithmetic of usages.
use crate::setup::usage;
use snap_usage::{blocks_of, difference};

#[test]
fn blocks_and_usages() {
    let none = blocks_of(0);
    let one = blocks_of(1);
    let whole = blocks_of(4096);
    let two = blocks_of(4097);
    prove!(none == 0 && one == 1 && whole == 1 && two == 2);
    let largest = blocks_of(1_048_576);
    prove!(largest == 256);
    let most = blocks_of(u64::MAX);
    prove!(most == 4_503_599_627_370_496);
    let (base, child, files) = (usage(4, 3), usage(2, 3), usage(1, 9));
    let itself = base.covers(base);
    let less = base.covers(child);
    let more = child.covers(base);
    let other = files.covers(base);
    prove!(itself && less && !more && !other);
    let left = difference(base, child);
    prove!(left.blocks == 2 && left.inodes == 0);
    let both = child.plus(left);
    prove!(both == base);
}
