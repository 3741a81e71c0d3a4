// Calls for the crates above.
ghost use Rattle.root.specs.Root.{Bounds};

// The whole square root: two binary digits a turn, with a remainder and no product.
pub fn root(n: u64) -> u64
    ensures { Bounds n result }
{
    if n == 0 {
        return 0;
    }
    // A leading pair of zeros gives no digit of the root.
    let skip = u64::leading_zeros(n) / 2;
    let mut rest = n << (2 * skip);
    let mut remainder = 0u64;
    let mut root = 0u64;
    for turn in skip..32 {
        remainder = (remainder << 2) + (rest >> 62);
        rest = rest << 2;
        let trial = (root << 2) + 1;
        root = root << 1;
        if trial <= remainder {
            remainder -= trial;
            root += 1;
        }
    }
    root
}
