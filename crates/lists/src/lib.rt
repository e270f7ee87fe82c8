// Counted loops, parts of a lent list, sums and permutations, for definitions and proofs: see specs/ and proofs/. And two loops: one that looks for a number, and
// one that copies.
#![tactic(auto)]

ghost use Rattle.std.specs.Prelude.{◌≡◌, ℕ, ◌≤◌, ◌<◌, length};
ghost use Rattle.lists.specs.Runs.{FindsFrom};

// The first number from `from` on, and below `end`, that passes a test. Four numbers a turn while there are four.
pub fn first_from<F: Fn(usize) -> bool>(from: usize, end: usize, test: F) -> Option<usize>
    requires { (k : ℕ) → from ≤ k → k < end → F.pre test k }
    ensures { FindsFrom from end (F.post test) result }
{
    if end < from {
        return None;
    }
    let mut k = from;
    while 4 <= end - k {
        if test(k) {
            return Some(k);
        }
        if test(k + 1) {
            return Some(k + 1);
        }
        if test(k + 2) {
            return Some(k + 2);
        }
        if test(k + 3) {
            return Some(k + 3);
        }
        k += 4;
    }
    for j in k..end {
        if test(j) {
            return Some(j);
        }
    }
    None
}

// One list over another that is as long. Not `copy_from_slice`, for which an archive that C links needs `memmove` from outside.
pub fn copy<T: Copy>(from: &[T], to: &mut [T])
    requires { length from.now ≡ length to.old }
    ensures { to.new ≡ from.now }
{
    for k in 0..from.len() {
        to[k] = from[k];
    }
}
