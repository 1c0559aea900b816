// The first place at which a test fails, found by halving. What is searched here lies in bytes, or is found by way of
// numbers: it is no slice of elements, such as the library's `partition_point` searches.

#![tactic(auto)]

ghost use Rattle.std.specs.Prelude.{◌≡◌, true, false, ℕ, ◌+◌, ◌≤◌, ◌<◌};

// A place from 0 to n: the test holds just before it, unless it is 0, and fails at it, unless it is n. Where no place
// passes behind one that fails, it is the first that fails. Half of what is left is ruled out at a time. No `for`:
// the two ends move by halves.
pub fn first_not<F: Fn(usize) -> bool>(n: usize, test: F) -> usize
    requires { (i : ℕ) → i < n → F.pre test i }
    ensures within { result ≤ n }
    ensures before { (i : ℕ) → i + 1 ≡ result → F.post test i true }
    ensures fails { result < n → F.post test result false }
{
    let mut low = 0;
    let mut high = n;
    while low < high {
        let middle = low + (high - low) / 2;
        if test(middle) {
            low = middle + 1;
        } else {
            high = middle;
        }
    }
    low
}
