// The arithmetic of residues. Each function takes residues and gives the one residue that its promise names.
// A sum or a difference is compared and corrected: products alone are reduced.
// A residue stays a u32 that is said to be below p: customers lend slices of u32, and a type of its own would have to be built entry by entry.
ghost use Rattle.std.specs.Prelude.{◌≡◌, ◌+◌, ◌*◌, ◌%◌, ◌<◌};
ghost use Rattle.sums.specs.Residue.{p, half, minus_one};

pub fn plus(a: u32, b: u32) -> u32
    requires { (a < p) × (b < p) }
    ensures { result ≡ (a + b) % p }
{
    let sum = a + b;
    if sum < 998244353 {
        sum
    } else {
        sum - 998244353
    }
}

// The paper writes a difference as a sum with −1 times what is taken away.
pub fn minus(a: u32, b: u32) -> u32
    requires { (a < p) × (b < p) }
    ensures { result ≡ (a + minus_one * b) % p }
{
    if b <= a { a - b } else { a + (998244353 - b) }
}

pub fn negate(a: u32) -> u32
    requires { a < p }
    ensures { result ≡ minus_one * a % p }
{
    if a == 0 { 0 } else { 998244353 - a }
}

// The one place where a number is divided by p: every product comes here.
pub fn reduce(x: u64) -> u32
    ensures { result ≡ x % p }
{
    (x % 998244353) as u32
}

pub fn times(a: u32, b: u32) -> u32
    requires { (a < p) × (b < p) }
    ensures { result ≡ a * b % p }
{
    reduce((a as u64) * (b as u64))
}

// One term more of a sum of products, with one reduction for the product and the sum.
pub fn times_plus(sum: u32, a: u32, b: u32) -> u32
    requires { (sum < p) × ((a < p) × (b < p)) }
    ensures { result ≡ (sum + a * b) % p }
{
    reduce(sum as u64 + (a as u64) * (b as u64))
}

pub fn double(a: u32) -> u32
    requires { a < p }
    ensures { result ≡ 2 * a % p }
{
    plus(a, a)
}

// An odd number is made even by p, which is odd.
pub fn halve(a: u32) -> u32
    requires { a < p }
    ensures { result ≡ a * half % p }
{
    if a % 2 == 0 {
        a / 2
    } else {
        (a + 998244353) / 2
    }
}
