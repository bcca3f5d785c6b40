// A text's bucket: a number by which texts are spread, so that one is compared with few others.
#![tactic(auto)]

ghost use Rattle.std.specs.Prelude.{◌≡◌, ◌+◌, ◌*◌, ◌-◌, ◌≤◌, ◌<◌, cond, length};
ghost use Rattle.draft.specs.Bytes.{unsigned_at, byte_at};
ghost use Rattle.spread.specs.Buckets.{mixed, five, short, three, folded, lanes, long, rest, scaled_by, bucket_of, whole_bucket_of};

// The number of the four bytes at i, the lowest first.
fn four(t: &[u8], i: usize) -> usize
    requires { i + 4 ≤ length t.now }
    ensures { (result ≡ unsigned_at t.now i) × (result < 4294967296) }
{
    u32::from_le_bytes([t[i], t[i + 1], t[i + 2], t[i + 3]]) as usize
}

// The byte at i, or 0.
fn byte_or_none(t: &[u8], i: usize) -> usize
    ensures { (result ≡ byte_at t.now i) × (result < 256) }
{
    match t.get(i) {
        Some(b) => usize::from(*b),
        None => 0,
    }
}

// The bytes of a text of fewer than four, as one number.
fn few(t: &[u8]) -> usize
    requires { length t.now < 4 }
    ensures { (result ≡ unsigned_at t.now 0) × (result < 4294967296) }
{
    byte_or_none(t, 0) + byte_or_none(t, 1) * 256 + byte_or_none(t, 2) * 65536
}

fn mix(h: usize, w: usize) -> usize
    requires { (h < 4294967296) × (w < 4294967296) }
    ensures { (result ≡ mixed h w) × (result < 4294967296) }
{
    (h + w) * 1540483477 % 4294967296
}

// A text of 4 to 20 bytes, with no loop, since a length that varies makes a loop's end hard to foresee.
fn mix_five(t: &[u8]) -> usize
    requires { (4 ≤ length t.now) × (length t.now ≤ 20) }
    ensures { (result ≡ five t.now (length t.now - 4)) × (result < 4294967296) }
{
    let m = t.len() - 4;
    let two = mix(four(t, 0), four(t, m / 4));
    let three = mix(two, four(t, m / 2));
    let more = mix(three, four(t, m * 3 / 4));
    mix(more, four(t, m))
}

// Whether a text of n bytes has 4 to 12, as most keys have.
fn is_short(n: usize) -> bool
    ensures { result ≡ short n }
{
    (4 <= n) & (n <= 12)
}

// Three fours, each by a factor of its own: none waits for another.
fn mix_three(t: &[u8]) -> usize
    requires { 4 ≤ length t.now }
    ensures { (result ≡ three t.now (length t.now - 4)) × (result < 4294967296) }
{
    let m = t.len() - 4;
    (four(t, 0) * 625341585 + four(t, m / 2) * 1013904243 + four(t, m) * 668265263) % 4294967296
}

// A number and a salt, scaled to so many buckets.
fn scale(h: usize, salt: usize, buckets: usize) -> usize
    requires { (h < 4294967296) × (salt < 4294967296) × (0 < buckets) × (buckets ≤ 4096) }
    ensures { (result ≡ scaled_by buckets salt h) × (result < buckets) }
{
    (h + salt * 1540483477) % 4294967296 * buckets / 4294967296
}

fn fold(h: usize, w: usize) -> usize
    requires { (h < 8589934592) × (w < 8589934592) }
    ensures { (result ≡ folded h w) × (result < 8589934592) }
{
    let p = (h + w) * 625341585;
    p % 4294967296 + p / 4294967296
}

// The four lanes of a text's first n sixteens, side by side: none waits for another.
fn fold_lanes(t: &[u8], n: usize) -> usize
    requires { n * 16 ≤ length t.now }
    ensures { (result ≡ lanes t.now n) × (result < 8589934592) }
{
    let mut a = 0;
    let mut b = 0;
    let mut c = 0;
    let mut d = 0;
    for i in 0..n {
        let at = i * 16;
        a = fold(a, four(t, at));
        b = fold(b, four(t, at + 4));
        c = fold(c, four(t, at + 8));
        d = fold(d, four(t, at + 12));
    }
    fold(fold(fold(a, b), c), d)
}

fn fold_long(t: &[u8], n: usize) -> usize
    requires { (16 ≤ length t.now) × (n * 16 ≤ length t.now) }
    ensures { (result ≡ long t.now n) × (result < 8589934592) }
{
    let m = t.len();
    let one = fold(fold_lanes(t, n), four(t, m - 16));
    let two = fold(one, four(t, m - 12));
    let three = fold(two, four(t, m - 8));
    fold(three, four(t, m - 4))
}

// A text of other lengths than 4 to 12 bytes, by its first n sixteens if it is long. Few are: what is short is found by one test.
fn mix_rest(t: &[u8], n: usize) -> usize
    requires { n * 16 ≤ length t.now }
    ensures { (result ≡ rest t.now n) × (result < 4294967296) }
{
    if t.len() < 4 {
        return mix(0, few(t));
    }
    if t.len() <= 20 {
        return mix_five(t);
    }
    fold_long(t, n) % 4294967296
}

// A text by its first n sixteens and its last, if it is long.
fn mix_text(t: &[u8], n: usize) -> usize
    requires { n * 16 ≤ length t.now }
    ensures { (result ≡ cond (short (length t.now)) (three t.now (length t.now - 4)) (rest t.now n)) × (result < 4294967296) }
{
    if is_short(t.len()) {
        return mix_three(t);
    }
    mix_rest(t, n)
}

// The bucket of a text, of so many, by at most its first 64 bytes and its last sixteen: a long one costs little.
pub fn bucket(t: &[u8], salt: usize, buckets: usize) -> usize
    requires { (salt < 4294967296) × (0 < buckets) × (buckets ≤ 4096) }
    ensures { (result ≡ bucket_of buckets salt t.now) × (result < buckets) }
{
    scale(mix_text(t, (t.len() / 16).min(4)), salt, buckets)
}

// The same by all its bytes.
pub fn bucket_whole(t: &[u8], salt: usize, buckets: usize) -> usize
    requires { (salt < 4294967296) × (0 < buckets) × (buckets ≤ 4096) }
    ensures { (result ≡ whole_bucket_of buckets salt t.now) × (result < buckets) }
{
    scale(mix_text(t, t.len() / 16), salt, buckets)
}
