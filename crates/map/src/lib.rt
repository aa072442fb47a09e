// The page map: a lent byte for each page. Only FREE is free, whatever else a byte may be. Every function is total: a page that
// the map does not have is never free, and marking it changes nothing.
#![tactic(auto)]

ghost use Rattle.std.specs.Prelude.{◌≡◌, ◌<◌, ◌≤◌, length, take, set, IfSome};
ghost use Rattle.std.specs.Option.{unwrap_or};
ghost use Rattle.map.specs.Map.{free, used, held, first_free, alloc_of, leaves, allocated, beyond, free_count, released, cleared};

// A page's byte. The marks are bytes and no enum, since C lends the map, and it may hold any byte.
pub const FREE: u8 = 0;

pub const USED: u8 = 1;

pub const HELD: u8 = 2;

pub const OUTSIDE: u8 = 3;

// ---- allocation

// The index of the first free page.
fn first_free(m: &[u8]) -> Option<usize>
    ensures index { unwrap_or result (length m.now) ≡ first_free m.now }
    ensures bound { IfSome result (λ i. i < length m.now) }
{
    m.iter().position(|page| *page == FREE)
}

// The first free id below count from the cursor upward and round.
pub fn find_free(m: &[u8], count: usize, cursor: usize) -> Option<usize>
    ensures { result ≡ alloc_of m.now count cursor }
{
    let n = count.min(m.len());
    let (low, up) = m[..n].split_at(cursor.min(n));
    match first_free(up) {
        Some(i) => Some(low.len() + i),
        None => first_free(low),
    }
}

// The same, and the page is used from now on. The cursor is then `beyond_page` of it.
pub fn allocate(m: &mut [u8], count: usize, cursor: usize) -> Option<usize>
    ensures { leaves result m.new ≡ allocated m.old count cursor }
{
    let found = find_free(m, count, cursor);
    if let Some(i) = found {
        use_page(m, i);
    }
    found
}

// One beyond page i, round.
pub fn beyond_page(i: usize, count: usize) -> usize
    ensures { result ≡ beyond count i }
{
    if i < count && i + 1 < count { i + 1 } else { 0 }
}

// ---- marks

pub fn mark(m: &mut [u8], i: usize, v: u8)
    ensures { m.new ≡ set m.old i v }
{
    if i < m.len() {
        m[i] = v;
    }
}

pub fn use_page(m: &mut [u8], i: usize)
    ensures { m.new ≡ set m.old i used }
{
    mark(m, i, USED);
}

pub fn hold(m: &mut [u8], i: usize)
    ensures { m.new ≡ set m.old i held }
{
    mark(m, i, HELD);
}

pub fn free(m: &mut [u8], i: usize)
    ensures { m.new ≡ set m.old i free }
{
    mark(m, i, FREE);
}

// ---- counting

// How many pages below count are free.
pub fn count_free(m: &[u8], count: usize) -> usize
    ensures { result ≡ free_count (take count m.now) }
{
    let n = count.min(m.len());
    count_all(&m[..n])
}

// The bytes are counted 128 at a time into a byte, so that the compiler counts 16 in one step. A `for` over `chunks(128)` took a
// third longer, and one over `chunks_exact(128)` a quarter longer on a remainder.
fn count_all(m: &[u8]) -> usize
    ensures { result ≡ free_count m.now }
{
    let mut n = 0;
    let mut rest = m;
    while let Some((few, after)) = rest.split_first_chunk::<128>() {
        n += usize::from(count_few(few));
        rest = after;
    }
    n + usize::from(count_few(rest))
}

fn count_few(m: &[u8]) -> u8
    requires { length m.now ≤ 128 }
    ensures { result ≡ free_count m.now }
{
    let mut n = 0u8;
    for page in m {
        n += u8::from(*page == FREE);
    }
    n
}

// ---- the whole map

// Every held page becomes free, as it does once commit is done.
pub fn release(m: &mut [u8])
    ensures { m.new ≡ released m.old }
{
    for page in m.iter_mut() {
        *page = if *page == HELD { FREE } else { *page };
    }
}

// Pages below count are free, the others outside.
pub fn clear(m: &mut [u8], count: usize)
    ensures { m.new ≡ cleared (length m.old) count }
{
    let (inside, outside) = m.split_at_mut(count.min(m.len()));
    inside.fill(FREE);
    outside.fill(OUTSIDE);
}
