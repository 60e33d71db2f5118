// A password as six words: a 64-bit number as six places of the dictionary, and back; the words written. Document 01, 'Six words and hex'.
#![tactic(auto)]

ghost use Rattle.std.specs.Prelude.{◌≡◌, ◌<◌, ◌^◌, true, ltb};
ghost use Rattle.std.specs.List.{list_all};
ghost use Rattle.sixwords.specs.Places.{pair_sum, places_of, all_places, joined, number_of};

// The six words written.
pub mod spelling;

// The six places of a number, most significant first: its 66 bits cut. (By an array's `map` over the six amounts, that each is below 128 wasn't proved.)
fn places_of(p: u64) -> [usize; 6]
    ensures { result ≡ places_of p }
{
    let whole = u128::from(p) * 4 + u128::from(pair_sum(p) % 4);
    let cut = |low: u32| ((whole >> low) % 2048) as usize;
    [cut(55), cut(44), cut(33), cut(22), cut(11), cut(0)]
}

// Whether each of six is one of 0 to 2,047.
fn all_places(places: &[usize; 6]) -> bool
    ensures { result ≡ list_all (λ place. ltb place 2048) places.now }
{
    places.iter().all(|place| *place < 2048)
}

// The 66 bits of six places.
fn joined(places: &[usize; 6]) -> u128
    requires { all_places places.now ≡ true }
    ensures { (result ≡ joined 0 places.now) × (result < 2 ^ 66) }
{
    let mut whole = 0;
    for place in places {
        whole = whole * 2048 + *place as u128;
    }
    whole
}

// The number of six places; none where the pair sum after it is wrong, or where a place is 2,048 or more.
pub fn number_of(places: [usize; 6]) -> Option<u64>
    ensures { result ≡ number_of places }
{
    if !all_places(&places) {
        return None;
    }
    let whole = joined(&places);
    let p = (whole / 4) as u64;
    if u128::from(pair_sum(p) % 4) == whole % 4 {
        Some(p)
    } else {
        None
    }
}

// The upper bit of each pair.
const UPPER: u64 = 0xaaaa_aaaa_aaaa_aaaa;

// The 32 pairs of bits of a number, added: each is worth its ones, and its upper one once more.
fn pair_sum(p: u64) -> u32
    ensures { result ≡ pair_sum p }
{
    p.count_ones() + (p & UPPER).count_ones()
}
