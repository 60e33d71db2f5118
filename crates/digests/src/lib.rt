// What RFC 1321 and FIPS 180-4 define: padding, MD5 and SHA-1. No code: `block`, `md5` and `sha1` have the functions.
#![tactic(auto)]

// Which byte of a number comes first: the low-order one, as in MD5, or the high-order one, as in SHA-1.
#[derive(Clone, Copy)]
pub enum Order {
    Little,
    Big,
}

// MD5's four registers A, B, C, D.
#[derive(Clone, Copy)]
pub struct State {
    pub a: u32,
    pub b: u32,
    pub c: u32,
    pub d: u32,
}

// SHA-1's five words: the working variables a, b, c, d, e, and in the same places the hash value.
#[derive(Clone, Copy)]
pub struct FiveWords {
    pub a: u32,
    pub b: u32,
    pub c: u32,
    pub d: u32,
    pub e: u32,
}
