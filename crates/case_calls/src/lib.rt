// The calls that are lent words, an arm each: a call that is added is one arm more.
//
// The letters a to g are its first seven buffers, lent to be read; x, y and z are those that it may write, in their order. `open` asks one lifetime of its
// first two.
#![tactic(auto)]

// The calls that are lent one number, n.
fn make_transfer(name: &[u8], n: u32, a: &[u32], x: &mut [u32], answer: &mut [u32]) {
    match name {
        b"to_rows" => exports::guppyspoon_to_rows(n, a, x, answer),
        b"to_columns" => exports::guppyspoon_to_columns(n, a, x, answer),
        _ => {}
    }
}

// The calls that are lent two numbers and three buffers or fewer.
fn make_small(
    name: &[u8],
    p: u32,
    n: u32,
    a: &[u32],
    b: &[u32],
    x: &mut [u32],
    y: &mut [u32],
    answer: &mut [u32],
) {
    match name {
        b"inverse" => exports::guppyspoon_inverse(p, n, answer),
        b"evaluate" => exports::guppyspoon_evaluate(p, n, a, x, y, answer),
        b"interpolate" => exports::guppyspoon_interpolate(p, n, a, x, y, answer),
        b"permutation" => exports::guppyspoon_permutation(p, n, a, x, answer),
        b"lost_gammas" => exports::guppyspoon_lost_gammas(p, n, a, b, answer),
        _ => make_transfer(name, p, a, x, answer),
    }
}

// The call of this name, if there is one. Where there is none no answer is written.
pub fn make<'a>(
    name: &[u8],
    numbers: &[u32; 3],
    a: &'a [u32],
    b: &'a [u32],
    c: &[u32],
    d: &[u32],
    e: &[u32],
    f: &[u32],
    g: &[u32],
    x: &mut [u32],
    y: &mut [u32],
    z: &mut [u32],
    answer: &mut [u32],
) {
    let [p, n, l] = *numbers;
    match name {
        b"prepare" => exports::guppyspoon_prepare(p, n, l, a, b, x, y, answer),
        b"check_rows" => exports::guppyspoon_check_rows(p, n, l, a, b, c, d, e, f, answer),
        b"check_point" => exports::guppyspoon_check_point(p, n, l, a, b, c, d, x, answer),
        b"open" => exports::guppyspoon_open(p, n, a, b, c, x, y, f, z, answer),
        b"check_opening" => exports::guppyspoon_check_opening(p, n, a, b, c, d, e, f, x, answer),
        b"prove" => exports::guppyspoon_prove(p, n, l, a, b, c, d, x, f, y, answer),
        b"prove_blinded" => exports::guppyspoon_prove_blinded(
            p, n, l, a, b, c, d, x, f, g, y, answer,
        ),
        _ => make_small(name, p, n, a, b, x, y, answer),
    }
}
