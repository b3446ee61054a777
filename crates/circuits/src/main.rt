// What is computed and no data: transforms and layouts there and back, circuits made by a rule and proved, openings, products, and counts over all zetas, mixing
// numbers and gammas. One line a case: a label in words, then words and numbers.
#![tactic(auto)]

ghost use Rattle.std.specs.Prelude.{◌≤◌};

mod counts;
mod made;

// The lines of every size from 2 to the greatest. Nothing is proved over 97.
fn every_size(rt: HostRuntime, p: u32, greatest: u32)
    requires { greatest ≤ 1024 }
{
    let mut n: u32 = 2;
    // Stays a while: n doubles. A `for` over its exponents would need the greatest one, and n from it, in two lines more.
    while n <= greatest {
        random_cases::there_and_back(rt, p, n);
        if p != 97 {
            made::lines(rt, b"half of the rows public", p, n, n / 2, 2 * n);
        }
        n = 2 * n;
    }
}

fn main(rt: HostRuntime) {
    every_size(rt, 17, 4);
    every_size(rt, 97, 32);
    every_size(rt, 2013265921, 1024);
    made::others(rt);
    random_cases::run(rt);
    counts::worked_sheet(rt);
    counts::lost_gammas(rt);
}
