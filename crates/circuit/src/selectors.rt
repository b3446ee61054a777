// Public rows among rows of selectors, which are lent column after column, or stand line after line in a table.
ghost use Rattle.std.specs.Prelude.{◌≡◌, ◌+◌, ◌*◌, ◌-◌, ◌<◌, ◌≤◌, length};
ghost use Rattle.circuit.specs.Circuit.{is_public};
ghost use Rattle.circuit.specs.Buffers.{selector_count};
ghost use Rattle.circuit.specs.Selectors.{is_public_at, unbound_in, Spaced};

// Whether these are the selectors of a public row: qL is 1, and the others are 0.
fn is_public(ql: u32, qr: u32, qo: u32, qm: u32, qc: u32) -> bool
    ensures { result ≡ is_public ql qr qo qm qc }
{
    ql == 1 && qr == 0 && qo == 0 && qm == 0 && qc == 0
}

// Whether the words from `at` on, which stand `apart` from one another, are the selectors of a public row.
fn is_public_at(words: &[u32], apart: usize, at: usize) -> bool
    requires { (length words.now ≤ 65536) × (at + (selector_count - 1) * apart < length words.now) }
    ensures { result ≡ is_public_at words.now apart at }
{
    is_public(
        words[at],
        words[at + apart],
        words[at + 2 * apart],
        words[at + 3 * apart],
        words[at + 4 * apart],
    )
}

// The lowest row below l that is no public row; l where each is one. The selectors of row i stand from word start + i * step on, `apart` from one
// another.
pub fn unbound_row(words: &[u32], start: usize, step: usize, apart: usize, l: usize) -> usize
    requires { Spaced words.now start step apart l }
    ensures { result ≡ unbound_in words.now start step apart l }
{
    for i in 0..l {
        if !is_public_at(words, apart, start + i * step) {
            return i;
        }
    }
    l
}
