// The public inputs as row values, and their polynomial.
ghost use Rattle.std.specs.Prelude.{◌≡◌, ◌<◌, length};
ghost use Rattle.algebra.specs.Lists.{tab, All};
ghost use Rattle.transform.specs.Transform.{interpolation};
ghost use Rattle.circuit.specs.Circuit.{lent_public};

use field::rows::Domain;

// The public input of a row; 0 past their end.
pub fn public_of(publics: &[u32], i: usize) -> u32
    ensures { result ≡ lent_public publics.now i }
{
    publics.get(i).copied().unwrap_or(0)
}

// The public inputs of as many rows as `out` has words.
fn fill_publics(publics: &[u32], out: &mut [u32])
    ensures { out.new ≡ tab (lent_public publics.now) (length out.old) }
{
    for (i, word) in out.iter_mut().enumerate() {
        *word = public_of(publics, i);
    }
}

// Their polynomial, of the domain's rows.
pub fn public_polynomial(domain: &Domain, publics: &[u32], xs: &mut [u32], spare: &mut [u32])
    requires elements { All (λ x. x < domain.now.p) publics.now }
    requires xs_len { (length xs.old ≡ domain.now.n) × (length spare.old ≡ domain.now.n) }
    ensures { xs.new ≡ interpolation domain.now.p domain.now.n (lent_public publics.now) }
{
    fill_publics(publics, xs);
    transform::interpolate_in_place(domain, xs, spare);
}
