// The value at a point of the polynomial of the public inputs.
ghost use Rattle.std.specs.Prelude.{◌≡◌, ◌%◌, ◌≤◌, length};
ghost use Rattle.algebra.specs.Polynomial.{eval};
ghost use Rattle.transform.specs.Transform.{interpolation};
ghost use Rattle.circuit.specs.Circuit.{lent_public};
ghost use Rattle.circuit.specs.Publics.{LentPublics};

use field::rows::Domain;

// Its value at x. The scratch is written.
#[tactic(auto, using(crate::proofs::Arithmetic::positive, crate::proofs::Arithmetic::small))]
pub fn public_at(p: u32, n: u32, publics: &[u32], x: u32, scratch: &mut [u32]) -> u32
    requires lent_publics { LentPublics p n publics.now }
    requires n_in_bounds { n ≤ length scratch.old }
    ensures { result ≡ eval (interpolation p n (lent_public publics.now)) x % p }
{
    let m = n as usize;
    let mut xs: [u32; field::ROWS_ROOM] = field::room();
    circuit::public_polynomial(&Domain::new(p, n), publics, &mut xs[..m], &mut scratch[..m]);
    polynomials::horner(p, &xs[..m], x)
}
