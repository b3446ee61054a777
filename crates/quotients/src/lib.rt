// F and its quotient by X^n - 1, on slices. The number e is 1 where the wires and z are blinded, else 0.
//
// The functions for the layers above, which have checked their numbers, are `fill` and `divide`.
#![tactic(auto)]

ghost use Rattle.std.specs.Prelude.{◌≡◌};
ghost use Rattle.algebra.specs.Polynomial.{reduced};
ghost use Rattle.circuit.specs.Buffers.{f_length};
ghost use Rattle.circuit.specs.Circuit.{lent_public};
ghost use Rattle.protocol.specs.Protocol.{point_f};
ghost use Rattle.quotients.specs.Buffers.{Fillable};

use field::rows::Domain;

mod division;
mod gates;
mod start;

pub use division::divide;

// F of a prepared circuit, public inputs, wires and z, whatever `out` held. `laid` are a, b, c and z.
pub fn fill(
    e: usize,
    domain: &Domain,
    publics: &[u32],
    prepared: &[u32],
    laid: &[u32],
    beta: u32,
    gamma: u32,
    alpha: u32,
    out: &mut [u32],
)
    requires { Fillable e domain.now.p domain.now.n publics.now prepared.now laid.now out.old }
    ensures { out.new ≡ reduced domain.now.p (f_length e domain.now.n)
        (point_f e domain.now.p domain.now.n prepared.now (lent_public publics.now) laid.now beta gamma alpha) }
{
    out.fill(0);
    gates::add_public_gate(e, domain, publics, prepared, laid, out);
    steps::add_step(e, domain, prepared, laid, beta, gamma, alpha, out);
    start::add_start(e, domain, laid, alpha, out);
}
