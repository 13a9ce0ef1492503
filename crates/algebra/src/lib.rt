// What the integers obey, for proofs about exact coordinates: they are an ordered commutative ring, and the two checkers of
// polynomial identities and of signs accept nothing false.
#![tactic(auto)]

ghost use Rattle.std.specs.Prelude.{◌≡◌};
ghost use Rattle.algebra.specs.Laws.{RingLaws, OrderLaws};
ghost use Rattle.algebra.specs.Promises.{IdentitiesHold, CertificatesHold};

/// The integers are a commutative ring.
pub fn integers_form_a_ring() -> u8
    ensures { RingLaws }
{
    0
}

/// Their order is total, and sums and products follow it.
pub fn integers_are_ordered() -> u8
    ensures { OrderLaws }
{
    0
}

/// Two expressions with one normal form have the same value, whatever integers their unknowns are.
pub fn identities_hold() -> u8
    ensures { IdentitiesHold }
{
    0
}

/// An order or an equation that a certificate shows from given facts holds wherever these do.
pub fn certificates_hold() -> u8
    ensures { CertificatesHold }
{
    0
}
