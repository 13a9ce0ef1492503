//! Edges by their numbers.
ghost use Rattle.std.specs.Prelude.{pos, nat_le};
ghost use Rattle.std.proofs.Common.{rules, arith};

use super::Edge;
use records::numbered::Numbered;
use slices::Ordered;

impl Numbered for Edge {
    ghost number_of = { λ e. pos e.number.value };

    fn number(&self) -> i64 {
        i64::from(self.record_number())
    }
}

impl Ordered for Edge {
    ghost at_most = { λ e f. nat_le e.number.value f.number.value };

    ghost total = { first_of (Prim.search rules, Prim.grind (arith, Self.row.coded.inj)) };

    ghost transitive = { first_of (Prim.search rules, Prim.grind (arith, Self.row.coded.inj)) };

    fn at_most(&self, other: &Edge) -> bool {
        self.record_number() <= other.record_number()
    }
}
