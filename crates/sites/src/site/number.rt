// Sites by their numbers.
ghost use Rattle.std.specs.Prelude.{◌≡◌, pos, nat_le};
ghost use Rattle.std.proofs.Common.{rules};

use super::Site;
use records::numbered::Numbered;
use slices::Ordered;

impl Site {
    pub fn record_number(&self) -> u16
        ensures { result ≡ self.now.number.value }
    {
        self.number.value()
    }
}

impl Numbered for Site {
    ghost number_of = { λ s. pos s.number.value };

    fn number(&self) -> i64 {
        i64::from(self.record_number())
    }
}

impl Ordered for Site {
    ghost at_most = { λ s t. nat_le s.number.value t.number.value };

    ghost total = { Prim.search rules };

    ghost transitive = { Prim.search rules };

    fn at_most(&self, other: &Site) -> bool {
        self.record_number() <= other.record_number()
    }
}
