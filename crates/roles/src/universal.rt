// A universal role over any hierarchy.
ghost use Rattle.std.specs.Prelude.{◌≡◌, ◌<◌, IfOk, if◌then◌else◌, nat_lt};
ghost use Rattle.denial.specs.Denials.{answer, granted, denied, reported, denial_report};
ghost use Rattle.denial.specs.declared.Layer.TheVariants.{Register};
ghost use Rattle.meaning.specs.Universal.{universal_size, universal_under, universal_passing, universal_law, universal_inside, AddsUniversal};

use denial::Denial;
use meaning::{Hierarchy, Order};

// As many roles as a hierarchy can have.
const ROLES: usize = 64;

// A lent hierarchy with one more role, which has the next number: it is transitive, every role is below it, and it is
// below no other.
#[derive(Drop)]
pub struct Universal<'h, H: Hierarchy> {
    base: &'h H,
    ghost room: { H.Order.size base.now < 64 },
}

impl<'h, H: Hierarchy> Universal<'h, H> {
    // Refused where the hierarchy has all the numbers.
    pub fn over(base: &'h H) -> Result<Universal<'h, H>, Denial>
        ensures value { answer (λ x. x.base.now) denial_report result ≡ (if nat_lt (H.Order.size base.now) 64 then granted base.now else denied (reported 12 (H.Order.size base.now) Register)) }
        ensures adds { IfOk result (λ x. AddsUniversal (H.Order.size x.base.now) (H.Order.under x.base.now) (H.Hierarchy.passing x.base.now)) }
    {
        let n = base.count();
        if n < ROLES {
            Ok(Universal { base })
        } else {
            Err(Denial::RoleCount(n))
        }
    }
}

impl<'h, H: Hierarchy> Order for Universal<'h, H> {
    ghost size = { λ x. universal_size (H.Order.size x.base.now) };

    ghost under = { λ x. universal_under (H.Order.size x.base.now) (H.Order.under x.base.now) };

    fn count(&self) -> usize {
        self.base.count() + 1
    }

    fn below(&self, r: usize, s: usize) -> bool {
        let n = self.base.count();
        if s == n {
            r <= n
        } else {
            self.base.below(r, s)
        }
    }

    ghost lawful = { λ x. universal_law (H.Order.size x.base.now) (H.Order.under x.base.now) (H.Order.lawful x.base.now) };
}

impl<'h, H: Hierarchy> Hierarchy for Universal<'h, H> {
    ghost passing = { λ x. universal_passing (H.Order.size x.base.now) (H.Hierarchy.passing x.base.now) };

    fn transitive(&self, r: usize) -> bool {
        r == self.base.count() || self.base.transitive(r)
    }

    ghost inside = { λ x. universal_inside (H.Order.size x.base.now) (H.Hierarchy.passing x.base.now) x.room (H.Hierarchy.inside x.base.now) };
}
