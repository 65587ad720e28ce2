//! The order in which a set has its members.
use crate::constant::Const;
use crate::order::order;
use std::cmp::Ordering;
use std::marker::Model;

/// A constant that compares as members of sets do.
#[derive(Drop)]
pub struct Ranked {
    /// The constant.
    pub constant: Const,
}

impl Model for Ranked {
    ghost use Rattle.std.specs.Coded.{codes};
    ghost use Rattle.const_expr.specs.contracts.constant.Const as e;
    ghost use Rattle.const_expr.specs.declared.constant.Const.{Const as ConstOf};

    ghost Value = { ConstOf };

    ghost coded = { Prim.hlevel (codes, e.the_row.coded) };

    ghost view = { λ r. r.constant };
}

impl PartialEq for Ranked {
    ghost use Rattle.std.specs.Ordering.{eq_by_cmp};
    ghost use Rattle.std.specs.Cmp.{partial_equiv_from_equiv};
    ghost use Rattle.std.proofs.lemmas.Cmp.{eq_by_cmp_equiv};
    ghost use Rattle.const_expr.specs.Constants.{const_order};
    ghost use Rattle.const_expr.specs.Order.{const_order_total};

    ghost eq = { eq_by_cmp const_order };

    ghost laws = { partial_equiv_from_equiv (eq_by_cmp_equiv const_order_total) };

    fn eq(&self, other: &Ranked) -> bool {
        self.cmp(other) == Ordering::Equal
    }
}

impl Eq for Ranked {
    ghost use Rattle.std.proofs.lemmas.Cmp.{eq_by_cmp_equiv};
    ghost use Rattle.const_expr.specs.Order.{const_order_total};

    ghost laws = { eq_by_cmp_equiv const_order_total };
}

impl PartialOrd for Ranked {
    ghost use Rattle.std.specs.Prelude.{refl};
    ghost use Rattle.std.specs.Ordering.{as_partial_cmp};
    ghost use Rattle.std.specs.Cmp.{po};
    ghost use Rattle.const_expr.specs.Constants.{const_order};
    ghost use Rattle.const_expr.specs.Order.{const_order_total};

    ghost partial_cmp = { as_partial_cmp const_order };

    ghost laws = { po const_order_total (λ x y. refl) };

    fn partial_cmp(&self, other: &Ranked) -> Option<Ordering> {
        Some(self.cmp(other))
    }
}

impl Ord for Ranked {
    ghost use Rattle.std.specs.Prelude.{refl};
    ghost use Rattle.const_expr.specs.Constants.{const_order};
    ghost use Rattle.const_expr.specs.Order.{const_order_total};

    ghost cmp = { const_order };

    ghost total = { const_order_total };

    ghost matches_partial_cmp = { λ x y. refl };

    ghost matches_eq = { λ x y. refl };

    fn cmp(&self, other: &Ranked) -> Ordering {
        order(&self.constant, &other.constant)
    }
}
