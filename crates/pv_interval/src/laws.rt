//! The inclusion property, as a contract.
ghost use Rattle.pv_interval.specs.Fractions.{plus, minus, times, opposite, size, least, greatest};
ghost use Rattle.pv_interval.specs.Tables.{sum_of, difference_of, product_of, negated, absolute, least_of, greatest_of, hull_of};
ghost use Rattle.pv_interval.specs.Inclusion.{HoldsPairs, HoldsEach, HoldsPowers, HoldsQuotients, HoldsLeft, HoldsRight, HoldsCommon};
ghost use Rattle.pv_interval.specs.Subsets.{KeepsPairs, KeepsEach, KeepsPowers, KeepsQuotients, KeepsMeets};

/// The inclusion property (Jaulin et al., 2001): where rational numbers lie in the arguments of an
/// operation, and the operation is defined for them, its result lies in the operation's interval.
/// It holds by its contract alone; the call does nothing.
pub fn inclusion()
    ensures sums { HoldsPairs plus sum_of }
    ensures differences { HoldsPairs minus difference_of }
    ensures products { HoldsPairs times product_of }
    ensures quotients { HoldsQuotients }
    ensures least { HoldsPairs least least_of }
    ensures greatest { HoldsPairs greatest greatest_of }
    ensures negations { HoldsEach opposite negated }
    ensures sizes { HoldsEach size absolute }
    ensures powers { HoldsPowers }
    ensures hulls_left { HoldsLeft }
    ensures hulls_right { HoldsRight }
    ensures meets { HoldsCommon }
{}

/// Operations are inclusion monotone (Moore, 1966): of parts of intervals the result lies in the
/// result of the whole. It holds by its contract alone; the call does nothing.
pub fn monotony()
    ensures sums { KeepsPairs sum_of }
    ensures differences { KeepsPairs difference_of }
    ensures products { KeepsPairs product_of }
    ensures quotients { KeepsQuotients }
    ensures least { KeepsPairs least_of }
    ensures greatest { KeepsPairs greatest_of }
    ensures negations { KeepsEach negated }
    ensures sizes { KeepsEach absolute }
    ensures powers { KeepsPowers }
    ensures hulls { KeepsPairs hull_of }
    ensures meets { KeepsMeets }
{}
