//! That no argument is lost, as a contract.
ghost use Rattle.pv_interval.specs.Fractions.{plus, minus, times, opposite, size, least, greatest};
ghost use Rattle.pv_project.specs.Projections.{back_add_of, back_sub_of, back_mul_of, back_min_of, back_max_of, back_neg_of, back_abs_of};
ghost use Rattle.pv_project.specs.Kept.{KeepsPairs, KeepsEach, KeepsQuotients, KeepsPowers};

/// Every pair of rational arguments from `x` and `y` whose defined result lies in `z` lies in the
/// projection's answer. It holds by its contract alone; the call does nothing.
pub fn keeps_arguments()
    ensures sums { KeepsPairs plus back_add_of }
    ensures differences { KeepsPairs minus back_sub_of }
    ensures products { KeepsPairs times back_mul_of }
    ensures quotients { KeepsQuotients }
    ensures least { KeepsPairs least back_min_of }
    ensures greatest { KeepsPairs greatest back_max_of }
    ensures negations { KeepsEach opposite back_neg_of }
    ensures sizes { KeepsEach size back_abs_of }
    ensures powers { KeepsPowers }
{}
