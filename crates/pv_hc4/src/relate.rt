//! The relation between two sides.

ghost use Rattle.std.specs.Prelude.{◌≡◌, IsTrue, Some};
ghost use Rattle.pv_num.specs.Order.{le, lesser as lesser_of, greater as greater_of};
ghost use Rattle.pv_hc4.specs.Revise.{related_of, ordered_of};

use pv_expr::Relation;
use pv_interval::Interval;
use pv_num::Num;

fn lesser(a: Num, b: Num) -> Num
    ensures { result ≡ lesser_of a b }
{
    if a <= b { a } else { b }
}

fn greater(a: Num, b: Num) -> Num
    ensures { result ≡ greater_of a b }
{
    if a <= b { b } else { a }
}

// What is left of two intervals where a number of the first is at most one of the second.
fn ordered(l: Interval, r: Interval) -> Option<(Interval, Interval)>
    requires { IsTrue (le l.lo r.hi) }
    ensures { result ≡ Some (ordered_of l r) }
{
    let low = Interval::new(l.lo(), lesser(l.hi(), r.hi()))?;
    let high = Interval::new(greater(r.lo(), l.lo()), r.hi())?;
    Some((low, high))
}

// What is left of two sides' intervals; None where no two of their numbers stand so.
pub(crate) fn related(relation: Relation, l: Interval, r: Interval) -> Option<(Interval, Interval)>
    ensures { result ≡ related_of relation l r }
{
    match relation {
        Relation::Eq => {
            let both = l.meet(r)?;
            Some((both, both))
        }
        Relation::Le if r.hi() < l.lo() => None,
        Relation::Lt if r.hi() <= l.lo() => None,
        Relation::Ge if l.hi() < r.lo() => None,
        Relation::Gt if l.hi() <= r.lo() => None,
        Relation::Le | Relation::Lt => ordered(l, r),
        Relation::Ge | Relation::Gt => {
            let both = ordered(r, l)?;
            Some((both.1, both.0))
        }
    }
}
