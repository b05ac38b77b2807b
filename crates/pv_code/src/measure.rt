// How large an expression is after the expansion of its calls, found without expanding it.

ghost use Rattle.std.specs.Prelude.{◌≡◌, ℕ, ◌+◌, ◌*◌, ◌≤◌, List, [], length, max};
ghost use Rattle.pv_expr.specs.declared.constraint.Relation.{Relation};
ghost use Rattle.pv_expr.specs.Terms.{Term, one, two, node_count, depth_of};
ghost use Rattle.pv_code.specs.Expansion.{argument, nothing};
ghost use Rattle.pv_code.specs.Sizes.{IsRoom, IsSize, IsSizeOf, beside, cut, end_of, within};

use pv_expr::{MOST_TERM_DEPTH, MOST_TERM_NODES};

/// The most parameters of a function.
pub const MOST_PARAMETERS: u8 = 12;

/// How often a part stands in an expression, and how deep, with counts that stop at 2^64 - 1.
#[derive(Clone, Copy)]
pub struct Place {
    /// How many times.
    pub uses: u64,
    /// One more than the nodes above the deepest; 0 where there is none.
    pub reach: u64,
}

pub(crate) const NOWHERE: Place = Place { uses: 0, reach: 0 };

const ROOT: Place = Place { uses: 1, reach: 1 };

pub(crate) const BELOW: Place = Place { uses: 1, reach: 2 };

impl Place {
    // Of the same part in both.
    fn beside(self, other: Place) -> Place
        ensures { result ≡ beside self other }
    {
        Place {
            uses: self.uses.saturating_add(other.uses),
            reach: self.reach.max(other.reach),
        }
    }

    // Of a part of something that is at a place itself.
    fn within(self, at: Place) -> Place
        ensures { result ≡ within self at }
    {
        let reach = if self.reach > 0 && at.reach > 0 {
            self.reach.saturating_add(at.reach - 1)
        } else {
            0
        };
        Place {
            uses: self.uses.saturating_mul(at.uses),
            reach,
        }
    }
}

/// The size of an expanded expression, by its parts: the places of the parameters, and last those
/// of its own nodes.
#[derive(Clone, Copy)]
pub struct Measure {
    pub places: [Place; 13],
}

impl Measure {
    /// Of a parameter alone. One that no function has stands for a constant.
    pub(crate) fn of_parameter(i: u8) -> Measure
        ensures { (args : List Term) → length args ≤ MOST_PARAMETERS →
            IsSize result args (argument args i) }
    {
        let mut places = [NOWHERE; 13];
        places[usize::from(i).min(12)] = ROOT;
        Measure { places }
    }

    /// Of a constant or a variable.
    pub(crate) fn leaf() -> Measure
        ensures { (args : List Term) → length args ≤ MOST_PARAMETERS → IsSize result args nothing }
    {
        Measure::of_parameter(MOST_PARAMETERS)
    }

    /// With copies of another, as many and as deep as a place says.
    pub(crate) fn with(&self, other: &Measure, at: Place) -> Measure
        ensures { (args : List Term) (nodes depth : ℕ) (t : Term) →
            IsSizeOf self.now args nodes depth →
            IsSize other.now args t → IsSizeOf result args (nodes + node_count t * at.uses)
            (max depth (end_of at.reach (depth_of t))) }
    {
        let mut places = [NOWHERE; 13];
        for i in 0..13 {
            places[i] = self.places[i].beside(other.places[i].within(at));
        }
        Measure { places }
    }

    // All nodes, and the depth, where no function's parameters are left open.
    fn whole(&self) -> Place
        ensures nodes { (t : Term) → IsSize self.now [] t → cut (node_count t) ≡ cut result.uses }
        ensures depth { (t : Term) → IsSize self.now [] t → cut (depth_of t) ≡ cut result.reach }
    {
        let mut all = NOWHERE;
        for place in self.places {
            all = all.beside(place);
        }
        all
    }
}

/// The nodes with those of a constraint's sides, after `before` nodes. None where they are more
/// than the limit, or where a side is too deep.
pub(crate) fn with_sides(left: &Measure, right: &Measure, before: u64) -> Option<u64>
    ensures { (t u : Term) (r : Relation) → IsSize left.now [] t → IsSize right.now [] u →
        IsRoom before (record { left = t; relation = r; right = u }) result }
{
    let (left, right) = (left.whole(), right.whole());
    let shallow = left.reach <= MOST_TERM_DEPTH && right.reach <= MOST_TERM_DEPTH;
    let nodes = before.saturating_add(left.uses).saturating_add(right.uses);
    (shallow && nodes <= MOST_TERM_NODES).then_some(nodes)
}
