//! No member that is tried has a value below the bound.

use crate::worked::search;
use pv_num::{End, Num};

// How far i/24 lies from 4, in units of 1/24.
fn distance(i: u32) -> u32 {
    if i < 96 { 96 - i } else { i - 96 }
}

fn square(n: u32) -> u32 {
    n.saturating_mul(n)
}

// Of the points y from -4 to 4 whose number is a whole multiple of 1/24, how many have x + y at
// least 2, at the x that is number i of such points. None where x^2 + y^2 is below a bound at one.
fn tried_beside(i: u32, lower: Num) -> Option<u32> {
    let mut count = 0u32;
    for j in 240u32.saturating_sub(i)..193 {
        let squares = square(distance(i)).saturating_add(square(distance(j)));
        if Num::from_ratio(squares as i128, 576, End::Down) < lower {
            return None;
        }
        count = count.saturating_add(1);
    }
    Some(count)
}

// The same for all such x from -4 to 4 together.
fn tried(lower: Num) -> Option<u32> {
    let mut count = 0u32;
    for i in 0u32..193 {
        count = count.saturating_add(tried_beside(i, lower)?);
    }
    Some(count)
}

#[test]
fn sums_of_squares(rt: HostRuntime) {
    let text = "Variables x in [-4,4], y in [-4,4]; Constraints x+y >= 2; end";
    let eps = Num::fin(1, -3).unwrap_or(Num::ZERO);
    let found = search(rt.alloc(), text, "x^2+y^2", eps, 200);
    let count = match &found {
        Some(found) => tried(found.lower),
        None => None,
    };
    assert_eq!(rt; count, Some(10_585));
}
