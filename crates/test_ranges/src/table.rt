//! Cases of slopes and centered forms. Written by tests/generators/slope_vectors.py: change them
//! there.
use crate::ranges::Case;
use crate::settled::As::{Cut, Inner, Removed, Small};
use crate::settled::Settled;
use crate::slopes::Slope;

pub(crate) static SUMS_AND_PRODUCTS: [Case; 10] = [
    (
        "Variables x in [0,1], y in [0,1]; Constraints x - x <= 0; End",
        Some(((0, 0), (0, 0))),
    ),
    (
        "Variables x in [0,4], y in [1,3]; Constraints x + y - x >= 2; End",
        Some(((-1, 0), (1, 0))),
    ),
    (
        "Variables x in [-1,3], y in [2,5]; Constraints x * y - y * x = 0; End",
        Some(((-3, 1), (3, 1))),
    ),
    (
        "Variables x in [1,2], y in [1,2]; Constraints x * y - x - y <= 0; End",
        Some(((-3, -1), (0, 0))),
    ),
    (
        "Variables x in [0.1,0.3], y in [0.1,0.7]; Constraints x * (y - x) + x * x = 1; End",
        Some(((-1210567579837189325, -60), (-887749558547272171, -60))),
    ),
    (
        "Variables x in [-2,2], y in [-2,2]; Constraints x * x - y * y >= x - y; End",
        Some(((-3, 2), (3, 2))),
    ),
    (
        "Variables x in [3,3], y in [1,1]; Constraints x * y - 3 <= 0; End",
        Some(((0, 0), (0, 0))),
    ),
    (
        "Variables x in [1,1.25], y in [2,2.25]; Constraints x * y * x * y - 7 = x; End",
        Some(((-17, -2), (-87, -8))),
    ),
    (
        "Variables x in [-1,0], y in [0,1]; Constraints -x * y + x <= 2 * x * y; End",
        Some(((-1, 0), (1, 1))),
    ),
    (
        "Variables x in [1e9,1000000001], y in [-1e9,0]; Constraints x * y - y * x <= 0.1; End",
        Some(((-1073741824214748365, -31), (4294967295141006541, -33))),
    ),
];

pub(crate) static QUOTIENTS: [Case; 10] = [
    (
        "Variables x in [1,2], y in [1,2]; Constraints x / y - x = 0; End",
        Some(((-5, -2), (1, -2))),
    ),
    (
        "Variables x in [1,2], y in [1,2]; Constraints x / x <= 1; End",
        Some(((0, 0), (0, 0))),
    ),
    (
        "Variables x in [1,2], y in [-3,-2]; Constraints x / y + y / x >= 0; End",
        Some(((-3843071682022823255, -60), (-1537228672809129301, -60))),
    ),
    (
        "Variables x in [0.5,0.75], y in [1,3]; Constraints (x + y) / (x - y - 3) <= 0.1; End",
        Some(((-127486512528641733, -57), (-1188396012440903805, -61))),
    ),
    (
        "Variables x in [-2,-1], y in [4,5]; Constraints (x * y) / (y * y) - x / y = 0; End",
        Some(((-2767011611056432749, -65), (2767011611056432749, -65))),
    ),
    (
        "Variables x in [1,2], y in [-1,1]; Constraints x / y <= 1; End",
        Some(((-1, 999), (1, 999))),
    ),
    (
        "Variables x in [1,2], y in [0,1]; Constraints x / y >= 1; End",
        Some(((0, 0), (1, 999))),
    ),
    (
        "Variables x in [1,2], y in [0,0]; Constraints x / y >= 1; End",
        None,
    ),
    (
        "Variables x in [0,0], y in [-1,1]; Constraints x / y = 0; End",
        Some(((0, 0), (0, 0))),
    ),
    (
        "Variables x in [1,2], y in [3,4]; Constraints 1 / x - 1 / y - (y - x) / (x * y) = 0; End",
        Some(((-2671849836073010457, -63), (2671849836073010455, -63))),
    ),
];

pub(crate) static POWERS: [Case; 10] = [
    (
        "Variables x in [-2,3], y in [0,1]; Constraints x^0 - y^0 = 0; End",
        Some(((0, 0), (0, 0))),
    ),
    (
        "Variables x in [-2,3], y in [0,1]; Constraints x^1 - x + y^1 <= 1; End",
        Some(((-1, 0), (0, 0))),
    ),
    (
        "Variables x in [-1,3], y in [0,1]; Constraints x^2 - x * x <= y; End",
        Some(((-9, 0), (1, 3))),
    ),
    (
        "Variables x in [1,2], y in [1,2]; Constraints x^2 - 2 * x * y + y^2 >= 0; End",
        Some(((-1, 0), (1, 0))),
    ),
    (
        "Variables x in [-1,2], y in [0,1]; Constraints x^3 - x <= y^3; End",
        Some(((-1, 2), (27, -2))),
    ),
    (
        "Variables x in [0.9,1.1], y in [0.1,0.3]; Constraints x^4 - x^3 + y^2 = 0.25; End",
        Some(((-4179109869898898927, -63), (610587228839786181, -64))),
    ),
    (
        "Variables x in [-1.5,-1], y in [2,3]; Constraints x^5 + y^5 - x^4 * y >= 0; End",
        Some(((295, -5), (15, 4))),
    ),
    (
        "Variables x in [-0.5,0.5], y in [-0.5,0.5]; Constraints (x + y)^5 - x^5 = y; End",
        Some(((-1, 0), (1, 0))),
    ),
    (
        "Variables x in [1,1.001], y in [1,1.001]; Constraints x^32 - y^32 <= 0; End",
        Some(((-37471097396643645, -60), (37471097396643645, -60))),
    ),
    (
        "Variables x in [-3,-2], y in [0.3,0.4]; Constraints (x * y)^4 - (x + 1)^2 = 1; End",
        Some(((-2772642011310571339, -59), (-2388251676635170221, -62))),
    ),
];

pub(crate) static SIZES_AND_CHOICES: [Case; 10] = [
    (
        "Variables x in [1,2], y in [0,1]; Constraints abs(x) - x <= 0; End",
        Some(((0, 0), (0, 0))),
    ),
    (
        "Variables x in [-2,-1], y in [0,1]; Constraints abs(x) + x <= 0; End",
        Some(((0, 0), (0, 0))),
    ),
    (
        "Variables x in [-1,2], y in [0,1]; Constraints abs(x) - x <= y; End",
        Some(((-3, 0), (3, 0))),
    ),
    (
        "Variables x in [-1,1], y in [-1,1]; Constraints abs(x - y) - abs(y - x) = 0; End",
        Some(((-1, 1), (1, 1))),
    ),
    (
        "Variables x in [0,1], y in [2,3]; Constraints min(x, y) - x <= 0; End",
        Some(((0, 0), (0, 0))),
    ),
    (
        "Variables x in [2,3], y in [0,1]; Constraints min(x, y) - y <= 0; End",
        Some(((0, 0), (0, 0))),
    ),
    (
        "Variables x in [0,2], y in [1,3]; Constraints min(x, y) - x <= 0; End",
        Some(((-1, 1), (1, 1))),
    ),
    (
        "Variables x in [0,1], y in [1,3]; Constraints max(x, y) - y <= 0; End",
        Some(((0, 0), (0, 0))),
    ),
    (
        "Variables x in [1,3], y in [0,1]; Constraints max(x, y) - x <= 0; End",
        Some(((0, 0), (0, 0))),
    ),
    (
        "Variables x in [0,2], y in [1,3]; Constraints max(x, y) + min(x, y) - x - y = 0; End",
        Some(((-1, 1), (1, 1))),
    ),
];

pub(crate) static ENDS: [Case; 10] = [
    (
        "Variables x in [0,+oo], y in [0,1]; Constraints x - x <= 0; End",
        Some(((-1, 999), (1, 999))),
    ),
    (
        "Variables x in [0,1], y in [-oo,+oo]; Constraints x * y - y * x <= 0; End",
        Some(((-1, 999), (1, 999))),
    ),
    (
        "Variables x in [-oo,0], y in [1,2]; Constraints x / y <= 0; End",
        Some(((-1, 999), (0, 0))),
    ),
    (
        "Variables x in [0,1e9], y in [0,1]; Constraints x^32 - x^32 * y <= 0; End",
        Some(((-1, 999), (1, 999))),
    ),
    (
        "Variables x in [0,1], y in [0,1e30]; Constraints y^5 * y^5 - x <= 0; End",
        Some(((-1, 0), (1, 999))),
    ),
    (
        "Variables x in [0,0], y in [0,0]; Constraints x * y + x = y; End",
        Some(((0, 0), (0, 0))),
    ),
    (
        "Variables x in [0.1,0.1], y in [0.3,0.3]; Constraints x + x + x = y; End",
        Some(((-1, -63), (1, -63))),
    ),
    (
        "Variables x in [-1,1], y in [2,4]; Constraints (x - x) / y <= 0; End",
        Some(((0, 0), (0, 0))),
    ),
    (
        "Variables x in [1,2], y in [1,2]; Constraints (x - x) / (y - y + 1) = 0; End",
        Some(((-1, 999), (1, 999))),
    ),
    (
        "Variables x in [1,2], y in [1,2]; Constraints y / (x - x + 0.5) = 0; End",
        Some(((-1, 999), (1, 999))),
    ),
];

pub(crate) static SYSTEMS: [Case; 10] = [
    (
        "Variables x in [0,1], y in [0,1]; Constraints x^2 + 3 * x * y - y + 0.5 - x * y >= 0; End",
        Some(((-3, -1), (3, 0))),
    ),
    (
        "Variables x in [0.25,0.5], y in [0.25,0.5]; Constraints x^3 * y + 2 * x^2 - y * x + y^2 - 0.3 = 0; End",
        Some(((-2690450417391134311, -63), (1354682767913045197, -62))),
    ),
    (
        "Variables x in [1,1.5], y in [-0.5,0]; Constraints (x^2 + y^2)^2 - 2 * (x^2 - y^2) <= 0; End",
        Some(((-103, -5), (5, -1))),
    ),
    (
        "Variables x in [-0.1,0.1], y in [-0.1,0.1]; Constraints x * (1 - x) * (1 + x) - y * (1 - y) * (1 + y) = 0; End",
        Some(((-2232056032918855747, -63), (2232056032918855747, -63))),
    ),
    (
        "Variables x in [2,2.5], y in [3,3.5]; Constraints (x - 2) * (y - 3) / (x * y - 1) >= x - y; End",
        Some(((1, -1), (3520755678081340255, -61))),
    ),
    (
        "Variables x in [0,2], y in [0,2]; Constraints min(x * y, x + y) - max(x - y, x * x) <= 1; End",
        Some(((-5, 0), (3, 0))),
    ),
    (
        "Variables x in [0.3,0.7], y in [0.1,0.9]; Constraints abs(x - 0.5) * abs(y - 0.5) - (x - 0.5) * (y - 0.5) <= 0; End",
        Some(((-737869762948382065, -63), (737869762948382065, -62))),
    ),
    (
        "Variables x in [1,3], y in [1,3]; Constraints x / (x + y) + y / (x + y) = 1; End",
        Some(((-3074457345618258603, -63), (3074457345618258603, -63))),
    ),
    (
        "Variables x in [0.4,0.6], y in [0.4,0.6]; Constraints (1 - x)^3 + 3 * x * (1 - x)^2 * y + x^3 > 0.2; End",
        Some(((2995751237570431167, -65), (3632163908113410717, -63))),
    ),
    (
        "Variables x in [-4,-3], y in [-2,-1]; Constraints x^2 * y^2 - (x * y)^2 < 1; End",
        Some(((-77, -2), (69, -2))),
    ),
];

pub(crate) static SLOPES: [Slope; 60] = [
    (
        "Variables x in [0,1], y in [0,1]; Constraints x - x <= 0; End",
        0,
        Some(((0, 0), (0, 0))),
    ),
    (
        "Variables x in [0,4], y in [1,3]; Constraints x + y - x >= 2; End",
        1,
        Some(((1, 0), (1, 0))),
    ),
    (
        "Variables x in [-1,3], y in [2,5]; Constraints x * y - y * x = 0; End",
        0,
        Some(((-3, -1), (3, -1))),
    ),
    (
        "Variables x in [1,2], y in [1,2]; Constraints x * y - x - y <= 0; End",
        1,
        Some(((0, 0), (1, 0))),
    ),
    (
        "Variables x in [0.1,0.3], y in [0.1,0.7]; Constraints x * (y - x) + x * x = 1; End",
        0,
        Some(((3689348814741910321, -64), (345876451382054093, -59))),
    ),
    (
        "Variables x in [-2,2], y in [-2,2]; Constraints x * x - y * y >= x - y; End",
        1,
        Some(((-1, 0), (3, 0))),
    ),
    (
        "Variables x in [3,3], y in [1,1]; Constraints x * y - 3 <= 0; End",
        0,
        Some(((1, 0), (1, 0))),
    ),
    (
        "Variables x in [1,1.25], y in [2,2.25]; Constraints x * y * x * y - 7 = x; End",
        1,
        Some(((281, -6), (1665, -8))),
    ),
    (
        "Variables x in [-1,0], y in [0,1]; Constraints -x * y + x <= 2 * x * y; End",
        0,
        Some(((-1, -1), (-1, -1))),
    ),
    (
        "Variables x in [1e9,1000000001], y in [-1e9,0]; Constraints x * y - y * x <= 0.1; End",
        1,
        Some(((-1, -1), (1, -1))),
    ),
    (
        "Variables x in [1,2], y in [1,2]; Constraints x / y - x = 0; End",
        0,
        Some(((-1, -1), (0, 0))),
    ),
    (
        "Variables x in [1,2], y in [1,2]; Constraints x / x <= 1; End",
        1,
        Some(((0, 0), (0, 0))),
    ),
    (
        "Variables x in [1,2], y in [-3,-2]; Constraints x / y + y / x >= 0; End",
        0,
        Some(((1537228672809129301, -62), (768614336404564651, -59))),
    ),
    (
        "Variables x in [0.5,0.75], y in [1,3]; Constraints (x + y) / (x - y - 3) <= 0.1; End",
        1,
        Some(((-4540737002759274245, -65), (-2683162774357752961, -65))),
    ),
    (
        "Variables x in [-2,-1], y in [4,5]; Constraints (x * y) / (y * y) - x / y = 0; End",
        0,
        Some(((-645636042579834307, -63), (1498797955988901069, -64))),
    ),
    (
        "Variables x in [1,2], y in [-1,1]; Constraints x / y <= 1; End",
        1,
        None,
    ),
    (
        "Variables x in [1,2], y in [0,1]; Constraints x / y >= 1; End",
        0,
        None,
    ),
    (
        "Variables x in [1,2], y in [0,0]; Constraints x / y >= 1; End",
        1,
        None,
    ),
    (
        "Variables x in [0,0], y in [-1,1]; Constraints x / y = 0; End",
        0,
        None,
    ),
    (
        "Variables x in [1,2], y in [3,4]; Constraints 1 / x - 1 / y - (y - x) / (x * y) = 0; End",
        1,
        Some(((-2488846422643352203, -64), (301955632158936113, -62))),
    ),
    (
        "Variables x in [-2,3], y in [0,1]; Constraints x^0 - y^0 = 0; End",
        0,
        Some(((0, 0), (0, 0))),
    ),
    (
        "Variables x in [-2,3], y in [0,1]; Constraints x^1 - x + y^1 <= 1; End",
        1,
        Some(((1, 0), (1, 0))),
    ),
    (
        "Variables x in [-1,3], y in [0,1]; Constraints x^2 - x * x <= y; End",
        0,
        Some(((-1, 2), (1, 2))),
    ),
    (
        "Variables x in [1,2], y in [1,2]; Constraints x^2 - 2 * x * y + y^2 >= 0; End",
        1,
        Some(((-3, -1), (3, -1))),
    ),
    (
        "Variables x in [-1,2], y in [0,1]; Constraints x^3 - x <= y^3; End",
        0,
        Some(((-5, -2), (17, -2))),
    ),
    (
        "Variables x in [0.9,1.1], y in [0.1,0.3]; Constraints x^4 - x^3 + y^2 = 0.25; End",
        1,
        Some(((1383505805528216371, -62), (2305843009213693953, -62))),
    ),
    (
        "Variables x in [-1.5,-1], y in [2,3]; Constraints x^5 + y^5 - x^4 * y >= 0; End",
        0,
        Some(((5791, -8), (11361, -8))),
    ),
    (
        "Variables x in [-0.5,0.5], y in [-0.5,0.5]; Constraints (x + y)^5 - x^5 = y; End",
        1,
        Some(((-1, 0), (0, 0))),
    ),
    (
        "Variables x in [1,1.001], y in [1,1.001]; Constraints x^32 - y^32 <= 0; End",
        0,
        Some(((2323802968759553535, -56), (2360084205820901075, -56))),
    ),
    (
        "Variables x in [-3,-2], y in [0.3,0.4]; Constraints (x * y)^4 - (x + 1)^2 = 1; End",
        1,
        Some(((1914191971219046137, -59), (3957407568162629621, -58))),
    ),
    (
        "Variables x in [1,2], y in [0,1]; Constraints abs(x) - x <= 0; End",
        0,
        Some(((0, 0), (0, 0))),
    ),
    (
        "Variables x in [-2,-1], y in [0,1]; Constraints abs(x) + x <= 0; End",
        1,
        Some(((0, 0), (0, 0))),
    ),
    (
        "Variables x in [-1,2], y in [0,1]; Constraints abs(x) - x <= y; End",
        0,
        Some(((-1, 1), (0, 0))),
    ),
    (
        "Variables x in [-1,1], y in [-1,1]; Constraints abs(x - y) - abs(y - x) = 0; End",
        1,
        Some(((-1, 1), (1, 1))),
    ),
    (
        "Variables x in [0,1], y in [2,3]; Constraints min(x, y) - x <= 0; End",
        0,
        Some(((0, 0), (0, 0))),
    ),
    (
        "Variables x in [2,3], y in [0,1]; Constraints min(x, y) - y <= 0; End",
        1,
        Some(((0, 0), (0, 0))),
    ),
    (
        "Variables x in [0,2], y in [1,3]; Constraints min(x, y) - x <= 0; End",
        0,
        Some(((-1, 0), (0, 0))),
    ),
    (
        "Variables x in [0,1], y in [1,3]; Constraints max(x, y) - y <= 0; End",
        1,
        Some(((0, 0), (0, 0))),
    ),
    (
        "Variables x in [1,3], y in [0,1]; Constraints max(x, y) - x <= 0; End",
        0,
        Some(((0, 0), (0, 0))),
    ),
    (
        "Variables x in [0,2], y in [1,3]; Constraints max(x, y) + min(x, y) - x - y = 0; End",
        1,
        Some(((-1, 0), (1, 0))),
    ),
    (
        "Variables x in [0,+oo], y in [0,1]; Constraints x - x <= 0; End",
        0,
        None,
    ),
    (
        "Variables x in [0,1], y in [-oo,+oo]; Constraints x * y - y * x <= 0; End",
        1,
        None,
    ),
    (
        "Variables x in [-oo,0], y in [1,2]; Constraints x / y <= 0; End",
        0,
        None,
    ),
    (
        "Variables x in [0,1e9], y in [0,1]; Constraints x^32 - x^32 * y <= 0; End",
        1,
        Some(((-1, 999), (0, 0))),
    ),
    (
        "Variables x in [0,1], y in [0,1e30]; Constraints y^5 * y^5 - x <= 0; End",
        0,
        Some(((-1, 0), (-1, 0))),
    ),
    (
        "Variables x in [0,0], y in [0,0]; Constraints x * y + x = y; End",
        1,
        Some(((-1, 0), (-1, 0))),
    ),
    (
        "Variables x in [0.1,0.1], y in [0.3,0.3]; Constraints x + x + x = y; End",
        0,
        Some(((3, 0), (3, 0))),
    ),
    (
        "Variables x in [-1,1], y in [2,4]; Constraints (x - x) / y <= 0; End",
        1,
        Some(((0, 0), (0, 0))),
    ),
    (
        "Variables x in [1,2], y in [1,2]; Constraints (x - x) / (y - y + 1) = 0; End",
        0,
        None,
    ),
    (
        "Variables x in [1,2], y in [1,2]; Constraints y / (x - x + 0.5) = 0; End",
        1,
        None,
    ),
    (
        "Variables x in [0,1], y in [0,1]; Constraints x^2 + 3 * x * y - y + 0.5 - x * y >= 0; End",
        0,
        Some(((3, -1), (5, -1))),
    ),
    (
        "Variables x in [0.25,0.5], y in [0.25,0.5]; Constraints x^3 * y + 2 * x^2 - y * x + y^2 - 0.3 = 0; End",
        1,
        Some(((17, -6), (5, -3))),
    ),
    (
        "Variables x in [1,1.5], y in [-0.5,0]; Constraints (x^2 + y^2)^2 - 2 * (x^2 - y^2) <= 0; End",
        0,
        Some(((13, -5), (219, -5))),
    ),
    (
        "Variables x in [-0.1,0.1], y in [-0.1,0.1]; Constraints x * (1 - x) * (1 + x) - y * (1 - y) * (1 + y) = 0; End",
        1,
        Some(((-2790070041148569683, -61), (-3643231954557636443, -62))),
    ),
    (
        "Variables x in [2,2.5], y in [3,3.5]; Constraints (x - 2) * (y - 3) / (x * y - 1) >= x - y; End",
        0,
        Some(((-4482069803281552665, -62), (-2205390442475671641, -61))),
    ),
    (
        "Variables x in [0,2], y in [0,2]; Constraints min(x * y, x + y) - max(x - y, x * x) <= 1; End",
        1,
        Some(((0, 0), (3, 0))),
    ),
    (
        "Variables x in [0.3,0.7], y in [0.1,0.9]; Constraints abs(x - 0.5) * abs(y - 0.5) - (x - 0.5) * (y - 0.5) <= 0; End",
        0,
        Some(((0, 0), (0, 0))),
    ),
    (
        "Variables x in [1,3], y in [1,3]; Constraints x / (x + y) + y / (x + y) = 1; End",
        1,
        Some(((-3074457345618258603, -64), (3074457345618258603, -64))),
    ),
    (
        "Variables x in [0.4,0.6], y in [0.4,0.6]; Constraints (1 - x)^3 + 3 * x * (1 - x)^2 * y + x^3 > 0.2; End",
        0,
        Some(((-4219692706861059939, -62), (155644403121924343, -60))),
    ),
    (
        "Variables x in [-4,-3], y in [-2,-1]; Constraints x^2 * y^2 - (x * y)^2 < 1; End",
        1,
        Some(((-125, -2), (61, -1))),
    ),
];

pub(crate) static SETTLED: [Settled; 20] = [
    (
        "Variables x in [0,1]; Constraints x - x <= 0; End",
        "prop(8)",
        60,
        Inner(((0, 0), (1, 0))),
    ),
    (
        "Variables x in [0,1]; Constraints x - x = 0.25; End",
        "hc4(0)",
        60,
        Removed,
    ),
    (
        "Variables x in [0,1]; Constraints x - x <= -0.25; End",
        "hc4(0)",
        60,
        Removed,
    ),
    (
        "Variables x in [0,1]; Constraints x - x < 0; End",
        "hc4(0)",
        60,
        Removed,
    ),
    (
        "Variables x in [0,1]; Constraints x - x >= 0; End",
        "hc4(0)",
        60,
        Inner(((0, 0), (1, 0))),
    ),
    (
        "Variables x in [0,1]; Constraints x - x > 0; End",
        "hc4(0)",
        60,
        Removed,
    ),
    (
        "Variables x in [0,1]; Constraints x * x - x <= 2; End",
        "hc4(0)",
        60,
        Inner(((0, 0), (1, 0))),
    ),
    (
        "Variables x in [0,1]; Constraints x - x = 0; x - x = 1; End",
        "compose(hc4(0),hc4(1))",
        60,
        Removed,
    ),
    (
        "Variables x in [0,1]; Constraints x - x = 0; x - x = 1; End",
        "union(hc4(0),hc4(1))",
        60,
        Inner(((0, 0), (1, 0))),
    ),
    (
        "Variables x in [0,1]; Constraints x - x = 0; x - x = 1; End",
        "union(hc4(1),hc4(1))",
        60,
        Removed,
    ),
    (
        "Variables x in [0,1]; Constraints x - x = 0; x - x = 1; x - x = 0.5; End",
        "qinter(2,hc4(0),hc4(1),hc4(2))",
        60,
        Removed,
    ),
    (
        "Variables x in [0,1]; Constraints x - x = 0; x - x = 1; x >= 0; End",
        "qinter(2,hc4(0),hc4(1),hc4(2))",
        60,
        Inner(((0, 0), (1, 0))),
    ),
    (
        "Variables x in [0,1]; Constraints x - x = 0; x - x = 1; x >= 0; End",
        "qinter(3,hc4(0),hc4(1),hc4(2))",
        60,
        Removed,
    ),
    (
        "Variables x in [0,1]; Constraints x - x = 0; x - x = 1; End",
        "fix(3,hc4(1))",
        60,
        Removed,
    ),
    (
        "Variables x in [0,1]; Constraints x - x = 0; x >= 0.5; End",
        "prop(2)",
        60,
        Inner(((1, -1), (1, 0))),
    ),
    (
        "Variables x in [0,1]; Constraints x * x - x <= -0.125; End",
        "hc4(0)",
        60,
        Cut(((1, -3), (1, 0))),
    ),
    (
        "Variables x in [0,1]; Constraints x * x - x <= -0.125; End",
        "hc4(0)",
        0,
        Small(((1, -3), (1, 0))),
    ),
    (
        "Variables x in [0.1,0.1]; Constraints x * x - x <= -0.09; End",
        "hc4(0)",
        60,
        Small(((3689348814741910323, -65), (922337203685477581, -63))),
    ),
    (
        "Variables x in [0,+oo]; Constraints x - x <= 0; End",
        "hc4(0)",
        60,
        Cut(((0, 0), (1, 999))),
    ),
    (
        "Variables x in [2,3]; Constraints x / x = 1; End",
        "hc4(0)",
        60,
        Inner(((1, 1), (3, 0))),
    ),
];
