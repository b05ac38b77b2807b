//! Cases of revisions. Written by tests/generators/revision_vectors.py: change them there.
use crate::revisions::Case;
use crate::revisions::Left::{Changed, Empty, Kept};

pub(crate) static SUMS: [Case; 10] = [
    (
        "Variables x in [0,4], y in [1,3]; Constraints x + y <= 3; End",
        Changed(((0, 0), (1, 1)), ((1, 0), (3, 0))),
        false,
    ),
    (
        "Variables x in [0,4], y in [1,3]; Constraints x + y >= 6.5; End",
        Changed(((7, -1), (1, 2)), ((5, -1), (3, 0))),
        false,
    ),
    (
        "Variables x in [0,4], y in [1,3]; Constraints x - y = 3; End",
        Changed(((1, 2), (1, 2)), ((1, 0), (1, 0))),
        false,
    ),
    (
        "Variables x in [0,4], y in [1,3]; Constraints x + y <= 8; End",
        Kept,
        true,
    ),
    (
        "Variables x in [0,4], y in [1,3]; Constraints x + y < 1; End",
        Empty,
        false,
    ),
    (
        "Variables x in [0,4], y in [1,3]; Constraints x + y <= 1; End",
        Changed(((0, 0), (0, 0)), ((1, 0), (1, 0))),
        false,
    ),
    (
        "Variables x in [-oo,+oo], y in [1,3]; Constraints x + y = 10; End",
        Changed(((7, 0), (9, 0)), ((1, 0), (3, 0))),
        false,
    ),
    (
        "Variables x in [-oo,4], y in [-oo,3]; Constraints x + y >= 0; End",
        Changed(((-3, 0), (1, 2)), ((-1, 2), (3, 0))),
        false,
    ),
    (
        "Variables x in [-oo,+oo], y in [-oo,+oo]; Constraints x - y <= 0; End",
        Kept,
        false,
    ),
    (
        "Variables x in [0.1,0.7], y in [0.2,0.3]; Constraints x + y = 0.9; End",
        Changed(
            ((2767011611056432741, -62), (3228180212899171533, -62)),
            ((3689348814741910323, -64), (2767011611056432743, -63)),
        ),
        false,
    ),
];

pub(crate) static PRODUCTS: [Case; 10] = [
    (
        "Variables x in [1,4], y in [2,5]; Constraints x * y <= 4; End",
        Changed(((1, 0), (1, 1)), ((1, 1), (1, 2))),
        false,
    ),
    (
        "Variables x in [-3,4], y in [-2,5]; Constraints x * y >= 12; End",
        Kept,
        false,
    ),
    (
        "Variables x in [-3,4], y in [0,5]; Constraints x * y = 0; End",
        Kept,
        false,
    ),
    (
        "Variables x in [0,4], y in [0,0]; Constraints x * y >= 1; End",
        Empty,
        false,
    ),
    (
        "Variables x in [-oo,+oo], y in [2,5]; Constraints x * y <= 10; End",
        Changed(((-1, 999), (5, 0)), ((1, 1), (5, 0))),
        false,
    ),
    (
        "Variables x in [0,+oo], y in [0,+oo]; Constraints x * y >= 1; End",
        Kept,
        false,
    ),
    (
        "Variables x in [-1,1], y in [3,+oo]; Constraints x * y > 2; End",
        Changed(((0, 0), (1, 0)), ((3, 0), (1, 999))),
        false,
    ),
    (
        "Variables x in [1,2], y in [-oo,-1]; Constraints x * y < -7; End",
        Changed(((1, 0), (1, 1)), ((-1, 999), (-7, -1))),
        false,
    ),
    (
        "Variables x in [-2,-1], y in [-5,-4]; Constraints x * y <= 5; End",
        Changed(((-5, -2), (-1, 0)), ((-5, 0), (-1, 2))),
        false,
    ),
    (
        "Variables x in [0.1,0.3], y in [0.1,0.3]; Constraints x * y = 0.05; End",
        Changed(
            ((3074457345618258601, -64), (2767011611056432743, -63)),
            ((3074457345618258601, -64), (2767011611056432743, -63)),
        ),
        false,
    ),
];

pub(crate) static QUOTIENTS: [Case; 10] = [
    (
        "Variables x in [1,4], y in [2,5]; Constraints x / y <= 0.5; End",
        Changed(((1, 0), (5, -1)), ((1, 1), (5, 0))),
        false,
    ),
    (
        "Variables x in [1,4], y in [0,5]; Constraints x / y <= 2; End",
        Changed(((1, 0), (1, 2)), ((1, -1), (5, 0))),
        false,
    ),
    (
        "Variables x in [1,4], y in [0,0]; Constraints x / y <= 2; End",
        Empty,
        false,
    ),
    (
        "Variables x in [1,4], y in [-1,1]; Constraints x / y >= 3; End",
        Changed(((1, 0), (1, 2)), ((0, 0), (1, 0))),
        false,
    ),
    (
        "Variables x in [0,0], y in [-1,1]; Constraints x / y >= 1; End",
        Empty,
        false,
    ),
    (
        "Variables x in [0,4], y in [-1,0]; Constraints x / y >= -1; End",
        Changed(((0, 0), (1, 0)), ((-1, 0), (0, 0))),
        false,
    ),
    (
        "Variables x in [-oo,+oo], y in [1,+oo]; Constraints x / y = 3; End",
        Changed(((3, 0), (1, 999)), ((1, 0), (1, 999))),
        false,
    ),
    (
        "Variables x in [1,2], y in [3,+oo]; Constraints 1 / (x * y) < 0.01; End",
        Changed(((1, 0), (1, 1)), ((3602879701896396799, -56), (1, 999))),
        false,
    ),
    (
        "Variables x in [0,1], y in [0,1]; Constraints 1 / x >= 0; End",
        Kept,
        false,
    ),
    (
        "Variables x in [2,3], y in [-2,-1]; Constraints x / y = -1.7; End",
        Changed(
            ((1, 1), (3, 0)),
            ((-4069134722141812857, -61), (-2712756481427875237, -61)),
        ),
        false,
    ),
];

pub(crate) static EVEN_POWERS: [Case; 10] = [
    (
        "Variables x in [-3,5], y in [0,1]; Constraints x^2 = 4 + y; End",
        Changed(
            ((-2578010857022246787, -60), (2578010857022246787, -60)),
            ((0, 0), (1, 0)),
        ),
        false,
    ),
    (
        "Variables x in [-3,5], y in [0,1]; Constraints x^2 <= 4; End",
        Changed(((-1, 1), (1, 1)), ((0, 0), (1, 0))),
        false,
    ),
    (
        "Variables x in [-3,5], y in [0,1]; Constraints x^2 >= 16; End",
        Changed(((1, 2), (5, 0)), ((0, 0), (1, 0))),
        false,
    ),
    (
        "Variables x in [-3,5], y in [0,1]; Constraints x^2 + y <= -1; End",
        Empty,
        false,
    ),
    (
        "Variables x in [-oo,+oo], y in [0,1]; Constraints x^4 <= 16; End",
        Changed(((-1, 1), (1, 1)), ((0, 0), (1, 0))),
        false,
    ),
    (
        "Variables x in [-oo,0], y in [2,7]; Constraints x^2 = y; End",
        Changed(
            ((-190646473898007863, -56), (-3260954456333195553, -61)),
            ((1, 1), (7, 0)),
        ),
        false,
    ),
    (
        "Variables x in [-1,1], y in [-1,1]; Constraints x^32 + y^32 >= 1.5; End",
        Kept,
        false,
    ),
    (
        "Variables x in [1.1,1.3], y in [0,2]; Constraints x^6 = y; End",
        Changed(
            ((2536427310135063347, -61), (1294110633600925655, -60)),
            ((4084941547245620865, -61), (1, 1)),
        ),
        false,
    ),
    (
        "Variables x in [-2,2], y in [1,1]; Constraints x^0 = y; End",
        Kept,
        true,
    ),
    (
        "Variables x in [-2,2], y in [2,2]; Constraints x^0 = y; End",
        Empty,
        false,
    ),
];

pub(crate) static ODD_POWERS: [Case; 10] = [
    (
        "Variables x in [-3,5], y in [0,1]; Constraints x^3 = 8 + y; End",
        Changed(((1, 1), (599543342745340935, -58)), ((0, 0), (1, 0))),
        false,
    ),
    (
        "Variables x in [-3,5], y in [0,1]; Constraints x^3 <= -8; End",
        Changed(((-3, 0), (-1, 1)), ((0, 0), (1, 0))),
        false,
    ),
    (
        "Variables x in [-3,5], y in [-1,1]; Constraints x^3 - y^3 >= 120; End",
        Changed(((2835428702369443245, -59), (5, 0)), ((-1, 0), (1, 0))),
        false,
    ),
    (
        "Variables x in [-oo,+oo], y in [0,1]; Constraints x^3 >= 27; End",
        Changed(((3, 0), (1, 999)), ((0, 0), (1, 0))),
        false,
    ),
    (
        "Variables x in [-oo,+oo], y in [-oo,+oo]; Constraints x^5 + y^5 <= -32; End",
        Kept,
        false,
    ),
    (
        "Variables x in [0,2], y in [0,2]; Constraints x^31 <= y; End",
        Changed(((0, 0), (147373839370197775, -57)), ((0, 0), (1, 1))),
        false,
    ),
    (
        "Variables x in [-1,1], y in [3,4]; Constraints x^7 >= y; End",
        Empty,
        false,
    ),
    (
        "Variables x in [-0.3,0.2], y in [-1,1]; Constraints x^3 = y; End",
        Changed(
            ((-2767011611056432743, -63), (922337203685477581, -62)),
            ((-3984496719921263153, -67), (2361183241434822609, -68)),
        ),
        false,
    ),
    (
        "Variables x in [2,3], y in [0,1]; Constraints x^1 <= 2.5; End",
        Changed(((1, 1), (5, -1)), ((0, 0), (1, 0))),
        false,
    ),
    (
        "Variables x in [-2,-1], y in [-30,30]; Constraints x^5 = y; End",
        Changed(((-2276271132749939811, -60), (-1, 0)), ((-15, 1), (-1, 0))),
        false,
    ),
];

pub(crate) static SIZES_AND_CHOICES: [Case; 10] = [
    (
        "Variables x in [-3,5], y in [0,1]; Constraints abs(x) <= 2; End",
        Changed(((-1, 1), (1, 1)), ((0, 0), (1, 0))),
        false,
    ),
    (
        "Variables x in [-3,5], y in [0,1]; Constraints abs(x) >= 4; End",
        Changed(((1, 2), (5, 0)), ((0, 0), (1, 0))),
        false,
    ),
    (
        "Variables x in [-3,5], y in [0,1]; Constraints abs(x) + y < 0; End",
        Empty,
        false,
    ),
    (
        "Variables x in [-oo,+oo], y in [1,2]; Constraints abs(x) = y; End",
        Changed(((-1, 1), (1, 1)), ((1, 0), (1, 1))),
        false,
    ),
    (
        "Variables x in [0,4], y in [1,3]; Constraints min(x, y) >= 2; End",
        Changed(((1, 1), (1, 2)), ((1, 1), (3, 0))),
        false,
    ),
    (
        "Variables x in [0,4], y in [1,3]; Constraints max(x, y) <= 2; End",
        Changed(((0, 0), (1, 1)), ((1, 0), (1, 1))),
        false,
    ),
    (
        "Variables x in [0,1], y in [3,5]; Constraints max(x, y) = 4; End",
        Changed(((0, 0), (1, 0)), ((1, 2), (1, 2))),
        false,
    ),
    (
        "Variables x in [0,1], y in [3,5]; Constraints min(x, y) = 0.5; End",
        Changed(((1, -1), (1, -1)), ((3, 0), (5, 0))),
        false,
    ),
    (
        "Variables x in [0,1], y in [3,5]; Constraints min(x, y) > 1; End",
        Empty,
        false,
    ),
    (
        "Variables x in [-oo,+oo], y in [-oo,2]; Constraints -max(x, -y) >= 1; End",
        Changed(((-1, 999), (-1, 0)), ((1, 0), (1, 1))),
        false,
    ),
];

pub(crate) static SHARED: [Case; 10] = [
    (
        "Variables x in [0,4], y in [0,4]; Constraints (x + y)^2 - (x + y) <= 0; End",
        Changed(
            ((0, 0), (1630477228166597777, -59)),
            ((0, 0), (1630477228166597777, -59)),
        ),
        false,
    ),
    (
        "Variables x in [-1,1], y in [-1,1]; Constraints (x * y) + (x * y) = 1.5; End",
        Kept,
        false,
    ),
    (
        "Variables x in [0,2], y in [0,2]; Constraints x * x - 2 * x * y + y * y >= 3; End",
        Kept,
        false,
    ),
    (
        "Variables x in [1,2], y in [1,2]; Constraints x / y + y / x >= 3; End",
        Kept,
        false,
    ),
    (
        "Variables x in [-3,3], y in [-3,3]; Constraints (x - y)^2 + (x - y)^2 = 0; End",
        Kept,
        false,
    ),
    (
        "Variables x in [0,10], y in [0,10]; Constraints x = x + y; End",
        Kept,
        false,
    ),
    (
        "Variables x in [0,10], y in [0,10]; Constraints x < x; End",
        Kept,
        false,
    ),
    (
        "Variables x in [0,10], y in [2,10]; Constraints x * y + x * y + x * y <= 12; End",
        Changed(((0, 0), (3, 1)), ((1, 1), (5, 1))),
        false,
    ),
    (
        "Variables x in [0.5,3], y in [1,3]; Constraints max(x, y) - min(x, y) > 2; End",
        Kept,
        false,
    ),
    (
        "Variables x in [-2,2], y in [-2,2]; Constraints abs(x - y) * abs(x - y) <= 0.25; End",
        Kept,
        false,
    ),
];

pub(crate) static SURE_OR_NOT: [Case; 10] = [
    (
        "Variables x in [0,1], y in [0,1]; Constraints x + y <= 2; End",
        Kept,
        true,
    ),
    (
        "Variables x in [0,1], y in [0,1]; Constraints x + y < 2; End",
        Kept,
        false,
    ),
    (
        "Variables x in [0,1], y in [0,1]; Constraints x - y >= -1; End",
        Kept,
        true,
    ),
    (
        "Variables x in [0,1], y in [0,1]; Constraints x - y > -1; End",
        Kept,
        false,
    ),
    (
        "Variables x in [2,2], y in [3,3]; Constraints x * y = 6; End",
        Kept,
        true,
    ),
    (
        "Variables x in [0.1,0.1], y in [0.2,0.2]; Constraints x + y = 0.3; End",
        Kept,
        false,
    ),
    (
        "Variables x in [1,2], y in [0,1]; Constraints x / y >= 1; End",
        Kept,
        false,
    ),
    (
        "Variables x in [1,2], y in [0.5,1]; Constraints x / y >= 1; End",
        Kept,
        true,
    ),
    (
        "Variables x in [0,0], y in [-1,1]; Constraints x / y = 0; End",
        Kept,
        false,
    ),
    (
        "Variables x in [-oo,+oo], y in [-oo,+oo]; Constraints x^2 + y^2 >= 0; End",
        Kept,
        true,
    ),
];
