//! Systems, paving files and printed texts of the worked examples that several crates of tests name.

/// A line, on which a quotient is not below 0.
pub const SYSTEM: &str = "Variables x in [0,1]; Constraints 1/x >= 0; end\n";

/// A square of which the left half is inner.
pub const SQUARE: &str = "Variables x in [0,2], y in [0,2]; Constraints x <= 1; end\n";

/// A line of which the part up to 1 is inner.
pub const HALF_LINE: &str = "Variables x in [0,4]; Constraints x <= 1; end\n";

/// A box that is inner by centered forms alone.
pub const LESS: &str = "Variables x in [0,1]; Constraints x - x <= 0; end\n";

/// Two discs and a line.
pub const TWO_DISCS: &str =
    "/* two discs and a line */\nConstants\n  r = 2.1;\nVariables\n  x in [-4, 4], y in [-4, 4];\nConstraints\n  sqr(x - 0.5) + y^2 <= r^2;  // first disc\n  sqr(x + 0.5) + y^2 <= 4;\n  y >= 0.1 * x;\nend\n";

/// The paving file of `SYSTEM` by an eps of 0.25.
pub const WHOLE: &str =
    "paving 2\nidentity be80eb05bcbc91b70b7ad422c002b378eff58622ab1c9a053f3fcbdf6852f81a\nC 0 1:-1 = =\nC 0 1:-2 = =\nS = =\nI = =\nI = =\n";

/// The same by the first version of the format.
pub const WHOLE_1: &str =
    "paving 1\nidentity be80eb05bcbc91b70b7ad422c002b378eff58622ab1c9a053f3fcbdf6852f81a\nC 0 1:-1 0:0 1:0\nC 0 1:-2 0:0 1:-1\nS 0:0 1:-2\nI 1:-2 1:-1\nI 1:-1 1:0\n";

/// The file where one node is settled.
pub const PART: &str =
    "paving 2\nidentity be80eb05bcbc91b70b7ad422c002b378eff58622ab1c9a053f3fcbdf6852f81a\nC 0 1:-1 = =\nO\nO\n";

/// A file of `LESS` by centered forms where one node is settled.
pub const SPLIT: &str =
    "paving 2\nidentity df1247b5236ce368755210df1ac0081883e161d27a2b9072d6f4c9ac7c963f0a\nC 0 1:-1 = =\nO\nO\n";

/// The file of `LESS` by centered forms.
pub const SOLID: &str =
    "paving 2\nidentity df1247b5236ce368755210df1ac0081883e161d27a2b9072d6f4c9ac7c963f0a\nI = =\n";

const FILE_A: &str =
    "paving 1\nidentity be80eb05bcbc91b70b7ad422c002b378eff58622ab1c9a053f3fcbdf6852f81a\nC 0 1:-1 0:0 1:0\nC 0 1:-2 0:0 1:-1\nO\nO\nI 1:-1 1:0\n";

const FILE_B: &str =
    "paving 1\nidentity be80eb05bcbc91b70b7ad422c002b378eff58622ab1c9a053f3fcbdf6852f81a\nC 0 1:-1 0:0 1:0\nC 0 1:-2 0:0 1:-1\nS 0:0 1:-2\nI 1:-2 1:-1\nO\n";

const FILE_F: &str =
    "paving 1\nidentity be80eb05bcbc91b70b7ad422c002b378eff58622ab1c9a053f3fcbdf6852f81a\nC 0 1:-1 0:0 1:0\nI 0:0 1:-1\nO\n";

const FILE_G: &str =
    "paving 1\nidentity be80eb05bcbc91b70b7ad422c002b378eff58622ab1c9a053f3fcbdf6852f81a\nC 0 1:-1 0:0 1:0\nO\nS 1:-1 1:0\n";

const ONE_LINE_MORE: &str =
    "paving 1\nidentity be80eb05bcbc91b70b7ad422c002b378eff58622ab1c9a053f3fcbdf6852f81a\nC 0 1:-1 0:0 1:0\nC 0 1:-2 0:0 1:-1\nS 0:0 1:-2\nI 1:-2 1:-1\nI 1:-1 1:0\nO\n";

const OTHER_SPELLING: &str =
    "paving 1\nidentity be80eb05bcbc91b70b7ad422c002b378eff58622ab1c9a053f3fcbdf6852f81a\nC 0 2:-2 0:0 1:0\nO\nO\n";

const CUT_AT_AN_END: &str =
    "paving 1\nidentity be80eb05bcbc91b70b7ad422c002b378eff58622ab1c9a053f3fcbdf6852f81a\nC 0 1:0 0:0 1:0\nO\nO\n";

const CUT_OFF: &str =
    "paving 2\nidentity be80eb05bcbc91b70b7ad422c002b378eff58622ab1c9a053f3fcbdf6852f81a\nC 0 1:-1 = =\nC 0 1:-2 = =\nS =";

const LEFT: &str =
    "paving 2\nidentity b0b09d61d9bebc71e63ae8395df214f28293e9685df30a870190c3bf95a2a52b\nI = 1:0 = =\n";

/// Systems, and paving files of which some are damaged or belong to no such system.
pub const FILES: [(&str, &str); 18] = [
    ("s", SYSTEM),
    ("A", FILE_A),
    ("B", FILE_B),
    ("F", FILE_F),
    ("G", FILE_G),
    ("old", WHOLE_1),
    ("more", ONE_LINE_MORE),
    ("spelled", OTHER_SPELLING),
    ("end", CUT_AT_AN_END),
    ("b", CUT_OFF),
    ("whole", WHOLE),
    ("part", PART),
    ("plus", "Variables x in [0,4]; Constraints x + <= 1; end\n"),
    ("square", SQUARE),
    ("left", LEFT),
    ("less", LESS),
    ("solid", SOLID),
    ("open", SPLIT),
];

/// What is printed of `PART` first.
pub const ONE_SETTLED: &str = "settled 1 cut 1 removed 0 inner 0 small 0 open 2\n";

/// What is printed of `WHOLE` first.
pub const SUMMARY: &str = "settled 5 cut 2 removed 0 inner 2 small 1 open 0\n";

/// What is printed of `PART` with its nodes.
pub const PART_NODES: &str =
    "settled 1 cut 1 removed 0 inner 0 small 0 open 2\nC 0 1:-1 0:0 1:0\nO\nO\n";

/// What is printed of `WHOLE` with its nodes.
pub const NODES: &str =
    "settled 5 cut 2 removed 0 inner 2 small 1 open 0\nC 0 1:-1 0:0 1:0\nC 0 1:-2 0:0 1:-1\nS 0:0 1:-2\nI 1:-2 1:-1\nI 1:-1 1:0\n";

/// What is printed first of a search box that is inner.
pub const INNER: &str = "settled 1 cut 0 removed 0 inner 1 small 0 open 0\n";

/// The same with the node, of [0,1].
pub const INNER_NODE: &str = "settled 1 cut 0 removed 0 inner 1 small 0 open 0\nI 0:0 1:0\n";

/// What is printed of a search box that is removed.
pub const REMOVED_NODE: &str = "settled 1 cut 0 removed 1 inner 0 small 0 open 0\nX\n";

/// The left half of a square is inner.
pub const HALF: &str =
    "<svg xmlns=\"http://www.w3.org/2000/svg\" width=\"1000\" height=\"1000\" viewBox=\"0 0 1000 1000\">\n<rect x=\"0\" y=\"0\" width=\"1000\" height=\"1000\" fill=\"#cfd8dc\"/>\n<rect x=\"0\" y=\"0\" width=\"500\" height=\"1000\" fill=\"#43a047\"/>\n</svg>\n";

/// What is printed of the sample of two by seed 1.
pub const SAMPLE_OF_TWO: &str =
    "sample seed 1 count 2\nsettled 911 cut 455 removed 0 inner 256 small 200 open 0\nfile 11574911400edcb97140b9fc03ea80550a174694c79188ec132007be53af8654\n";

/// The path and the line of each row of `WHOLE`.
pub const ALL_ROWS: &str =
    ". C 0 1:-1 0:0 1:0\n0 C 0 1:-2 0:0 1:-1\n00 S 0:0 1:-2\n01 I 1:-2 1:-1\n1 I 1:-1 1:0\n";

/// SHA-256 of the system's canonical text and the settings' text.
pub const IDENTITY: [u8; 32] = [
    0xbe, 0x80, 0xeb, 0x05, 0xbc, 0xbc, 0x91, 0xb7, 0x0b, 0x7a, 0xd4, 0x22, 0xc0, 0x02, 0xb3, 0x78,
    0xef, 0xf5, 0x86, 0x22, 0xab, 0x1c, 0x9a, 0x05, 0x3f, 0x3f, 0xcb, 0xdf, 0x68, 0x52, 0xf8, 0x1a,
];
