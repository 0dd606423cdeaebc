//! Logs, what is printed of them again, and why a line is refused.

/// Logs by their lines, each line with what is printed of it after an arrow, if that is another text.
pub const LOGS: &[&str] = &[
    // Each word is read with its fields.
    "mtlog 1
# one tree ->\x20

tree abcdefghijklm_16 range
store abcdefghijklm_16 10 19 5
insert abcdefghijklm_16 0x14 0x1d max -> insert abcdefghijklm_16 20 29 18446744073709551615
erase abcdefghijklm_16 3
# ->\x20
clear abcdefghijklm_16
load abcdefghijklm_16 7
find abcdefghijklm_16 1 2
next abcdefghijklm_16 3 4
prev abcdefghijklm_16 6 5
rfind abcdefghijklm_16 8 7
scan abcdefghijklm_16 5 0x9 6 -> scan abcdefghijklm_16 5 9 6",
    // An area has its size before its bounds.
    "mtlog 1
tree b alloc
alloc b 1 2 3 4
ralloc b 0x5 6 7 max -> ralloc b 5 6 7 18446744073709551615
gap b max 8 9 -> gap b 18446744073709551615 8 9
rgap b 10 11 max -> rgap b 10 11 18446744073709551615
store b 0 9 1",
    // A phase begins with trees that are declared, copied and checked.
    "mtlog 1
tree a range
dup a b
check b
store a 1 1 5
pstore a 0 9 7
join
check a
dup b c
load c 1
join
join
tree d range
dup c e
load e 2",
    // A lane may be named anywhere in a phase.
    "mtlog 1
lane 0xF -> lane 15
tree a range
lane 0
load a 1
lane 00000000000000000007 -> lane 7
lane 15
load a 2
join
lane 3
check a",
    // A log of the second version.
    "mtlog 2

tree a range
# a range ->\x20
store a 0x0 9 5 -> store a 0 9 5
erase a 010 -> erase a 10",
];

/// Tables. Each node is what a log has between the text before the table and the text after it. After an arrow comes the last
/// line of what is printed of the log, or its fault.
pub const TABLES: &[(&str, &str, &str)] = &[
    // Each test of a line refuses it.
    (
        "",
        " -> 1 no header
mtlog 1 -> 1 no newline
mtlog 2 -> 1 no newline
mtlog 3 -> 1 no newline",
        "",
    ),
    (
        "",
        " -> 1 no header
mtlog 0 -> 1 no header
mtlog 3 -> 1 no header
mtlog 02 -> 1 no header
mtlog 12 -> 1 no header
mtlog 0x2 -> 1 no header
mtlog 2\t -> 1 no header
mtlog 2  -> 1 no header
mtlog  2 -> 1 no header
 mtlog 2 -> 1 no header
Mtlog 2 -> 1 no header
mtlog2 -> 1 no header
mtlog -> 1 no header
mtlog  -> 1 no header
mtlog 1  -> 1 no header
mtlog 1\r -> 1 no header
mtlog 2\r -> 1 no header",
        "\n",
    ),
    (
        "mtlog 1\n",
        " # a tree -> 2 unknown word
tree A range -> 2 bad name
tree abcdefghijklmn_17 range -> 2 bad name
tree  range -> 2 bad name
tree a heap -> 2 bad kind",
        "\n",
    ),
    (
        "mtlog 1\ntree a range\n",
        "frob a 1 -> 3 unknown word
store a 1 1 -> 3 wrong number of fields
load b 1 -> 3 unknown tree
tree a range -> 3 tree declared twice
store a 0 18446744073709551616 5 -> 3 bad number
scan a 0 9 0 -> 3 bad count",
        "\n",
    ),
    (
        "mtlog 1\ntree a range\nload a 1\n",
        "tree b range -> 4 not between phases
check a -> 4 not between phases",
        "\n",
    ),
    (
        "mtlog 1\ntree a range\nscan a 0 9 1\n",
        "tree b range -> 4 not between phases",
        "\n",
    ),
    (
        "mtlog 1\n",
        "load a 1 -> 2 unknown tree",
        "\ntree a range\n",
    ),
    (
        "mtlog 1\ntree a range\n\n#\n",
        "load a x -> 5 bad number",
        "\n",
    ),
    (
        "mtlog 1\ntree a range\n",
        "store a 0 9 5 -> 3 no newline",
        "",
    ),
    ("#\n", "mtlog 1 -> 1 no header", "\n"),
    ("mtlog 2\n", "mtlog 2 -> 2 unknown word", "\n"),
    // A log of the second version is read as one of the first.
    (
        "mtlog 2\ntree a range\n",
        "store a 0 9 5 -> store a 0 9 5
erase a 9 -> erase a 9
load b 1 -> 3 unknown tree
join  -> 3 wrong number of fields",
        "\n",
    ),
    ("mtlog 1\n\n", "# -> 3 no newline", ""),
    // A line is refused by its first failed test.
    (
        "mtlog 1\n# a tree\ntree a range\nload a 1\n",
        "frob A 1 2 3 4 5 6 7 8 9 -> 5 unknown word
Load a 1 -> 5 unknown word
 load a 1 -> 5 unknown word
\r -> 5 unknown word
load a b 1 2 3 4 5 6 7 -> 5 wrong number of fields
load A -> 5 wrong number of fields
load  a 1 -> 5 wrong number of fields
load a 1  -> 5 wrong number of fields
clear  -> 5 bad name
load  1 -> 5 bad name
load A x -> 5 bad name
load b x -> 5 unknown tree
store a x 1 y -> 5 bad number
load a 1\r -> 5 bad number
tree A heap -> 5 bad name
tree a heap -> 5 tree declared twice
tree a alloc -> 5 tree declared twice
tree b heap -> 5 bad kind
tree b alloc -> 5 not between phases
tree b range -> 5 not between phases
scan -> 5 wrong number of fields
scan A x x 0 -> 5 bad name
scan b x x 0 -> 5 unknown tree
scan a x 9 0 -> 5 bad number
scan a 1 x 0 -> 5 bad number
scan a 1 9 0 -> 5 bad count
alloc a 1 2 3 4 5 6 7 8 9 -> 5 wrong number of fields
ralloc a 1 2 3 -> 5 wrong number of fields
gap a 1 2 3 4 -> 5 wrong number of fields
rgap a 1 2 -> 5 wrong number of fields
alloc A x 2 3 4 -> 5 bad name
ralloc b x 2 3 4 -> 5 unknown tree
gap a x 2 3 -> 5 bad number
rgap a 1 x 3 -> 5 bad number
gap a 1 2 x -> 5 bad number
alloc a 1 2 3 x -> 5 bad number
join -> 6 no newline
join  -> 5 wrong number of fields
dup a -> 5 wrong number of fields
dup A B -> 5 bad name
dup b B -> 5 unknown tree
dup a B -> 5 bad name
dup a a -> 5 tree declared twice
dup a b -> 5 not between phases
check a a -> 5 wrong number of fields
check A -> 5 bad name
check b -> 5 unknown tree
check a -> 5 not between phases
pstore a 1 2 -> 5 wrong number of fields
pstore a 1 x 3 -> 5 bad number
pstore a 1 2 3 -> 6 no newline
lane 1 -> 6 no newline
lane 16 -> 5 bad lane
lane max -> 5 bad lane
lane a -> 5 bad lane
lane  -> 5 bad lane
lane -> 5 wrong number of fields
lane 1 2 -> 5 wrong number of fields
lane 16 2 -> 5 wrong number of fields",
        "\nload a 2",
    ),
    // Numbers are read up to the greatest.
    (
        "mtlog 1\ntree a range\nload a ",
        "0 -> load a 0
max -> load a 18446744073709551615
18446744073709551615 -> load a 18446744073709551615
00000000000000000007 -> load a 7
0xffffffffffffffff -> load a 18446744073709551615
0xFFFFffffFFFFffff -> load a 18446744073709551615
0x0000000000000010 -> load a 16
0xaF9 -> load a 2809
Max -> 3 bad number
maxx -> 3 bad number
18446744073709551616 -> 3 bad number
99999999999999999999 -> 3 bad number
000000000000000000007 -> 3 bad number
0x00000000000000010 -> 3 bad number
0x10000000000000000 -> 3 bad number
0x -> 3 bad number
0xg -> 3 bad number
0xG -> 3 bad number
0x+1 -> 3 bad number
0X1 -> 3 bad number
x1 -> 3 bad number
1a -> 3 bad number
+1 -> 3 bad number
-1 -> 3 bad number
 -> 3 bad number",
        "\n",
    ),
    // A tree is of one of four kinds.
    (
        "mtlog 1\n",
        "tree a range -> tree a range
tree a alloc -> tree a alloc
tree a range32 -> tree a range32
tree a alloc32 -> tree a alloc32
tree a range64 -> 2 bad kind
tree a alloc64 -> 2 bad kind
tree a Range32 -> 2 bad kind
tree a ALLOC32 -> 2 bad kind
tree a range3 -> 2 bad kind
tree a range2 -> 2 bad kind
tree a range320 -> 2 bad kind
tree a range032 -> 2 bad kind
tree a range_32 -> 2 bad kind
tree a range32\r -> 2 bad kind
tree a 32 -> 2 bad kind
tree a rang -> 2 bad kind
tree a allo -> 2 bad kind
tree a max -> 2 bad kind
tree a  -> 2 bad kind
tree a  range32 -> 2 wrong number of fields
tree a range 32 -> 2 wrong number of fields
tree a range32  -> 2 wrong number of fields",
        "\n",
    ),
    // In an index of a narrow tree `max` is the greatest one, and elsewhere it is 2^64 - 1. Numbers are read as they are.
    (
        "mtlog 1\ntree n range32\ntree m alloc32\n",
        "load n max -> load n 4294967295
load m max -> load m 4294967295
load n 4294967296 -> load n 4294967296
load n 18446744073709551615 -> load n 18446744073709551615
load n 0xffffffffffffffff -> load n 18446744073709551615
load n 18446744073709551616 -> 4 bad number
store n max max max -> store n 4294967295 4294967295 18446744073709551615
pstore n 1 max max -> pstore n 1 4294967295 18446744073709551615
insert m 1 max 5 -> insert m 1 4294967295 5
insert m 1 4294967296 5 -> insert m 1 4294967296 5
erase n max -> erase n 4294967295
find n max max -> find n 4294967295 4294967295
next n 0 max -> next n 0 4294967295
prev n max max -> prev n 4294967295 4294967295
rfind n max 0 -> rfind n 4294967295 0
scan n max max 3 -> scan n 4294967295 4294967295 3
scan n 0 4294967296 3 -> scan n 0 4294967296 3
scan n 0 max max -> 4 bad count
alloc m max max max max -> alloc m 18446744073709551615 4294967295 4294967295 18446744073709551615
ralloc m max 0 max 5 -> ralloc m 18446744073709551615 0 4294967295 5
gap m max 0 max -> gap m 18446744073709551615 0 4294967295
rgap n 1 max 4294967296 -> rgap n 1 4294967295 4294967296
lane max -> 4 bad lane",
        "\n",
    ),
    // Each tree has the greatest index of its own kind, and a copy that of its source.
    (
        "mtlog 1\ntree a range\ntree b range32\ntree c alloc\ntree d alloc32\ndup b e\ndup c f\n",
        "load a max -> load a 18446744073709551615
load b max -> load b 4294967295
load c max -> load c 18446744073709551615
load d max -> load d 4294967295
load e max -> load e 4294967295
load f max -> load f 18446744073709551615",
        "\n",
    ),
    // A scan has from 1 to 65536 steps.
    (
        "mtlog 1\ntree a range\nscan a 0 max ",
        "1 -> scan a 0 18446744073709551615 1
65536 -> scan a 0 18446744073709551615 65536
0x10000 -> scan a 0 18446744073709551615 65536
00000000000000000007 -> scan a 0 18446744073709551615 7
0 -> 3 bad count
65537 -> 3 bad count
4294967297 -> 3 bad count
max -> 3 bad count
x -> 3 bad count
000000000000000000007 -> 3 bad count
 -> 3 bad count",
        "\n",
    ),
];

/// A log of 16 trees, and tables of what follows them, and of what follows them and a step.
pub const TREES: &str = "mtlog 1
tree t1 range
dup t1 c1
tree t2 range
dup t2 c2
tree t3 range
dup t3 c3
tree t4 range
dup t4 c4
tree t5 range
dup t5 c5
tree t6 range
dup t6 c6
tree t7 range
dup t7 c7
tree t8 range
dup t8 c8
";

pub const BEHIND_TREES: &str = "tree q range -> 18 too many trees
dup t1 q -> 18 too many trees
tree t1 range -> 18 tree declared twice
dup t1 c8 -> 18 tree declared twice
dup q t1 -> 18 unknown tree
tree q heap -> 18 bad kind
check c8 -> 19 no newline";

pub const BEHIND_A_STEP: &str = "tree q range -> 19 not between phases
dup t1 q -> 19 not between phases";

/// This many equal scans, and a table of what follows them. A good line leaves the last line, which lacks its end, as the first
/// bad one.
pub const SCANS: &[(u32, &str, &str)] = &[
    (
        16,
        "scan a 0 9 62500\n",
        "load a 1 -> 20 no newline
scan a 0 9 1 -> 19 too many scan steps
scan a 0 9 65536 -> 19 too many scan steps
scan a 0 9 65537 -> 19 bad count
scan a 0 9 0 -> 19 bad count
scan a x 9 1 -> 19 bad number
scan b 0 9 1 -> 19 unknown tree
scan a 0 9 -> 19 wrong number of fields",
    ),
    (
        15,
        "scan a 0 9 65536\n",
        "scan a 0 max 16960 -> 19 no newline
scan a 0 max 16961 -> 18 too many scan steps
scan a 0 max 65536 -> 18 too many scan steps",
    ),
];

/// The lines of a log, each with what is printed of it after an arrow, if that is another text.
pub const PRINTED: &str = "mtlog 1
# two trees ->\x20

tree abcdefghijklm_16 range
tree b alloc
lane 0x00f -> lane 15
store b 010 0x13 5 -> store b 10 19 5
pstore b 10 0 max -> pstore b 10 0 18446744073709551615
insert abcdefghijklm_16 0x14 0x1D max -> insert abcdefghijklm_16 20 29 18446744073709551615
erase b 3
# ->\x20
alloc b 1 2 3 4
ralloc b 1 2 3 4
gap b 1 0 max -> gap b 1 0 18446744073709551615
rgap b 1 2 3
join
dup b c
check c
clear c


load c 0
find c 1 2
next c 3 4
prev b 6 5
rfind b 8 7
scan b 5 0x9 65536 -> scan b 5 9 65536
join
tree n range32
tree m alloc32
store n 0 max max -> store n 0 4294967295 18446744073709551615
ralloc m max 0 max 5 -> ralloc m 18446744073709551615 0 4294967295 5
load n 0x100000000 -> load n 4294967296
prev b max max -> prev b 18446744073709551615 18446744073709551615";
