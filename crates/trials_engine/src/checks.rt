use crate::asserts::same;
use crate::small_trees::{
    ELEVEN, LONGEST, LONGEST32, Node, TOP, TOP32, TWENTY_SEVEN, UNUSED, words_of,
};
use mt_base::{FIRST_ROW, Kind, MOST_ROWS, NoMemory, cols, width_of};
use mt_check::{Fault, Form, Law, check};
use mt_layout::RowKind;
use mt_rows::PlainRows;
use std::alloc::Global;
use std::process::Abort;
use std::test::Fail;

/// The range 10 to 19 with the entry 5 in a leaf, and an unused node.
const LONE: &[Node] = &[(RowKind::Leaf, 1, &[9, 19, TOP], &[0, 5], &[]), UNUSED];

/// An inner node with one child.
const ONE_CHILD: &[Node] = &[(RowKind::Inner, 1, &[TOP], &[4364], &[]), UNUSED];

/// The tree of eleven ranges, except that an inner node is beside the first leaf, and leaves below it.
#[rattlefmt::skip]
const UNEVEN: &[Node] = &[
    (RowKind::Gapped, 1, &[11, TOP], &[4364, 4636], &[0, LONGEST]),
    (RowKind::Leaf, 4096, &[0, 1, 2, 3, 4, 11], &[4096; 6], &[]),
    (RowKind::Gapped, 4097, &[12, 13, 14, TOP], &[4876; 4], &[0, 0, 0, LONGEST]),
    (RowKind::Leaf, 4608, &[12], &[4096], &[]),
];

/// Ten levels. Each node has its first child alone, and the last is a leaf.
#[rattlefmt::skip]
const DEEP: &[Node] = &[
    (RowKind::Inner, 1, &[40, TOP], &[4372], &[]),
    (RowKind::Inner, 4096, &[35, 36, 37, 38, 39, 40], &[4628], &[]),
    (RowKind::Inner, 4352, &[30, 31, 32, 33, 34, 35], &[4884], &[]),
    (RowKind::Inner, 4608, &[25, 26, 27, 28, 29, 30], &[5140], &[]),
    (RowKind::Inner, 4864, &[20, 21, 22, 23, 24, 25], &[5396], &[]),
    (RowKind::Inner, 5120, &[15, 16, 17, 18, 19, 20], &[5652], &[]),
    (RowKind::Inner, 5376, &[10, 11, 12, 13, 14, 15], &[5908], &[]),
    (RowKind::Inner, 5632, &[5, 6, 7, 8, 9, 10], &[6164], &[]),
    (RowKind::Inner, 5888, &[0, 1, 2, 3, 4, 5], &[6412], &[]),
    (RowKind::Leaf, 6144, &[], &[4096], &[]),
];

/// A narrow leaf with the range 10 to 19 and the entry 5, and an unused node.
const NARROW_LONE: &[Node] = &[(RowKind::Leaf, 1, &[9, 19, TOP32], &[0, 5], &[]), UNUSED];

/// A narrow inner node with one child.
const NARROW_ONE_CHILD: &[Node] = &[(RowKind::Inner, 1, &[TOP32], &[4364], &[]), UNUSED];

/// The narrow tree of 27 ranges, except that an inner node is beside the first leaf, and leaves below it.
#[rattlefmt::skip]
const NARROW_UNEVEN: &[Node] = &[
    (RowKind::Gapped, 1, &[23, TOP32], &[4364, 4636], &[0, LONGEST32]),
    (RowKind::Leaf, 4096, &[0, 1, 2, 3, 4, 5, 6, 7, 8, 9, 10, 11, 12, 23], &[4096; 14], &[]),
    (RowKind::Gapped, 4097, &[24, 25, 26, 27, 28, 29, 30, 31, TOP32], &[4876; 9], &[0, 0, 0, 0, 0, 0, 0, 0, LONGEST32]),
    (RowKind::Leaf, 4608, &[24], &[4096], &[]),
];

/// A tree's nodes, of whose words those are changed whose nodes and columns are given with other words; the root word; the kind;
/// and what a check answers.
struct Case {
    nodes: &'static [Node],
    changes: &'static [(u32, u32, u64)],
    root: u64,
    kind: Kind,
    want: Result<Form, Fault>,
}

/// Trees, each with other words in columns of nodes, if any, the root word, the kind and what a check answers.
macro_rules! cases {
    ($($nodes:ident $([$row:literal, $col:literal] = $word:tt)*, $root:literal, $kind:ident => $want:expr;)*) => {
        &[$(Case {
            nodes: $nodes,
            changes: &[$(($row, $col, $word)),*],
            root: $root,
            kind: Kind::$kind,
            want: $want,
        }),*]
    };
}

macro_rules! fault {
    ($row:literal, $law:ident) => { Err(Fault { row: $row, law: Law::$law }) };
}

macro_rules! form {
    ($height:literal, $rows:literal, $ranges:literal) => {
        Ok(Form { height: $height, rows: $rows, ranges: $ranges })
    };
}

/// Trees that are well-formed.
const LAWFUL: &[Case] = cases! {
    LONE, 4108, Range => form!(1, 1, 1);
    LONE, 0, Range => form!(0, 0, 0);
    LONE [16, 1] = TOP [16, 2] = 0 [16, 3] = 0 [16, 16] = 5 [16, 17] = 0, 4108, Range => form!(1, 1, 1);
    ELEVEN, 4124, Alloc => form!(2, 3, 11);
    NARROW_LONE, 4108, Range32 => form!(1, 1, 1);
    NARROW_LONE, 0, Range32 => form!(0, 0, 0);
    NARROW_LONE [16, 1] = TOP32 [16, 2] = 0 [16, 3] = 0 [16, 32] = 5 [16, 33] = 0, 4108, Range32 => form!(1, 1, 1);
    TWENTY_SEVEN, 4124, Alloc32 => form!(2, 3, 27);
};

/// One word breaks a law.
const BROKEN: &[Case] = cases! {
    LONE, 4109, Range => fault!(0, Name);
    LONE, 4620, Range => fault!(0, Name);
    LONE [16, 0] = 2, 4108, Range => fault!(16, Parent);
    LONE [16, 2] = 9, 4108, Range => fault!(16, Pivots);
    ONE_CHILD, 4116, Range => fault!(16, Count);
    LONE [16, 17] = 6, 4108, Range => fault!(16, Entries);
    LONE [16, 17] = 0, 4108, Range => fault!(16, Holes);
    ELEVEN [16, 21] = 0, 4124, Alloc => fault!(16, Gaps);
};

/// One word breaks a law of a narrow tree: also where the last index is that of a wide tree, and where a name is of an inner
/// node of the other kind.
const BROKEN_NARROW: &[Case] = cases! {
    NARROW_LONE, 4109, Range32 => fault!(0, Name);
    NARROW_LONE, 4620, Range32 => fault!(0, Name);
    NARROW_LONE [16, 0] = 2, 4108, Range32 => fault!(16, Parent);
    NARROW_LONE [16, 2] = 9, 4108, Range32 => fault!(16, Pivots);
    NARROW_LONE [16, 3] = TOP, 4108, Range32 => fault!(16, Pivots);
    NARROW_LONE [16, 63] = 5, 4108, Range32 => fault!(16, Pivots);
    NARROW_ONE_CHILD, 4116, Range32 => fault!(16, Count);
    NARROW_LONE [16, 33] = 6, 4108, Range32 => fault!(16, Entries);
    NARROW_LONE [16, 33] = 0, 4108, Range32 => fault!(16, Holes);
    TWENTY_SEVEN [16, 43] = 0, 4124, Alloc32 => fault!(16, Gaps);
    TWENTY_SEVEN, 4124, Range32 => fault!(0, Name);
    NARROW_UNEVEN, 4124, Alloc32 => fault!(19, Depth);
};

/// Of two broken laws, the first is reported.
const BROKEN_TWICE: &[Case] = cases! {
    LONE [16, 0] = 2, 4109, Range => fault!(0, Name);
    LONE [16, 3] = 6, 4109, Range => fault!(0, Name);
    ONE_CHILD [16, 0] = 2, 4116, Range => fault!(16, Parent);
    ONE_CHILD [16, 1] = 9, 4116, Range => fault!(16, Pivots);
    ELEVEN [18, 0] = 2, 4124, Range => fault!(0, Name);
    UNEVEN [16, 21] = 0, 4124, Alloc => fault!(19, Depth);
    DEEP, 4116, Range => fault!(25, Depth);
};

/// Nodes beside others have one item too few: a leaf, and inner nodes of both kinds.
const TOO_FEW: &[Case] = cases! {
    ELEVEN [17, 5] = 11 [17, 6] = 0 [17, 21] = 0, 4124, Alloc => fault!(17, Count);
    TWENTY_SEVEN [17, 13] = 23 [17, 14] = 0 [17, 45] = 0, 4124, Alloc32 => fault!(17, Count);
    UNEVEN [18, 3] = TOP [18, 4] = 0 [18, 13] = 0 [18, 23] = 0, 4124, Alloc => fault!(18, Count);
    DEEP [17, 5] = 40 [17, 6] = 0, 4116, Range => fault!(17, Count);
};

/// A fault of a child's name is reported with the node that holds it. The name is none, or of no child, or of a node after the
/// last one, or is below nine levels.
const BROKEN_BELOW: &[Case] = cases! {
    ELEVEN [16, 11] = 4621, 4124, Alloc => fault!(16, Name);
    ELEVEN [16, 11] = 0, 4124, Alloc => fault!(16, Name);
    ELEVEN [16, 11] = 4876, 4124, Alloc => fault!(16, Name);
    DEEP [24, 16] = 6668, 4116, Range => fault!(24, Name);
    UNEVEN, 4124, Alloc => fault!(19, Depth);
};

/// What a check answers of the tree of a case.
fn answer(rt: &impl Abort, alloc: Global, case: &Case) -> Result<Result<Form, Fault>, NoMemory> {
    let columns = cols(width_of(case.kind)) as usize;
    let mut words = words_of(alloc, width_of(case.kind), case.nodes)?;
    for &(row, col, word) in case.changes {
        assert!(rt; FIRST_ROW <= row);
        let at = columns * (row - FIRST_ROW) as usize + col as usize;
        assert!(rt; at < words.len());
        words[at] = word;
    }
    assert!(rt; words.len() % columns == 0 && words.len() / columns <= MOST_ROWS as usize);
    let mut rows = PlainRows::of_words(alloc, width_of(case.kind), case.root, words.as_slice())?;
    Ok(check(&mut rows, case.root, case.kind))
}

fn expect_answers(rt: &impl Abort, alloc: Global, cases: &[Case]) -> Result<(), NoMemory> {
    for case in cases {
        let answer = answer(rt, alloc, case)?;
        same(rt, answer, case.want, (case.changes, case.root));
    }
    Ok(())
}

#[test]
fn trees_are_checked(rt: HostRuntime) -> Result<(), Fail> {
    for cases in [
        LAWFUL,
        BROKEN,
        BROKEN_NARROW,
        BROKEN_TWICE,
        TOO_FEW,
        BROKEN_BELOW,
    ] {
        expect_answers(&rt, rt.alloc(), cases)?;
    }
    Ok(())
}
