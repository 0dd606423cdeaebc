//! The names of nodes, their parent words and the marks of dead ones.

use crate::asserts::same;
use mt_layout::{RowKind, is_dead_mark, kind_of, name_of, parent_word, row_of};

#[test]
fn names_both_ways(rt: HostRuntime) {
    for (row, kind, word) in [
        (16, RowKind::Leaf, 4108),
        (17, RowKind::Inner, 4372),
        (65_519, RowKind::Gapped, 16_772_892),
    ] {
        assert!(rt; 16 <= row && row <= 65_519);
        same(&rt, name_of(row, kind).word(), word, row);
        same(
            &rt,
            (row_of(word), kind_of(word)),
            (Some(row), Some(kind)),
            word,
        );
    }
}

#[test]
fn other_words_are_no_names(rt: HostRuntime) {
    for word in [0, 1, 3852, 4096, 4104, 4109, 4140, 16_773_132] {
        same(&rt, (row_of(word), kind_of(word)), (None, None), word);
    }
}

#[test]
fn parents_and_marks(rt: HostRuntime) {
    same(&rt, parent_word(16, 3), 4099, 3);
    for (row, word, dead) in [(17, 4352, true), (17, 4353, false), (16, 4352, false)] {
        same(&rt, is_dead_mark(row, word), dead, (row, word));
    }
}
