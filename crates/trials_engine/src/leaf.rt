//! Where the items of inner nodes are cut into nodes.

ghost use Rattle.std.specs.Prelude.{◌≡◌, ◌≤◌, ◌+◌, ◌*◌, length};
ghost use Rattle.mt_layout.specs.Sizes.{run_room, slots_of};

use crate::asserts::same;
use arrayvec::ArrayVec;
use mt_base::Width;
use mt_layout::{Item, RUN_ROOM, RowKind, Run, least_items, slots};
use mt_leaf::cut;
use std::process::Abort;

/// As many items as a test has at most.
const ITEMS: [Item; 65] = [Item {
    last: 0,
    word: 1,
    gap: 0,
}; 65];

fn run_of(rt: &impl Abort, items: &[Item]) -> Run
    ensures { result.items ≡ items.now }
{
    Run::try_from(items).expect(rt, "the items fit")
}

/// Nodes of a width and a kind, how many items they have, and where they end.
#[rattlefmt::skip]
const CUTS: &[(Width, RowKind, usize, &[u32])] = &[
    (Width::Long, RowKind::Inner, 16, &[16]),
    (Width::Long, RowKind::Inner, 17, &[9, 17]),
    (Width::Long, RowKind::Inner, 32, &[16, 32]),
    (Width::Long, RowKind::Inner, 45, &[15, 30, 45]),
    (Width::Long, RowKind::Gapped, 10, &[10]),
    (Width::Long, RowKind::Gapped, 20, &[10, 20]),
    (Width::Long, RowKind::Gapped, 21, &[7, 14, 21]),
    (Width::Long, RowKind::Gapped, 27, &[9, 18, 27]),
    (Width::Short, RowKind::Inner, 32, &[32]),
    (Width::Short, RowKind::Inner, 33, &[17, 33]),
    (Width::Short, RowKind::Inner, 64, &[32, 64]),
    (Width::Short, RowKind::Inner, 65, &[22, 44, 65]),
    (Width::Short, RowKind::Gapped, 21, &[21]),
    (Width::Short, RowKind::Gapped, 42, &[21, 42]),
    (Width::Short, RowKind::Gapped, 43, &[15, 29, 43]),
    (Width::Short, RowKind::Gapped, 60, &[20, 40, 60]),
];

/// The ends of inner nodes of this width and kind with these items.
#[tactic(auto, using(mt_layout::proofs::RowSizes::sizes))]
fn ends_of(rt: &impl Abort, width: Width, kind: RowKind, items: &[Item]) -> ArrayVec<u32, 3>
    requires some { 1 ≤ length items.now }
    requires room { length items.now ≤ run_room }
    requires few { length items.now + 3 ≤ 3 * slots_of width kind }
{
    cut(
        &run_of(rt, items),
        slots(width, kind),
        least_items(width, kind),
        false,
    )
}

/// The fewest nodes of these items end there, and two of them meet at the half.
fn expect_cut(rt: &impl Abort, width: Width, kind: RowKind, items: &[Item], want: &[u32]) {
    let fit = items.len() + 3 <= 3 * slots(width, kind) as usize;
    assert!(rt; fit && 1 <= items.len() && items.len() <= RUN_ROOM);
    let ends = ends_of(rt, width, kind, items);
    same(rt, ends.as_slice(), want, (width, kind, items.len()));
}

#[test]
fn items_are_cut_into_rows(rt: HostRuntime) {
    for &(width, kind, count, want) in CUTS {
        assert!(rt; count <= 65);
        expect_cut(&rt, width, kind, &ITEMS[..count], want);
    }
}
