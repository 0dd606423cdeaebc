use crate::asserts::same;
use mt_base::NoMemory;
use mt_cli::{Command, read_words};
use std::alloc::Global;
use std::process::Abort;
use std::test::Fail;

/// A command, by its word and its numbers.
macro_rules! command {
    (replay $rows:expr) => {
        Command::Replay { rows: $rows }
    };
    (make $number:expr, $steps:expr, $lanes:expr) => {
        Command::Make { number: $number, steps: $steps, lanes: $lanes }
    };
    (trial $number:expr, $steps:expr) => {
        Command::Trial { number: $number, steps: $steps }
    };
    (verify $rows:expr) => {
        Command::Verify { rows: $rows }
    };
    (image $rows:expr) => {
        Command::Image { rows: $rows }
    };
    (show) => {
        Command::Show
    };
    (bulk $workers:expr) => {
        Command::Bulk { workers: $workers }
    };
    (ids $lo:expr, $hi:expr, $steps:expr, $drop:expr) => {
        Command::Ids { lo: $lo, hi: $hi, steps: $steps, drop: $drop }
    };
}

/// Lists of words, with a space between two, and the commands that they are.
const COMMANDS: &[(&str, Command)] = &[
    ("replay", command!(replay 65_504)),
    ("replay --rows 4", command!(replay 4)),
    ("replay --rows=4", command!(replay 4)),
    ("replay --rows 65504", command!(replay 65_504)),
    ("replay --rows=65504", command!(replay 65_504)),
    ("replay --rows 00000000000000000017", command!(replay 17)),
    ("make 0 1 1", command!(make 0, 1, 1)),
    (
        "make 2147483647 100000 16",
        command!(make 2_147_483_647, 100_000, 16),
    ),
    ("make 007 03000 04", command!(make 7, 3_000, 4)),
    ("trial 7 100000", command!(trial 7, 100_000)),
    ("trial 00000000000000000001 1", command!(trial 1, 1)),
    ("verify", command!(verify 65_504)),
    ("verify --rows 4", command!(verify 4)),
    ("verify --rows=65504", command!(verify 65_504)),
    ("verify --rows=0017", command!(verify 17)),
    ("image", command!(image 65_504)),
    ("image --rows 4", command!(image 4)),
    ("image --rows=65504", command!(image 65_504)),
    ("image --rows 0017", command!(image 17)),
    ("show", command!(show)),
    ("bulk 1", command!(bulk 1)),
    ("bulk 16", command!(bulk 16)),
    ("bulk 00000000000000000003", command!(bulk 3)),
    ("ids 5 8 6 2", command!(ids 5, 8, 6, 2)),
    ("ids 5 6 3 3", command!(ids 5, 6, 3, 3)),
    ("ids 0 0 1 1", command!(ids 0, 0, 1, 1)),
    (
        "ids 0 18446744073709551615 100000 100000",
        command!(ids 0, 18_446_744_073_709_551_615, 100_000, 100_000),
    ),
    (
        "ids 18446744073709551615 18446744073709551615 100000 1",
        command!(ids 18_446_744_073_709_551_615, 18_446_744_073_709_551_615, 100_000, 1),
    ),
    (
        "ids 00000000000000000005 08 006 02",
        command!(ids 5, 8, 6, 2),
    ),
];

/// Lists of words that are no commands.
const OTHERS: &str = "
help
-h
--help
--version
Replay
replay\x20
replay 4
replay --
replay -h
replay --help
replay help
replay --rows
replay --rows=
replay --rows 3
replay --rows=3
replay --rows 65505
replay --rows=65505
replay --rows +5
replay --rows -5
replay --rows 5 --rows 6
replay --rows=5 --rows=6
replay --rows=5 --rows
replay --rows=5=6
replay --rows 000000000000000000017
replay --rows 18446744073709551620
replay --rows 0x10
replay --rows 5 --
replay -- --rows 5
replay --row 5
replay --rows5
--rows 5 replay
-- replay
make
make 7 3
make 7 3 1 1
make 1 0 1
make 1 3 0
make 1 3 17
make 1 100001 1
make 2147483648 3 1
make -- 7 3 1
make 7 3 1 --
make 7 3 --rows=5
make -1 3 1
make 1.5 3 1
make 7 3 1e0
make - 3 1
make help
trial
trial 7
trial 7 0
trial 7 100001
trial 2147483648 3
trial 7 3 1
trial 7 -- 3
trial 7 --steps=3
make 7  1
Verify
verify 4
verify x
verify --
verify --rows
verify --rows=
verify --rows 3
verify --rows=65505
verify --rows +5
verify --rows 5 --rows=6
verify -- --rows 5
verify --help
replay verify
verify replay
Image
image 4
image --rows
image --rows=
image --rows 3
image --rows=65505
image --rows +5
image --rows 5 --rows=6
image --rows 5 show
image -- --rows 5
image --help
images
Show
show --
show --help
show -h
show 1
show image
show --rows 5
show --rows=5
show\x20
shows
verify show
Bulk 1
bulk
bulk 0
bulk 17
bulk +1
bulk -1
bulk 1 1
bulk 000000000000000000001
bulk 18446744073709551617
bulk 0x1
bulk --
bulk -- 1
bulk 1 --
bulk --workers 1
bulk --workers=1
bulk --rows=5 1
bulk --help
bulk\x20
ids
ids 5
ids 5 8
ids 5 8 6
ids 5 8 6 2 1
ids 8 5 6 2
ids 5 8 0 0
ids 5 8 6 0
ids 5 8 6 7
ids 5 8 100001 2
ids 5 18446744073709551616 6 2
ids 18446744073709551616 18446744073709551617 6 2
ids 000000000000000000005 8 6 2
ids 5 000000000000000000008 6 2
ids 5 8 000000000000000000006 2
ids 5 8 6 000000000000000000002
ids 5 8 6 max
ids 0 max 6 2
ids -5 8 6 2
ids 5 -8 6 2
ids 5 8 -6 2
ids 5 8 6 -2
ids +5 8 6 2
ids 5 8 6 --
ids -- 5 8 6 2
ids 5 8 6 2 --
ids 5 8 --steps 6 2
ids 5 8 6 --drop=2
ids 5  8 6 2
ids help
replay --rows ٥";

fn read_row(alloc: Global, row: &str) -> Result<Option<Command>, NoMemory> {
    let mut words = Vec::new(alloc);
    for word in row.split(' ') {
        words.push(String::from_str(alloc, word)?)?;
    }
    read_words(alloc, &words)
}

/// Each of these lists is its command.
fn expect_commands(
    rt: &impl Abort,
    alloc: Global,
    commands: &[(&str, Command)],
) -> Result<(), NoMemory> {
    for &(row, command) in commands {
        same(rt, read_row(alloc, row)?, Some(command), row);
    }
    Ok(())
}

#[test]
fn lists_of_words_are_commands(rt: HostRuntime) -> Result<(), Fail> {
    expect_commands(&rt, rt.alloc(), COMMANDS)?;
    Ok(())
}

#[test]
fn other_lists_of_words_are_none(rt: HostRuntime) -> Result<(), Fail> {
    for row in OTHERS.lines() {
        same(&rt, read_row(rt.alloc(), row)?, None, row);
    }
    same(&rt, read_words(rt.alloc(), &[])?, None, "no word");
    Ok(())
}
