//! Stories of calls on a sorted list.

mod stories;

use crate::asserts::same;
use crate::tests::lists::stories::{ABOVE, NARROW, Story, WIDE};
use mt_base::NoMemory;
use mt_list::{ListMap, Ranges};
use std::alloc::Global;
use std::process::Abort;
use std::test::Fail;

/// Makes the calls of a story on a new map. The replies, the ranges afterwards and the answers to the queries have to be those
/// of the story.
fn expect_story(rt: &impl Abort, alloc: Global, story: &Story) -> Result<(), NoMemory> {
    let mut map = ListMap::new(alloc, story.kind);
    for (call, want) in story.calls {
        same(rt, map.act(call)?, *want, (story.name, *call));
    }
    same(rt, map.list(alloc)?.as_slice(), story.ranges, story.name);
    for (query, want) in story.queries {
        same(rt, map.ask(query), *want, *query);
    }
    Ok(())
}

/// Each story of a table comes out as it says.
fn expect_stories(rt: &impl Abort, alloc: Global, stories: &[Story]) -> Result<(), NoMemory> {
    for story in stories {
        expect_story(rt, alloc, story)?;
    }
    Ok(())
}

#[test]
fn stories_come_out_as_told(rt: HostRuntime) -> Result<(), Fail> {
    expect_stories(&rt, rt.alloc(), WIDE)?;
    expect_stories(&rt, rt.alloc(), NARROW)?;
    expect_stories(&rt, rt.alloc(), ABOVE)?;
    Ok(())
}
