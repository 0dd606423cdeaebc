/// A log in a row, and below it texts and what is found of each: that it is of no run, or that it is of one and the least points
/// of its reads. A stroke ends a line, and a row that begins with `#` says what those below it show. These are of trees that have
/// nodes enough.
pub const MANY_ROWS: &str = "\
# Nothing is done: to no trees, and to an empty one.
mtlog 1/
 -> yes
tree a range 0/ -> no
/ -> no
mtlog 2/# nothing/tree a alloc32/join/
tree a alloc32 0/ -> yes
 -> no
mtlog 1/tree a range/check a/
3 lawful 0/tree a range 0/ -> yes
3 lawful 1/tree a range 0/ -> no
# What is listed is the last map, to the last byte.
mtlog 1/tree a range/store a 0 99 1/store a 40 49 3/
3 1 ok/4 2 ok/tree a range 3/0 39 1/40 49 3/50 99 1/ -> yes
3 1 ok/4 2 ok/tree a range 3/0 39 1/40 49 3/51 99 1/ -> no
3 1 ok/4 2 ok/tree a range 3/0 39 1/40 49 1/50 99 1/ -> no
3 1 ok/4 2 ok/tree a range 2/0 39 1/40 49 3/ -> no
3 1 ok/4 2 ok/tree a range 3/0 39 1/40 49 3/ -> no
3 1 ok/4 2 ok/tree a range 4/0 39 1/40 49 3/50 99 1/ -> no
3 1 ok/4 2 ok/tree a alloc 3/0 39 1/40 49 3/50 99 1/ -> no
3 1 ok/4 2 ok/tree b range 3/0 39 1/40 49 3/50 99 1/ -> no
3 1 ok/4 2 ok/tree a range 3/0 39 1/40 49 3/50 99 1 -> no
3 1 ok/4 2 ok/tree a range 3/0 39 1/40 49 3/50 99 1// -> no
3 1 ok/4 2 ok/tree a range 3/0 39 1/40 49 3/50 99 1/tree b range 0/ -> no
3 1 ok/4 2 ok/ -> no
3 1 ok/tree a range 1/0 99 1/ -> no
 -> no
# Stores and an erase, in either version.
mtlog 2/tree a range/store a 10 19 5/store a 0 99 7/store a 200 299 8/store a 50 249 0/erase a 20/store a 0 max 0/
3 1 ok/4 2 over 5/5 3 ok/6 4 over 7/7 5 was 0 49 7/8 6 over 8/tree a range 0/ -> yes
3 1 ok/4 2 over 5/5 3 ok/6 4 over 7/7 5 was 7/8 6 over 8/tree a range 0/ -> no
3 1 ok/4 2 over 5/5 3 ok/6 4 over 8/7 5 was 0 49 7/8 6 over 8/tree a range 0/ -> no
mtlog 1/tree a range/store a 10 19 5/store a 0 99 7/store a 200 299 8/store a 50 249 0/erase a 20/store a 0 max 0/
3 1 ok/4 2 ok/5 3 ok/6 4 ok/7 5 was 7/8 6 ok/tree a range 0/ -> yes
3 1 ok/4 2 over 5/5 3 ok/6 4 over 7/7 5 was 0 49 7/8 6 over 8/tree a range 0/ -> no
# What may not be made, and what is there already.
mtlog 1/tree a range/store a 5 4 1/store a 1 1 2/insert a 1 2 4098/insert a 2 3 1/insert a 5 5 0/erase a 3/
3 1 invalid/4 2 invalid/5 3 ok/6 4 exists/7 5 invalid/8 6 none/tree a range 1/1 2 4098/ -> yes
3 1 ok/4 2 invalid/5 3 ok/6 4 exists/7 5 invalid/8 6 none/tree a range 1/1 2 4098/ -> no
3 1 invalid/4 2 invalid/5 3 ok/6 4 ok/7 5 invalid/8 6 none/tree a range 2/1 2 4098/3 3 1/ -> no
# Room that is sought, low and high.
mtlog 1/tree a alloc/store a 0 9 1/store a 20 29 1/alloc a 10 0 max 3/ralloc a 10 0 max 4/gap a 11 5 25/gap a 0 0 9/
3 1 ok/4 2 ok/5 3 start 10/6 4 start 18446744073709551606/7 5 busy/8 6 invalid/tree a alloc 4/0 9 1/10 19 3/20 29 1/\
    18446744073709551606 18446744073709551615 4/ -> yes
3 1 ok/4 2 ok/5 3 start 30/6 4 start 18446744073709551606/7 5 busy/8 6 invalid/tree a alloc 4/0 9 1/20 29 1/30 39 3/\
    18446744073709551606 18446744073709551615 4/ -> no
# The greatest index of a narrow tree, and one above it.
mtlog 1/tree a range32/store a 5 max 7/load a 4294967295/load a 4294967296/
3 1 ok/4 1 1 entry 7/5 1 1 none/tree a range32 1/5 4294967295 7/ -> yes 1 1
3 1 ok/4 1 1 entry 7/5 1 1 entry 7/tree a range32 1/5 4294967295 7/ -> no
# A read stands behind the calls of its lane that come before it, and in front of those that come behind.
mtlog 1/tree a range/load a 1/store a 1 1 5/load a 1/
3 0 0 none/4 1 ok/5 1 1 entry 5/tree a range 1/1 1 5/ -> yes 0 1
3 0 1 none/4 1 ok/5 1 1 entry 5/tree a range 1/1 1 5/ -> no
3 0 0 none/4 1 ok/5 0 1 entry 5/tree a range 1/1 1 5/ -> no
3 0 0 none/4 1 ok/5 1 2 entry 5/tree a range 1/1 1 5/ -> no
3 0 0 none/4 1 ok/5 1 1 none/tree a range 1/1 1 5/ -> no
# Each kind of query; a scan ends behind its bound, at its count, or where nothing is found.
mtlog 1/tree a range/store a 0 9 1/store a 20 29 5/find a 12 19/find a 9 9/next a 0 20/prev a 20 0/rfind a 15 10/
3 1 ok/4 2 ok/5 2 2 none/6 2 2 range 0 9 1/7 2 2 range 20 29 5/8 2 2 range 0 9 1/9 2 2 none/tree a range 2/0 9 1/20 29 5/ -> yes 2 2 2 2 2
3 1 ok/4 2 ok/5 2 2 none/6 2 2 range 0 9 1/7 2 2 none/8 2 2 range 0 9 1/9 2 2 none/tree a range 2/0 9 1/20 29 5/ -> no
mtlog 1/tree a range/store a 0 9 1/store a 20 29 5/scan a 5 max 5/scan a 0 5 3/scan a 5 25 1/
3 1 ok/4 2 ok/5 2 2 range 0 9 1/5 2 2 range 20 29 5/5 2 2 none/6 2 2 range 0 9 1/6 2 2 none/7 2 2 range 0 9 1/tree a range 2/0 9 1/20 29 5/ -> yes 2 2 2 2 2 2
3 1 ok/4 2 ok/5 2 2 range 0 9 1/5 2 2 range 20 29 5/6 2 2 range 0 9 1/6 2 2 none/7 2 2 range 0 9 1/tree a range 2/0 9 1/20 29 5/ -> no
3 1 ok/4 2 ok/5 2 2 range 0 9 1/5 2 2 range 20 29 5/5 2 2 none/6 2 2 range 0 9 1/7 2 2 range 0 9 1/tree a range 2/0 9 1/20 29 5/ -> no
# One lane stores 5 and then 7, and another looks there twice: each look has the first point that does.
mtlog 1/tree a range/lane 0/store a 1 1 5/store a 1 1 7/lane 1/load a 1/load a 1/
4 1 ok/5 2 ok/7 0 1 entry 5/8 0 2 entry 7/tree a range 1/1 1 7/ -> yes 1 2
4 1 ok/5 2 ok/7 0 2 none/8 0 2 none/tree a range 1/1 1 7/ -> yes 0 0
4 1 ok/5 2 ok/7 0 2 none/8 0 2 entry 5/tree a range 1/1 1 7/ -> yes 0 1
4 1 ok/5 2 ok/7 0 2 none/8 0 2 entry 7/tree a range 1/1 1 7/ -> yes 0 2
4 1 ok/5 2 ok/7 0 2 entry 5/8 0 2 entry 5/tree a range 1/1 1 7/ -> yes 1 1
4 1 ok/5 2 ok/7 2 2 entry 7/8 2 2 entry 7/tree a range 1/1 1 7/ -> yes 2 2
# The looks fall.
4 1 ok/5 2 ok/7 0 2 entry 5/8 0 2 none/tree a range 1/1 1 7/ -> no
4 1 ok/5 2 ok/7 0 2 entry 7/8 0 2 none/tree a range 1/1 1 7/ -> no
4 1 ok/5 2 ok/7 0 2 entry 7/8 1 2 entry 5/tree a range 1/1 1 7/ -> no
# A window may end lower than the one before it, and may not begin lower.
4 1 ok/5 2 ok/7 0 2 entry 5/8 0 1 entry 5/tree a range 1/1 1 7/ -> yes 1 1
4 1 ok/5 2 ok/7 1 2 entry 5/8 0 2 entry 5/tree a range 1/1 1 7/ -> no
# A window ends behind the last call, far behind it, too low, or before it begins.
4 1 ok/5 2 ok/7 0 3 entry 5/8 0 2 entry 7/tree a range 1/1 1 7/ -> no
4 1 ok/5 2 ok/7 0 18446744073709551615 entry 5/8 0 2 entry 7/tree a range 1/1 1 7/ -> no
4 1 ok/5 2 ok/7 0 2 entry 5/8 0 1 entry 7/tree a range 1/1 1 7/ -> no
4 1 ok/5 2 ok/7 1 0 entry 5/8 1 2 entry 7/tree a range 1/1 1 7/ -> no
# A reply of the other version.
4 1 ok/5 2 over 5/7 0 1 entry 5/8 0 2 entry 7/tree a range 1/1 1 7/ -> no
mtlog 2/tree a range/lane 0/store a 1 1 5/store a 1 1 7/lane 1/load a 1/load a 1/
4 1 ok/5 2 over 5/7 0 1 entry 5/8 0 2 entry 7/tree a range 1/1 1 7/ -> yes 1 2
4 1 ok/5 2 over 5/7 0 2 entry 7/8 1 2 entry 7/tree a range 1/1 1 7/ -> yes 2 2
4 1 ok/5 2 ok/7 0 1 entry 5/8 0 2 entry 7/tree a range 1/1 1 7/ -> no
# A reply of another entry, and with something behind it.
4 1 ok/5 2 over 6/7 0 1 entry 5/8 0 2 entry 7/tree a range 1/1 1 7/ -> no
4 1 ok/5 2 over 5 /7 0 1 entry 5/8 0 2 entry 7/tree a range 1/1 1 7/ -> no
# The looks fall, the second window begins too low, and the first ends too low.
4 1 ok/5 2 over 5/7 0 2 entry 7/8 1 2 entry 5/tree a range 1/1 1 7/ -> no
4 1 ok/5 2 over 5/7 0 2 entry 7/8 0 2 entry 7/tree a range 1/1 1 7/ -> no
4 1 ok/5 2 over 5/7 0 0 entry 5/8 0 2 entry 7/tree a range 1/1 1 7/ -> no
# The calls of a lane are numbered in its order.
4 2 over 7/5 1 ok/7 0 1 entry 7/8 0 2 entry 5/tree a range 1/1 1 5/ -> no
# The second store is elsewhere, and both looks are true after it too.
mtlog 2/tree a range/lane 0/store a 1 1 5/store a 2 2 7/lane 1/load a 1/load a 1/
4 1 ok/5 2 ok/7 0 2 entry 5/8 2 2 entry 5/tree a range 2/1 1 5/2 2 7/ -> yes 1 2
4 1 ok/5 2 ok/7 0 2 entry 5/8 0 2 entry 5/tree a range 2/1 1 5/2 2 7/ -> yes 1 1
# An entry comes, goes and comes again: the looks at it rise.
mtlog 1/tree a range/store a 1 1 5/erase a 1/store a 1 1 5/lane 1/load a 1/load a 1/load a 1/load a 1/
3 1 ok/4 2 was 5/5 3 ok/7 0 3 entry 5/8 0 3 none/9 1 3 none/10 1 3 entry 5/tree a range 1/1 1 5/ -> yes 1 2 2 3
3 1 ok/4 2 was 5/5 3 ok/7 0 3 entry 5/8 0 3 none/9 0 3 none/10 1 3 entry 5/tree a range 1/1 1 5/ -> no
3 1 ok/4 2 was 5/5 3 ok/7 0 3 entry 5/8 0 3 none/9 1 3 entry 5/10 2 3 none/tree a range 1/1 1 5/ -> no
# Two lanes store: either may be first, and each number is there once, from 1 on.
mtlog 2/tree a range/lane 0/store a 1 1 5/lane 1/store a 1 1 7/
4 1 ok/6 2 over 5/tree a range 1/1 1 7/ -> yes
4 2 over 7/6 1 ok/tree a range 1/1 1 5/ -> yes
4 2 over 7/6 1 ok/tree a range 1/1 1 7/ -> no
4 1 ok/6 1 ok/tree a range 1/1 1 7/ -> no
4 1 ok/6 1 over 5/tree a range 1/1 1 7/ -> no
4 1 ok/6 3 over 5/tree a range 1/1 1 7/ -> no
4 0 ok/6 1 over 5/tree a range 1/1 1 7/ -> no
# Two lanes look, and know nothing of each other.
mtlog 1/tree a range/store a 1 1 5/store a 1 1 7/lane 1/load a 1/lane 2/load a 1/
3 1 ok/4 2 ok/6 0 2 entry 7/8 0 2 entry 5/tree a range 1/1 1 7/ -> yes 2 1
# Behind a join all calls are known, and before it none of those behind.
mtlog 1/tree a range/store a 1 1 5/lane 1/load a 1/join/store a 1 1 7/lane 2/load a 1/
3 1 ok/5 0 1 entry 5/7 2 ok/9 1 2 entry 5/tree a range 1/1 1 7/ -> yes 1 1
3 1 ok/5 0 1 none/7 2 ok/9 1 2 entry 7/tree a range 1/1 1 7/ -> yes 0 2
3 1 ok/5 0 1 entry 5/7 2 ok/9 0 2 entry 5/tree a range 1/1 1 7/ -> no
3 1 ok/5 0 1 entry 5/7 2 ok/9 1 2 none/tree a range 1/1 1 7/ -> no
3 1 ok/5 0 2 entry 5/7 2 ok/9 1 2 entry 5/tree a range 1/1 1 7/ -> no
3 2 ok/5 0 1 none/7 1 ok/9 1 2 entry 5/tree a range 1/1 1 5/ -> no
# Each tree has numbers of its own, and the points stand in the order of the lines.
mtlog 1/tree a range/tree b range/store a 1 1 5/store b 1 1 8/store b 1 1 7/lane 1/load b 1/load a 1/load b 1/
4 1 ok/5 1 ok/6 2 ok/8 0 2 entry 8/9 0 1 none/10 0 2 entry 7/tree a range 1/1 1 5/tree b range 1/1 1 7/ -> yes 1 0 2
4 1 ok/5 2 ok/6 3 ok/8 0 2 entry 8/9 0 1 none/10 0 2 entry 7/tree a range 1/1 1 5/tree b range 1/1 1 7/ -> no
4 1 ok/5 1 ok/6 2 ok/8 0 2 entry 8/9 0 2 none/10 0 2 entry 7/tree a range 1/1 1 5/tree b range 1/1 1 7/ -> no
4 1 ok/5 1 ok/6 2 ok/8 0 2 entry 8/9 0 1 none/10 0 2 entry 7/tree b range 1/1 1 7/tree a range 1/1 1 5/ -> no
# A check tells how many ranges there are as its phase begins.
mtlog 2/tree a range/store a 1 1 5/join/check a/store a 2 2 7/
3 1 ok/5 lawful 1/6 2 ok/tree a range 2/1 1 5/2 2 7/ -> yes
3 1 ok/5 lawful 2/6 2 ok/tree a range 2/1 1 5/2 2 7/ -> no
3 1 ok/5 lawful 0/6 2 ok/tree a range 2/1 1 5/2 2 7/ -> no
3 1 ok/5 lawful 01/6 2 ok/tree a range 2/1 1 5/2 2 7/ -> no
3 1 ok/5 copied 1/6 2 ok/tree a range 2/1 1 5/2 2 7/ -> no
3 1 ok/6 2 ok/tree a range 2/1 1 5/2 2 7/ -> no
# A copy opens as the other tree stood then, and goes its own way.
mtlog 1/tree a range/store a 0 9 1/join/dup a b/store a 5 5 3/load b 5/
3 1 ok/5 copied 1/6 2 ok/7 0 0 entry 1/tree a range 3/0 4 1/5 5 3/6 9 1/tree b range 1/0 9 1/ -> yes 0
3 1 ok/5 copied 3/6 2 ok/7 0 0 entry 1/tree a range 3/0 4 1/5 5 3/6 9 1/tree b range 1/0 9 1/ -> no
3 1 ok/5 copied 0/6 2 ok/7 0 0 entry 1/tree a range 3/0 4 1/5 5 3/6 9 1/tree b range 1/0 9 1/ -> no
3 1 ok/5 lawful 1/6 2 ok/7 0 0 entry 1/tree a range 3/0 4 1/5 5 3/6 9 1/tree b range 1/0 9 1/ -> no
3 1 ok/5 copied 1/6 2 ok/7 0 0 entry 3/tree a range 3/0 4 1/5 5 3/6 9 1/tree b range 3/0 4 1/5 5 3/6 9 1/ -> no
3 1 ok/5 copied 1/6 2 ok/7 0 1 entry 1/tree a range 3/0 4 1/5 5 3/6 9 1/tree b range 1/0 9 1/ -> no
mtlog 1/tree a alloc/store a 0 9 1/join/dup a b/dup b c/clear b/join/check b/check c/store b 3 4 8/
3 1 ok/5 copied 1/6 copied 1/7 1 ok/9 lawful 0/10 lawful 1/11 2 ok/tree a alloc 1/0 9 1/tree b alloc 1/3 4 8/tree c alloc 1/0 9 1/ -> yes
3 1 ok/5 copied 1/6 copied 0/7 1 ok/9 lawful 0/10 lawful 0/11 2 ok/tree a alloc 1/0 9 1/tree b alloc 1/3 4 8/tree c alloc 0/ -> no
3 1 ok/5 copied 1/6 copied 1/7 2 ok/9 lawful 0/10 lawful 1/11 3 ok/tree a alloc 1/0 9 1/tree b alloc 1/3 4 8/tree c alloc 1/0 9 1/ -> no
";

/// Verdicts on trees of eight nodes. A store into a tree of one range needs four of them: if three are free and one is live,
/// another lane holds four.
pub const ROWS_8: &str = "\
# Another lane looked by then. A store over just the indexes of a range wants no rows.
mtlog 2/tree a range/lane 0/store a 1 1 5/store a 2 2 7/lane 1/load a 1/load a 1/
4 1 ok/5 2 nomem 4 3 1 4/7 0 1 entry 5/8 1 2 entry 5/tree a range 1/1 1 5/ -> yes 1 1
4 1 ok/5 2 nomem 4 3 1 4/7 0 1 entry 5/8 1 2 entry 5/tree a range 2/1 1 5/2 2 7/ -> no
4 1 ok/5 2 nomem 4 3 1 0/7 0 1 entry 5/8 1 2 entry 5/tree a range 1/1 1 5/ -> no
4 1 ok/5 2 nomem 4 4 1 3/7 0 1 entry 5/8 1 2 entry 5/tree a range 1/1 1 5/ -> no
4 1 ok/5 2 nomem 7 3 1 4/7 0 1 entry 5/8 1 2 entry 5/tree a range 1/1 1 5/ -> no
4 1 ok/5 2 nomem 4 3 5 0/7 0 1 entry 5/8 1 2 entry 5/tree a range 1/1 1 5/ -> no
4 1 ok/5 2 nomem 4 3 1 04/7 0 1 entry 5/8 1 2 entry 5/tree a range 1/1 1 5/ -> no
4 1 ok/5 2 nomem 4 3 1/7 0 1 entry 5/8 1 2 entry 5/tree a range 1/1 1 5/ -> no
mtlog 2/tree a range/lane 0/store a 1 1 5/store a 1 1 7/lane 1/load a 1/load a 1/
4 1 ok/5 2 nomem 4 3 1 4/7 0 1 entry 5/8 1 2 entry 5/tree a range 1/1 1 5/ -> no
# Nobody looks; or the lane that stores does, or another one at another tree, or in a later phase.
mtlog 1/tree a range/store a 1 1 5/lane 1/store a 2 2 7/
3 1 ok/5 2 nomem 4 3 1 4/tree a range 1/1 1 5/ -> no
mtlog 1/tree a range/tree b range/store a 1 1 5/store a 2 2 7/load a 1/lane 1/load b 1/join/lane 1/load a 1/
4 1 ok/5 2 nomem 4 3 1 4/6 2 2 entry 5/8 0 0 none/11 2 2 entry 5/tree a range 1/1 1 5/tree b range 0/ -> no
# It looked or scanned in an earlier phase.
mtlog 1/tree a range/lane 1/load a 1/join/store a 1 1 5/store a 2 2 7/
4 0 0 none/6 1 ok/7 2 nomem 4 3 1 4/tree a range 1/1 1 5/ -> yes 0
mtlog 1/tree a range/lane 1/scan a 1 9 1/join/store a 1 1 5/store a 2 2 7/
4 0 0 none/6 1 ok/7 2 nomem 4 3 1 4/tree a range 1/1 1 5/ -> yes 0
# A tree of six ranges may have two levels, and need seven rows; one of five may not.
mtlog 1/tree a range/store a 1 1 1/store a 2 2 1/store a 3 3 1/store a 4 4 1/store a 5 5 1/store a 6 6 1/erase a 1/
3 1 ok/4 2 ok/5 3 ok/6 4 ok/7 5 ok/8 6 ok/9 7 nomem 7 6 2 0/tree a range 6/1 1 1/2 2 1/3 3 1/4 4 1/5 5 1/6 6 1/ -> yes
3 1 ok/4 2 ok/5 3 ok/6 4 ok/7 5 ok/8 6 ok/9 7 nomem 4 3 5 0/tree a range 6/1 1 1/2 2 1/3 3 1/4 4 1/5 5 1/6 6 1/ -> yes
3 1 ok/4 2 ok/5 3 ok/6 4 ok/7 5 ok/8 6 ok/9 7 nomem 7 7 1 0/tree a range 6/1 1 1/2 2 1/3 3 1/4 4 1/5 5 1/6 6 1/ -> no
3 1 ok/4 2 ok/5 3 ok/6 4 ok/7 5 ok/8 6 nomem 7 6 2 0/9 7 was 1/tree a range 4/2 2 1/3 3 1/4 4 1/5 5 1/ -> no
3 1 ok/4 2 ok/5 3 ok/6 4 ok/7 5 ok/8 6 nomem 4 3 5 0/9 7 was 1/tree a range 4/2 2 1/3 3 1/4 4 1/5 5 1/ -> no
# Four lanes on trees of all kinds, which are copied and checked between their phases: other lanes hold rows of a tree and of a
# copy.
mtlog 2/tree a range/tree b alloc/tree n range32/tree m alloc32/lane 0/store a 1 1 5/store b 1 1 5/store n 0 max 5/\
    store m 1 1 5/lane 1/store a 2 2 7/load b 1/scan n 9 max 2/lane 2/find a 0 9/alloc m 1 0 9 9/load n max/lane 3/\
    next a 1 9/prev m max 0/store b 1 1 9/join/dup a c/check b/dup m d/lane 1/store c 1 1 9/store c 3 3 9/load d 1/\
    lane 2/load c 2/erase d 1/lane 3/erase a 2/load c 3/lane 0/rfind d 9 0/insert a 1 2 5/
7 1 ok/8 1 ok/9 1 ok/10 2 ok/12 2 nomem 4 3 1 4/13 0 2 entry 9/14 0 1 range 0 4294967295 5/14 0 1 none/\
    16 0 2 range 1 1 5/17 1 start 0/18 0 1 none/20 0 1 none/21 1 2 range 1 1 5/22 2 over 5/24 copied 1/25 lawful 1/\
    26 copied 2/28 1 over 5/29 2 nomem 4 3 1 4/30 0 1 entry 5/32 0 1 none/33 1 was 1 1 5/35 3 none/36 0 1 none/\
    38 0 1 range 0 0 9/39 4 exists/tree a range 1/1 1 5/tree b alloc 1/1 1 9/tree n range32 1/0 4294967295 5/\
    tree m alloc32 2/0 0 9/1 1 5/tree c range 1/1 1 9/tree d alloc32 1/0 0 9/ -> yes 2 1 1 1 0 0 2 0 0 0 1
7 1 ok/8 1 ok/9 1 ok/10 2 ok/12 2 nomem 4 3 1 4/13 0 2 entry 9/14 0 1 range 0 4294967295 5/14 0 1 none/\
    16 0 2 range 1 1 5/17 1 start 0/18 0 1 none/20 0 1 none/21 1 2 range 1 1 5/22 2 over 5/24 copied 1/25 lawful 2/\
    26 copied 2/28 1 over 5/29 2 nomem 4 3 1 4/30 0 1 entry 5/32 0 1 none/33 1 was 1 1 5/35 3 none/36 0 1 none/\
    38 0 1 range 0 0 9/39 4 exists/tree a range 1/1 1 5/tree b alloc 1/1 1 9/tree n range32 1/0 4294967295 5/\
    tree m alloc32 2/0 0 9/1 1 5/tree c range 1/1 1 9/tree d alloc32 1/0 0 9/ -> no
7 1 ok/8 1 ok/9 1 ok/10 2 ok/12 2 nomem 4 3 1 4/13 0 2 entry 9/14 0 1 range 0 4294967295 5/14 0 1 none/\
    16 0 2 range 1 1 5/17 1 start 0/18 0 1 none/20 0 1 none/21 1 2 range 1 1 5/22 2 over 5/24 copied 1/25 lawful 1/\
    26 copied 2/28 1 over 5/29 2 nomem 4 3 1 4/30 0 1 entry 5/32 0 1 none/33 1 was 1 1 5/35 3 none/36 0 1 none/\
    38 0 0 range 0 0 9/39 4 exists/tree a range 1/1 1 5/tree b alloc 1/1 1 9/tree n range32 1/0 4294967295 5/\
    tree m alloc32 2/0 0 9/1 1 5/tree c range 1/1 1 9/tree d alloc32 1/0 0 9/ -> no
7 1 ok/8 1 ok/9 1 ok/10 2 ok/12 2 nomem 4 3 1 4/13 0 2 entry 9/14 0 1 range 0 4294967295 5/14 0 1 none/\
    16 0 2 range 1 1 5/17 1 start 0/18 0 1 none/20 0 1 none/21 1 2 range 1 1 5/22 2 over 5/24 copied 1/25 lawful 1/\
    26 copied 2/28 1 over 5/29 2 nomem 4 2 1 5/30 0 1 entry 5/32 0 1 none/33 1 was 1 1 5/35 3 none/36 0 1 none/\
    38 0 1 range 0 0 9/39 4 exists/tree a range 1/1 1 5/tree b alloc 1/1 1 9/tree n range32 1/0 4294967295 5/\
    tree m alloc32 2/0 0 9/1 1 5/tree c range 1/1 1 9/tree d alloc32 1/0 0 9/ -> yes 2 1 1 1 0 0 2 0 0 0 1
7 1 ok/8 1 ok/9 1 ok/10 2 ok/12 2 nomem 4 3 1 4/13 0 2 entry 9/14 0 1 range 0 4294967295 5/14 0 1 none/\
    16 0 2 range 1 1 5/17 1 start 0/18 0 1 none/20 0 1 none/21 1 2 range 1 1 5/22 2 over 5/24 copied 1/25 lawful 1/\
    26 copied 2/28 1 over 5/29 2 nomem 4 3 0 5/30 0 1 entry 5/32 0 1 none/33 1 was 1 1 5/35 3 none/36 0 1 none/\
    38 0 1 range 0 0 9/39 4 exists/tree a range 1/1 1 5/tree b alloc 1/1 1 9/tree n range32 1/0 4294967295 5/\
    tree m alloc32 2/0 0 9/1 1 5/tree c range 1/1 1 9/tree d alloc32 1/0 0 9/ -> no
mtlog 1/tree a range/tree b alloc/tree n range32/tree m alloc32/lane 0/store a 1 1 5/store b 1 1 5/store n 0 max 5/\
    store m 1 1 5/lane 1/store a 2 2 7/load b 1/scan n 9 max 2/lane 2/find a 0 9/alloc m 1 0 9 9/load n max/lane 3/\
    next a 1 9/prev m max 0/store b 1 1 9/join/dup a c/check b/dup m d/lane 1/store c 1 1 9/store c 3 3 9/load d 1/\
    lane 2/load c 2/erase d 1/lane 3/erase a 2/load c 3/lane 0/rfind d 9 0/insert a 1 2 5/
7 1 ok/8 1 ok/9 1 ok/10 2 ok/12 2 nomem 4 3 1 4/13 0 2 entry 9/14 0 1 range 0 4294967295 5/14 0 1 none/\
    16 0 2 range 1 1 5/17 1 start 0/18 0 1 none/20 0 1 none/21 1 2 range 1 1 5/22 2 ok/24 copied 1/25 lawful 1/\
    26 copied 2/28 1 ok/29 2 nomem 4 3 1 4/30 0 1 entry 5/32 0 1 none/33 1 was 5/35 3 none/36 0 1 none/\
    38 0 1 range 0 0 9/39 4 exists/tree a range 1/1 1 5/tree b alloc 1/1 1 9/tree n range32 1/0 4294967295 5/\
    tree m alloc32 2/0 0 9/1 1 5/tree c range 1/1 1 9/tree d alloc32 1/0 0 9/ -> yes 2 1 1 1 0 0 2 0 0 0 1
7 1 ok/8 1 ok/9 1 ok/10 2 ok/12 2 nomem 4 3 1 4/13 0 2 entry 9/14 0 1 range 0 4294967295 5/14 0 1 none/\
    16 0 2 range 1 1 5/17 1 start 0/18 0 1 none/20 0 1 none/21 1 2 range 1 1 5/22 2 over 5/24 copied 1/25 lawful 1/\
    26 copied 2/28 1 over 5/29 2 nomem 4 3 1 4/30 0 1 entry 5/32 0 1 none/33 1 was 1 1 5/35 3 none/36 0 1 none/\
    38 0 1 range 0 0 9/39 4 exists/tree a range 1/1 1 5/tree b alloc 1/1 1 9/tree n range32 1/0 4294967295 5/\
    tree m alloc32 2/0 0 9/1 1 5/tree c range 1/1 1 9/tree d alloc32 1/0 0 9/ -> no
";

/// Verdicts on trees of 33 nodes. A tree that opened empty has at most two nodes, and 28 for each call before, that are live or
/// held.
pub const ROWS_33: &str = "\
mtlog 1/tree a range/store a 1 1 5/store a 2 2 7/lane 1/load a 1/
3 1 ok/4 2 nomem 4 3 1 29/6 0 2 entry 5/tree a range 1/1 1 5/ -> yes 1
";

/// Verdicts on trees of 34 nodes.
pub const ROWS_34: &str = "\
mtlog 1/tree a range/store a 1 1 5/store a 2 2 7/lane 1/load a 1/
3 1 ok/4 2 nomem 4 3 1 30/6 0 2 entry 5/tree a range 1/1 1 5/ -> no
mtlog 1/tree a range/store a 1 1 5/store a 1 1 7/store a 2 2 7/lane 1/load a 1/
3 1 ok/4 2 ok/5 3 nomem 4 3 1 30/7 0 3 entry 5/tree a range 1/1 1 7/ -> yes 1
";

/// Verdicts on trees of four nodes, if nobody could hold any.
pub const ROWS_4: &str = "\
# A refusal leaves the map. Nobody has to be refused, but a clear and a store over just one range never are.
mtlog 1/tree a range/store a 10 10 5/store a 20 20 7/store a 10 10 4/pstore a 10 10 8/erase a 10/clear a/store a 1 1 9/
3 1 ok/4 2 nomem 4 3 1 0/5 3 ok/6 4 nomem 4 3 1 0/7 5 nomem 4 3 1 0/8 6 ok/9 7 ok/tree a range 1/1 1 9/ -> yes
3 1 ok/4 2 ok/5 3 ok/6 4 nomem 4 3 1 0/7 5 was 4/8 6 ok/9 7 ok/tree a range 1/1 1 9/ -> yes
3 1 ok/4 2 nomem 4 3 1 0/5 3 nomem 4 3 1 0/6 4 ok/7 5 was 8/8 6 ok/9 7 ok/tree a range 1/1 1 9/ -> no
3 1 ok/4 2 ok/5 3 ok/6 4 ok/7 5 was 8/8 6 nomem 4 3 1 0/9 7 ok/tree a range 2/1 1 9/20 20 7/ -> no
3 1 nomem 1 0 0 4/4 2 ok/5 3 ok/6 4 ok/7 5 was 8/8 6 ok/9 7 ok/tree a range 1/1 1 9/ -> no
3 1 nomem 1 4 0 0/4 2 ok/5 3 ok/6 4 ok/7 5 was 8/8 6 ok/9 7 ok/tree a range 1/1 1 9/ -> no
# A store that wants its rows at hand may be refused whatever it changes, but where it may not be made.
mtlog 1/tree a range/store a 1 1 5/pstore a 1 1 7/pstore a 2 1 7/
3 1 ok/4 2 nomem 4 3 1 0/5 3 invalid/tree a range 1/1 1 5/ -> yes
3 1 ok/4 2 nomem 4 3 1 0/5 3 nomem 4 3 1 0/tree a range 1/1 1 5/ -> no
# A call that changes nothing wants no rows.
mtlog 1/tree a alloc/store a 1 1 5/store a 2 2 0/erase a 2/insert a 1 2 8/gap a 1 2 9/alloc a 1 2 9 8/
3 1 ok/4 2 ok/5 3 none/6 4 exists/7 5 start 2/8 6 nomem 4 3 1 0/tree a alloc 1/1 1 5/ -> yes
3 1 ok/4 2 nomem 4 3 1 0/5 3 none/6 4 exists/7 5 start 2/8 6 start 2/tree a alloc 2/1 1 5/2 2 8/ -> no
3 1 ok/4 2 ok/5 3 nomem 4 3 1 0/6 4 exists/7 5 start 2/8 6 start 2/tree a alloc 2/1 1 5/2 2 8/ -> no
3 1 ok/4 2 ok/5 3 none/6 4 nomem 4 3 1 0/7 5 start 2/8 6 start 2/tree a alloc 2/1 1 5/2 2 8/ -> no
3 1 ok/4 2 ok/5 3 none/6 4 exists/7 5 nomem 4 3 1 0/8 6 start 2/tree a alloc 2/1 1 5/2 2 8/ -> no
";
