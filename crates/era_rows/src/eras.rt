//! The longest memory of one session: sixteen archived sets, and lists since eras on both sides of them.

use crate::row::Answer::Whole;
use crate::row::Sent::{Text, Write};
use crate::row::{Row, SERVE};
use crate::run::first_unmet;
use std::test::Fail;

/// A write of block `e` in each era `e` from 1 to 21, one more of block 2 in era 21, and lists. Sixteen sets are archived
/// then, those of the eras 5 to 20.
static ERAS: [Row<'static>; 1] = [Row {
    shows: "sets that were merged are still listed",
    words: SERVE,
    origin: 512,
    fails: &[],
    stream: &[
        Write("8", "aa", 1),
        Text("0 checkpoint\n"),
        Write("16", "aa", 1),
        Text("0 checkpoint\n"),
        Write("24", "aa", 1),
        Text("0 checkpoint\n"),
        Write("32", "aa", 1),
        Text("0 checkpoint\n"),
        Write("40", "aa", 1),
        Text("0 checkpoint\n"),
        Write("48", "aa", 1),
        Text("0 checkpoint\n"),
        Write("56", "aa", 1),
        Text("0 checkpoint\n"),
        Write("64", "aa", 1),
        Text("0 checkpoint\n"),
        Write("72", "aa", 1),
        Text("0 checkpoint\n"),
        Write("80", "aa", 1),
        Text("0 checkpoint\n"),
        Write("88", "aa", 1),
        Text("0 checkpoint\n"),
        Write("96", "aa", 1),
        Text("0 checkpoint\n"),
        Write("104", "aa", 1),
        Text("0 checkpoint\n"),
        Write("112", "aa", 1),
        Text("0 checkpoint\n"),
        Write("120", "aa", 1),
        Text("0 checkpoint\n"),
        Write("128", "aa", 1),
        Text("0 checkpoint\n"),
        Write("136", "aa", 1),
        Text("0 checkpoint\n"),
        Write("144", "aa", 1),
        Text("0 checkpoint\n"),
        Write("152", "aa", 1),
        Text("0 checkpoint\n"),
        Write("160", "aa", 1),
        Text("0 checkpoint\n"),
        Write("168", "aa", 1),
        Write("23", "bb", 1),
        Text("0 list 1\n0 list 3\n0 list 4\n0 list 5\n0 list 6\n0 list 21\n0 list 22\n"),
    ],
    answer: Whole(
        "open 1 64\n\
         1 ok t0 m1 g2 d3\n\
         2 era 2 e4\n\
         3 ok t5 m6 g7 d8\n\
         4 era 3 e9\n\
         5 ok t10 m11 g12 d13\n\
         6 era 4 e14\n\
         7 ok t15 m16 g17 d18\n\
         8 era 5 e19\n\
         9 ok t20 m21 g22 d23\n\
         10 era 6 e24\n\
         11 ok t25 m26 g27 d28\n\
         12 era 7 e29\n\
         13 ok t30 m31 g32 d33\n\
         14 era 8 e34\n\
         15 ok t35 m36 g37 d38\n\
         16 era 9 e39\n\
         17 ok t40 m41 g42 d43\n\
         18 era 10 e44\n\
         19 ok t45 m46 g47 d48\n\
         20 era 11 e49\n\
         21 ok t50 m51 g52 d53\n\
         22 era 12 e54\n\
         23 ok t55 m56 g57 d58\n\
         24 era 13 e59\n\
         25 ok t60 m61 g62 d63\n\
         26 era 14 e64\n\
         27 ok t65 m66 g67 d68\n\
         28 era 15 e69\n\
         29 ok t70 m71 g72 d73\n\
         30 era 16 e74\n\
         31 ok t75 m76 g77 d78\n\
         32 era 17 e79\n\
         33 ok t80 m81 g82 d83\n\
         34 era 18 e84\n\
         35 ok t85 m86 g87 d88\n\
         36 era 19 e89\n\
         37 ok t90 m91 g92 d93\n\
         38 era 20 e94\n\
         39 ok t95 m96 g97 d98\n\
         40 era 21 e99\n\
         41 ok t100 m101 g102 d103\n\
         42 ok t104 m105 g106 d107\n\
         43 blocks 1-21 l108\n\
         44 blocks 2-21 l109\n\
         45 blocks 2,4-21 l110\n\
         46 blocks 2,5-21 l111\n\
         47 blocks 2,6-21 l112\n\
         48 blocks 2,21 l113\n\
         49 blocks - l114\n\
         end 21 115\n",
    ),
    status: 0,
    holds: &[],
}];

#[test]
fn sixteen_sets_are_listed(rt: HostRuntime) -> Result<(), Fail> {
    let unmet = first_unmet(&rt, rt.alloc(), ERAS.as_slice())?;
    assert_eq!(rt; unmet, None);
    Ok(())
}
