//! Tables that close.
use crate::indexes::Look::Dump;
use crate::story::{End, Story, play_all};

// The tree of fourteen keys with its pages numbered level by level.
pub(crate) const FOURTEEN: &str = "\
2 8 - 18446744073709551615 - 9:6 18446744073709551615:7
1 6 - 9 7 3:1 6:2 9:3
1 7 9 18446744073709551615 - 12:4 18446744073709551615:5
0 1 - 3 2 1:10 2:20 3:30
0 2 3 6 3 4:40 5:50 6:60
0 3 6 9 4 7:70 8:80 9:90
0 4 9 12 5 10:100 11:110 12:120
0 5 12 18446744073709551615 - 13:130 14:140
";

const UNCHANGED: Story = Story {
    name: "pages are numbered anew",
    over: (0, 14),
    room: (0, 0),
    acts: &[],
    end: End::Closes(&[Dump(FOURTEEN)]),
};

const STORIES: [&Story; 1] = [&UNCHANGED];

#[test]
fn tables_that_close(rt: HostRuntime) {
    play_all(&rt, rt.alloc(), &STORIES);
}
