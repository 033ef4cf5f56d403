//! Certificates, whole and with changed lines, and what is said of them, all from outside.

/// The certificate of the film M1 on a link of 2000 kbps with utilities 0 and 10 and buffer 10000.
pub const STEADY_PLAN: &str =
    "abrlab certificate 1\nsegments 3\nrungs 2\nscore 29000\nplan 1 1 1\nstart 0 0\nlayer 0 0 1\n500 500 49500 0 0\nlayer 0 1 1\n1000 1000 109000 1 1\nlayer 1 0 2\n1000 500 49500 0 0\n1500 1000 109000 2 2\nlayer 1 1 2\n1500 500 59500 1 1\n2000 1000 119000 3 3\nlayer 2 0 4\n1500 500 49500\n2000 500 59500\n2000 1000 109000\n2500 1000 119000\nlayer 2 1 4\n2000 500 59500\n2500 500 69500\n2500 1000 119000\n3000 1000 129000\nend\n";

/// The same with utilities 0 and 0, and a best list that isn't the planner's.
pub const EQUAL_UTILITIES: &str =
    "abrlab certificate 1\nsegments 3\nrungs 2\nscore -500\nplan 0 1 1\nstart 0 0\nlayer 0 0 1\n500 500 49500 0 0\nlayer 0 1 1\n1000 1000 99000 1 1\nlayer 1 0 2\n1000 500 49500 0 0\n1500 1000 99000 1 1\nlayer 1 1 2\n1500 500 49500 0 0\n2000 1000 99000 1 1\nlayer 2 0 2\n1500 500 49500\n2000 1000 99000\nlayer 2 1 2\n2000 500 49500\n2500 1000 99000\nend\n";

/// The same with a table of utilities.
pub const UTILITY_TABLE: &str =
    "abrlab certificate 2\nsegments 3\nrungs 2\nutilities table\nscore 59500\nplan 0 1 1\nstart 0 0\nlayer 0 0 1\n500 500 49500 0 0\nlayer 0 1 1\n1000 1000 99000 1 1\nlayer 1 0 2\n1000 500 49500 0 0\n1500 1000 99000 1 1\nlayer 1 1 2\n1500 500 99500 1 1\n2000 1000 149000 2 2\nlayer 2 0 3\n1500 500 49500\n2000 500 99500\n2500 1000 149000\nlayer 2 1 3\n2000 500 59500\n2500 500 109500\n3000 1000 159000\nend\n";

/// The same as STEADY_PLAN for a live session with no media ahead.
pub const LIVE_EDGE: &str =
    "abrlab certificate 1\nsegments 3\nrungs 2\nscore 28000\nplan 1 1 1\nstart 0 0\nlayer 0 0 1\n1500 1500 148500 0 0\nlayer 0 1 1\n2000 2000 208000 1 0\nlayer 1 0 2\n2500 1500 148500 0 0\n2500 2000 208000 1 0\nlayer 1 1 1\n3000 2000 218000 1 0\nlayer 2 0 2\n3500 1500 148500\n3500 2000 218000\nlayer 2 1 1\n4000 2000 228000\nend\n";

/// The certificate of one segment of one bit.
pub const SMALLEST_INPUT: &str =
    "abrlab certificate 1\nsegments 1\nrungs 1\nscore -1\nplan 0\nstart 0\nlayer 0 0 1\n1 1 99\nend\n";

/// Changes of STEADY_PLAN, one a line: the number of the first line that gives way, the first being 1, how many do, the
/// lines in their place, each ended by a slash, and what is said of it. One for each clause, and far labels; then what
/// stays valid: labels in another order, labels that no list reaches, and an earlier one.
pub const CHANGED: &str = "6 1 start 0 1/|no V2 segment 0 rung 1 label 0
10 1 1001 1000 109000 1 1/|no V3 segment 0 rung 1 label 0
16 1 2000 1000 119001 3 3/|no V4 segment 1 rung 1 label 1
4 1 score 28999/|no V5 segment 2 rung 1 label 3
4 1 score 29001/|no V6 segment 0 rung 0 label 0
8 1 0500 500 49500 0 0/|bad-line at line row 8 column 0
10 1 1000000000000001 1000 109000 1 1/|no V2 segment 0 rung 1 label 0
10 1 1000000000000000 1000 109000 1 1/|no V3 segment 0 rung 1 label 0
10 1 1000000000000000000 1000 109000 1 1/|bad-line at line row 10 column 0
8 6 500 500 49500 1 0/layer 0 1 1/1000 1000 109000 0 1/layer 1 0 2/1500 1000 109000 2 2/1000 500 49500 0 0/|yes
6 3 start 1 0/layer 0 0 2/500 500 0 0 0/500 500 49500 0 0/|yes
17 5 layer 2 0 5/1500 500 49500/2000 500 59500/2000 1000 109000/2500 1000 119000/0 0 29000/|yes
26 1 2999 1000 129000/|yes";

/// The same of fifty more.
pub const MUTATED: &str =
    "1 3 abrlab certificate 2/segments 3/rungs 2/utilities table/|no V1 segment 0 rung 0 label 0
5 1 plan 2 1 1/|no V2 segment 0 rung 0 label 0
5 1 plan 1 2 1/|no V2 segment 1 rung 0 label 0
5 1 plan 1 1 99/|no V2 segment 2 rung 0 label 0
6 1 start 1 0/|no V2 segment 0 rung 0 label 0
6 1 start 0 9999999/|no V2 segment 0 rung 1 label 0
8 1 1000000000000001 500 49500 0 0/|no V2 segment 0 rung 0 label 0
8 1 500 500 49500 2 0/|no V2 segment 0 rung 0 label 0
10 1 1000 1000 109000 1 9999999/|no V2 segment 0 rung 1 label 0
13 1 1500 1000 109000 4 2/|no V2 segment 1 rung 0 label 1
15 1 1500 500 59500 1 4/|no V2 segment 1 rung 1 label 0
16 1 2000 1000 119000 4 4/|no V2 segment 1 rung 1 label 1
18 1 1000000000000001 500 49500/|no V2 segment 2 rung 0 label 0
26 1 3000 1000000000000001 129000/|no V2 segment 2 rung 1 label 3
10 3 1001 1000 109000 1 1/layer 1 0 2/1000 500 49500 0 4/|no V2 segment 1 rung 0 label 0
10 3 1001 1000 109000 1 1/layer 1 0 2/1000000000000001 500 49500 0 0/|no V2 segment 1 rung 0 label 0
8 1 501 500 49500 0 0/|no V3 segment 0 rung 0 label 0
8 1 500 500 49499 0 0/|no V3 segment 0 rung 0 label 0
10 1 1000 1001 109000 1 1/|no V3 segment 0 rung 1 label 0
10 1 1000 1000 108999 1 1/|no V3 segment 0 rung 1 label 0
6 3 start 1 0/layer 0 0 2/500 500 49500 0 0/501 500 49500 0 0/|no V3 segment 0 rung 0 label 1
7 2 layer 0 0 2/501 500 49500 0 0/500 500 49500 0 0/|no V3 segment 0 rung 0 label 0
8 1 500 500 49500 1 0/|no V4 segment 0 rung 0 label 0
10 1 1000 1000 109000 0 1/|no V4 segment 0 rung 1 label 0
10 1 1000 1000 109001 1 1/|no V4 segment 0 rung 1 label 0
12 1 1000 500 49501 0 0/|no V4 segment 1 rung 0 label 0
12 1 1000 500 49500 0 1/|no V4 segment 1 rung 0 label 0
13 1 1500 1000 109000 1 2/|no V4 segment 1 rung 0 label 1
15 1 1500 500 59500 1 2/|no V4 segment 1 rung 1 label 0
16 1 2000 1000 119000 2 3/|no V4 segment 1 rung 1 label 1
18 1 1500 501 49500/|no V4 segment 1 rung 0 label 0
19 1 2000 500 59499/|no V4 segment 1 rung 1 label 0
26 1 3000 999 129000/|no V5 segment 2 rung 1 label 3
4 1 score 28999/|no V5 segment 2 rung 1 label 3
4 1 score 18999/|no V5 segment 2 rung 0 label 3
21 1 2500 1000 129001/|no V5 segment 2 rung 0 label 3
18 1 0 0 29001/|no V4 segment 1 rung 0 label 0
4 2 score 18000/plan 0 0 0/|no V5 segment 2 rung 0 label 3
4 1 score 29001/|no V6 segment 0 rung 0 label 0
5 1 plan 1 1 0/|no V6 segment 0 rung 0 label 0
5 1 plan 0 0 0/|no V6 segment 0 rung 0 label 0
8 1 0500 500 49500 0 0/|bad-line at line row 8 column 0
26 2 3000 1000 129001/ends/|bad-line at line row 27 column 0
26 2 1000000000000001 1000 129000/end|bad-line at line row 27 column 0
16 2 2000 1000 119001 3 3/layer 2 0 5/|bad-line at line row 22 column 0
22 1 layer 2 1 3/|bad-line at line row 26 column 0
27 1 end//|bad-line at line row 28 column 0
7 2 layer 0 0 0/|no V2 segment 0 rung 0 label 0
22 5 layer 2 1 0/|no V2 segment 1 rung 0 label 0
4 1 score 999999999999999999999999/|no V6 segment 0 rung 0 label 0";
