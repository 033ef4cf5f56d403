// Films, networks and scripts, as files.
use super::File;

// Three segments of one second on two rungs.
pub(super) const FILM: &str =
    r#"{"segment_duration_ms": 1000, "bitrates_kbps": [1000, 2000], "segment_sizes_bits": [[1000000, 2000000], [1000000, 2000000], [1000000, 2000000]]}"#;

// Links of 2000, 500 and 200 kbps without latency.
pub(super) const C2000: &str =
    r#"[{"duration_ms": 60000, "bandwidth_kbps": 2000, "latency_ms": 0}]"#;

pub(super) const C500: &str = r#"[{"duration_ms": 60000, "bandwidth_kbps": 500, "latency_ms": 0}]"#;

pub(super) const C200: &str = r#"[{"duration_ms": 60000, "bandwidth_kbps": 200, "latency_ms": 0}]"#;

// The three links.
pub(super) const KINDS: [&str; 3] = [C2000, C500, C200];

// The least film, and a link that carries a bit in a millisecond.
pub(super) const TINY: &str =
    r#"{"segment_duration_ms": 1, "bitrates_kbps": [1], "segment_sizes_bits": [[1]]}"#;

pub(super) const ONE: &str = r#"[{"duration_ms": 1, "bandwidth_kbps": 1, "latency_ms": 0}]"#;

// Ten segments of two seconds on four rungs, and six of one second on three.
pub(super) const WAVES: &str =
    r#"{"segment_duration_ms": 2000, "bitrates_kbps": [300, 750, 1500, 3000], "segment_sizes_bits": [[606000, 1185000, 3300000, 3960000], [414000, 1920000, 2160000, 6360000], [804000, 1005000, 3720000, 5220000], [384000, 1065000, 3450000, 6780000], [408000, 1350000, 2130000, 7800000], [684000, 1005000, 3960000, 4500000], [528000, 2100000, 4200000, 8040000], [402000, 1995000, 4020000, 6600000], [396000, 1320000, 1950000, 7860000], [462000, 1455000, 3390000, 4680000]]}"#;

pub(super) const SHORT: &str =
    r#"{"segment_duration_ms": 1000, "bitrates_kbps": [500, 1200, 2500], "segment_sizes_bits": [[570000, 1044000, 2900000], [495000, 1380000, 2275000], [430000, 1404000, 2900000], [600000, 1104000, 2575000], [430000, 1380000, 2100000], [580000, 996000, 2975000]]}"#;

// Networks that change.
pub(super) const FALLING: &str =
    r#"[{"duration_ms": 9000, "bandwidth_kbps": 4000, "latency_ms": 40}, {"duration_ms": 7000, "bandwidth_kbps": 350, "latency_ms": 120}, {"duration_ms": 6000, "bandwidth_kbps": 1800, "latency_ms": 0}]"#;

pub(super) const UNEVEN: &str =
    r#"[{"duration_ms": 1300, "bandwidth_kbps": 2600, "latency_ms": 75}, {"duration_ms": 700, "bandwidth_kbps": 0, "latency_ms": 10}, {"duration_ms": 2100, "bandwidth_kbps": 900, "latency_ms": 333}]"#;

// A quick one with latency and dead periods.
pub(super) const QUICK: &str =
    r#"[{"duration_ms": 1300, "bandwidth_kbps": 24000, "latency_ms": 75}, {"duration_ms": 700, "bandwidth_kbps": 0, "latency_ms": 10}, {"duration_ms": 2100, "bandwidth_kbps": 14500, "latency_ms": 33}]"#;

// The film on a link of 2000, of 500 and of 200 kbps.
pub(super) const STEADY: [File; 2] = [("m", FILM), ("t", C2000)];

pub(super) const SLOW: [File; 2] = [("m", FILM), ("t", C500)];

pub(super) const SLOWEST: [File; 2] = [("m", FILM), ("t", C200)];

// The same with a table of utilities, which tells the second segment from the others.
pub(super) const TABLE: &str = "0,0\n0,50\n0,10\n";

pub(super) const WEIGHED: [File; 3] = [("m", FILM), ("t", C2000), ("u", TABLE)];

// The longer films on networks that change, with tables of utilities.
pub(super) const WAVES_TABLE: &str =
    "20,45,70,80\n35,38,60,95\n0,50,50,51\n10,10,90,90\n60,61,62,63\n5,40,75,99\n0,0,0,100\n33,66,80,81\n12,55,55,97\n40,41,85,88\n";

pub(super) const SHORT_TABLE: &str = "0,10,25\n3,3,30\n0,24,25\n12,13,14\n0,0,40\n5,20,21\n";

pub(super) const WAVES_WEIGHED: [File; 3] = [("m", WAVES), ("t", FALLING), ("u", WAVES_TABLE)];

pub(super) const SHORT_WEIGHED: [File; 3] = [("m", SHORT), ("t", UNEVEN), ("u", SHORT_TABLE)];

// The least film on its link.
pub(super) const LEAST: [File; 2] = [("m", TINY), ("t", ONE)];

// A trace without periods.
pub(super) const NO_TRACE: [File; 1] = [("t", "[]")];
