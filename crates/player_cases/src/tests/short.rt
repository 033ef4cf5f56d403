//! Short sessions with seeks, abandonment, latencies, dead periods and live edges.

use super::{Case, ON_DEMAND};

pub const SHORT: [Case; 23] = [
    Case {
        seg_ms: 1000,
        bitrates: &[1000, 1500, 2000],
        sizes: &[
            800_000, 900_000, 2_000_000, 2_000_000, 1_500_000, 4_000_000, 1_000_000, 1_500_000,
            4_000_000,
        ],
        periods: &[
            (600, 0, 900),
            (250, 600_000, 0),
            (4000, 2_000_000, 1),
            (10, 100, 350),
        ],
        buffer_ms: 5001,
        abandon: true,
        seeks: &[(930, 0), (7869, 2), (8998, 1)],
        ahead: ON_DEMAND,
        rungs: &[1, 0, 2],
        counters: [930, 252, 2, 451, 1_308_000, 4633],
        lines: "0 request 0 1|700 abandon 0 1 to 0 got 60000|700 request 0 0|\
            930 seek 0 wasted 250000|930 request 0 1|1381 arrive 0 1 first 931 rate 2000000|\
            1381 request 1 0|1381 play 0 1|2381 stall|2382 arrive 1 0 first 1382 rate 2000000|\
            2382 request 2 2|2382 play 1 0|2882 abandon 2 2 to 1 got 998000|2882 request 2 1|\
            3382 stall|3633 arrive 2 1 first 2883 rate 2000000|3633 play 2 1|4633 end|",
    },
    Case {
        seg_ms: 400,
        bitrates: &[1, 450, 3000],
        sizes: &[
            320, 144_000, 1_200_000, 800, 180_000, 720_000, 400, 108_000, 1_200_000,
        ],
        periods: &[(3, 0, 100), (3, 3_000_000, 3), (10, 900_000, 350)],
        buffer_ms: 1201,
        abandon: true,
        seeks: &[(1139, 1), (2422, 2), (3522, 0)],
        ahead: ON_DEMAND,
        rungs: &[2, 2, 2],
        counters: [644, 303, 2, 1251, 2_176_200, 3430],
        lines: "0 request 0 2|500 abandon 0 2 to 1 got 552000|500 request 0 1|\
            644 arrive 0 1 first 516 rate 1125000|644 request 1 2|644 play 0 1|1044 stall|\
            1139 seek 1 wasted 537000|1139 request 1 2|1782 arrive 1 2 first 1142 rate 1125000|\
            1782 request 2 2|1782 play 1 2|2182 stall|2282 abandon 2 2 to 1 got 543600|\
            2282 request 2 1|2390 arrive 2 1 first 2294 rate 1125000|2390 play 2 1|\
            2422 seek 2 wasted 0|2422 request 2 2|2922 abandon 2 2 to 1 got 543600|\
            2922 request 2 1|3030 arrive 2 1 first 2934 rate 1125000|3030 play 2 1|3430 end|",
    },
    Case {
        seg_ms: 100,
        bitrates: &[1, 200, 1500, 2000],
        sizes: &[200, 12_000, 90_000, 200_000, 60, 20_000, 120_000, 160_000],
        periods: &[(250, 2000, 1), (100, 100, 20), (3, 0, 0)],
        buffer_ms: 100,
        abandon: false,
        seeks: &[],
        ahead: 50,
        rungs: &[0, 0],
        counters: [151, 129, 1, 0, 0, 480],
        lines: "50 request 0 0|151 arrive 0 0 first 51 rate 2000|151 play 0 0|251 request 1 0|\
            251 stall|380 arrive 1 0 first 271 rate 550|380 play 1 0|480 end|",
    },
    Case {
        seg_ms: 100,
        bitrates: &[200, 2000],
        sizes: &[26_000, 120_000, 20_000, 260_000],
        periods: &[
            (250, 4_000_000, 900),
            (1, 2_000_000, 0),
            (250, 0, 350),
            (4000, 600, 3),
        ],
        buffer_ms: 100,
        abandon: false,
        seeks: &[],
        ahead: 50,
        rungs: &[0, 0],
        counters: [4507, 4399, 1, 0, 0, 9106],
        lines: "50 request 0 0|4507 arrive 0 0 first 250 rate 6107|4507 play 0 0|4607 request 1 0|\
            4607 stall|9006 arrive 1 0 first 4751 rate 4700|9006 play 1 0|9106 end|",
    },
    Case {
        seg_ms: 400,
        bitrates: &[1, 3, 450, 700],
        sizes: &[
            520, 2400, 144_000, 224_000, 240, 2400, 360_000, 224_000, 400, 720, 180_000, 280_000,
            520, 1200, 234_000, 168_000, 240, 1200, 360_000, 560_000,
        ],
        periods: &[(3, 1500, 0), (3, 2500, 1)],
        buffer_ms: 400,
        abandon: true,
        seeks: &[(1438, 3), (4998, 4)],
        ahead: ON_DEMAND,
        rungs: &[3, 1, 1, 3, 2],
        counters: [760, 899, 2, 761, 3552, 3620],
        lines: "0 request 0 3|500 abandon 0 3 to 0 got 999|500 request 0 0|\
            760 arrive 0 0 first 500 rate 2000|760 play 0 0|1160 request 1 1|1160 stall|\
            1438 seek 3 wasted 556|1438 request 3 3|1938 abandon 3 3 to 0 got 998|\
            1938 request 3 0|2199 arrive 3 0 first 1938 rate 1992|2199 play 3 0|\
            2599 request 4 2|2599 stall|3099 abandon 4 2 to 0 got 999|3099 request 4 0|\
            3220 arrive 4 0 first 3100 rate 2000|3220 play 4 0|3620 end|",
    },
    Case {
        seg_ms: 1,
        bitrates: &[3, 2000],
        sizes: &[2, 1200, 3, 1200, 3, 2000, 3, 4000],
        periods: &[(1500, 2000, 350), (1500, 100_000, 100)],
        buffer_ms: 1,
        abandon: true,
        seeks: &[(0, 0), (5, 3), (10, 2)],
        ahead: ON_DEMAND,
        rungs: &[1, 1, 1, 1],
        counters: [0, 699, 1, 862, 600, 1563],
        lines: "0 seek 0 wasted 0|0 request 0 1|5 seek 3 wasted 0|5 request 3 1|10 seek 2 wasted 0|\
            10 request 2 1|510 abandon 2 1 to 0 got 300|510 request 2 0|\
            862 arrive 2 0 first 860 rate 1500|862 play 2 0|863 request 3 1|863 stall|\
            1363 abandon 3 1 to 0 got 300|1363 request 3 0|1562 arrive 3 0 first 1561 rate 3000|\
            1562 play 3 0|1563 end|",
    },
    Case {
        seg_ms: 7,
        bitrates: &[3000],
        sizes: &[27_300, 42_000, 27_300, 12_600],
        periods: &[
            (1, 3_000_000, 3),
            (1500, 3_000_000, 900),
            (250, 0, 350),
            (100, 0, 100),
        ],
        buffer_ms: 24,
        abandon: false,
        seeks: &[(0, 0), (26, 0), (46, 0)],
        ahead: ON_DEMAND,
        rungs: &[0, 0, 0, 0],
        counters: [0, 2730, 3, 956, 0, 3714],
        lines: "0 seek 0 wasted 0|0 request 0 0|26 seek 0 wasted 0|26 request 0 0|\
            46 seek 0 wasted 0|46 request 0 0|956 arrive 0 0 first 946 rate 2730000|\
            956 request 1 0|956 play 0 0|963 stall|1865 arrive 1 0 first 1640 rate 186666|\
            1865 request 2 0|1865 play 1 0|1872 stall|2775 arrive 2 0 first 2765 rate 2730000|\
            2775 request 3 0|2775 play 2 0|2782 stall|3707 arrive 3 0 first 3478 rate 55021|\
            3707 play 3 0|3714 end|",
    },
    Case {
        seg_ms: 1,
        bitrates: &[3],
        sizes: &[2, 3, 3, 3, 1],
        periods: &[(250, 500, 100), (600, 1500, 1)],
        buffer_ms: 3,
        abandon: false,
        seeks: &[],
        ahead: 1,
        rungs: &[0, 0, 0, 0, 0],
        counters: [104, 150, 4, 0, 0, 259],
        lines: "0 request 0 0|104 arrive 0 0 first 100 rate 500|104 request 1 0|104 play 0 0|\
            105 stall|210 arrive 1 0 first 204 rate 500|210 request 2 0|210 play 1 0|211 stall|\
            253 arrive 2 0 first 251 rate 1500|253 request 3 0|253 play 2 0|254 stall|\
            256 arrive 3 0 first 254 rate 1500|256 request 4 0|256 play 3 0|257 stall|\
            258 arrive 4 0 first 257 rate 1000|258 play 4 0|259 end|",
    },
    Case {
        seg_ms: 7,
        bitrates: &[1],
        sizes: &[7, 7, 4],
        periods: &[(3, 2500, 1), (3, 2500, 3)],
        buffer_ms: 38,
        abandon: false,
        seeks: &[(3, 0), (9, 2), (47, 0)],
        ahead: ON_DEMAND,
        rungs: &[0, 0, 0],
        counters: [3, 0, 0, 11, 12, 21],
        lines: "0 request 0 0|3 seek 0 wasted 5|3 request 0 0|9 arrive 0 0 first 6 rate 2333|\
            9 seek 2 wasted 7|9 request 2 0|14 arrive 2 0 first 12 rate 2000|14 play 2 0|21 end|",
    },
    Case {
        seg_ms: 1,
        bitrates: &[1, 700, 1500],
        sizes: &[1, 420, 1200, 1, 910, 1200],
        periods: &[(10, 2_000_000, 1), (250, 0, 350), (1500, 2_000_000, 900)],
        buffer_ms: 2,
        abandon: false,
        seeks: &[],
        ahead: 1,
        rungs: &[2, 2],
        counters: [2, 1, 1, 0, 0, 5],
        lines: "0 request 0 2|2 arrive 0 2 first 1 rate 1200000|2 request 1 2|2 play 0 2|3 stall|\
            4 arrive 1 2 first 3 rate 1200000|4 play 1 2|5 end|",
    },
    Case {
        seg_ms: 1000,
        bitrates: &[3, 700, 1500, 3000],
        sizes: &[
            3000, 420_000, 3_000_000, 3_900_000, 3000, 560_000, 1_950_000, 1_800_000, 2400,
            910_000, 3_000_000, 3_900_000,
        ],
        periods: &[(10, 900_000, 3), (100, 3_000_000, 0), (250, 900_000, 900)],
        buffer_ms: 3001,
        abandon: true,
        seeks: &[(4028, 0), (4275, 1)],
        ahead: ON_DEMAND,
        rungs: &[1, 3, 3],
        counters: [237, 471, 2, 0, 735_600, 3708],
        lines: "0 request 0 1|237 arrive 0 1 first 3 rate 1794871|237 request 1 3|237 play 0 1|\
            1237 stall|1514 arrive 1 3 first 363 rate 1563857|1514 request 2 3|1514 play 1 3|\
            2014 abandon 2 3 to 1 got 735600|2014 request 2 1|2514 stall|\
            2708 arrive 2 1 first 2163 rate 1669724|2708 play 2 1|3708 end|",
    },
    Case {
        seg_ms: 1,
        bitrates: &[3],
        sizes: &[1, 3],
        periods: &[(250, 3000, 1)],
        buffer_ms: 2,
        abandon: false,
        seeks: &[(0, 0), (1, 0), (3, 1)],
        ahead: ON_DEMAND,
        rungs: &[0, 0],
        counters: [0, 0, 0, 5, 1, 6],
        lines: "0 seek 0 wasted 0|0 request 0 0|1 seek 0 wasted 0|1 request 0 0|\
            3 arrive 0 0 first 2 rate 1000|3 seek 1 wasted 1|3 request 1 0|\
            5 arrive 1 0 first 4 rate 3000|5 play 1 0|6 end|",
    },
    Case {
        seg_ms: 1000,
        bitrates: &[1, 2000, 3000],
        sizes: &[
            2000, 2_000_000, 2_400_000, 1000, 1_600_000, 2_400_000, 800, 1_600_000, 3_900_000, 800,
            2_600_000, 6_000_000,
        ],
        periods: &[(100, 3_000_000, 0)],
        buffer_ms: 1001,
        abandon: true,
        seeks: &[(9351, 3)],
        ahead: ON_DEMAND,
        rungs: &[2, 2, 2, 2],
        counters: [800, 3464, 3, 0, 1_500_000, 8264],
        lines: "0 request 0 2|800 arrive 0 2 first 0 rate 3000000|800 play 0 2|1799 request 1 2|\
            1800 stall|2599 arrive 1 2 first 1799 rate 3000000|2599 play 1 2|3598 request 2 2|\
            3599 stall|4898 arrive 2 2 first 3598 rate 3000000|4898 play 2 2|5897 request 3 2|\
            5898 stall|6397 abandon 3 2 to 1 got 1500000|6397 request 3 1|\
            7264 arrive 3 1 first 6397 rate 2998846|7264 play 3 1|8264 end|",
    },
    Case {
        seg_ms: 7,
        bitrates: &[450, 700],
        sizes: &[1890, 3920, 4095, 9800, 6300, 4900, 1890, 6370],
        periods: &[(10, 700_000, 0), (1, 1000, 1)],
        buffer_ms: 8,
        abandon: false,
        seeks: &[],
        ahead: 0,
        rungs: &[0, 1, 1, 0],
        counters: [10, 23, 3, 0, 0, 61],
        lines: "7 request 0 0|10 arrive 0 0 first 7 rate 630000|10 play 0 0|16 request 1 1|17 stall|\
            31 arrive 1 1 first 16 rate 653333|31 play 1 1|37 request 2 1|38 stall|\
            45 arrive 2 1 first 37 rate 612500|45 play 2 1|51 request 3 0|52 stall|\
            54 arrive 3 0 first 51 rate 630000|54 play 3 0|61 end|",
    },
    Case {
        seg_ms: 7,
        bitrates: &[1, 2000],
        sizes: &[7, 14_000, 14, 18_200, 9, 11_200, 5, 8400, 7, 11_200],
        periods: &[
            (4000, 2_000_000, 20),
            (600, 600_000, 0),
            (600, 4_000_000, 0),
        ],
        buffer_ms: 8,
        abandon: false,
        seeks: &[(48, 4), (87, 1)],
        ahead: ON_DEMAND,
        rungs: &[1, 0, 1, 1, 1],
        counters: [27, 14, 1, 26, 0, 81],
        lines: "0 request 0 1|27 arrive 0 1 first 20 rate 2000000|27 play 0 1|33 request 1 0|\
            34 stall|48 seek 4 wasted 0|48 request 4 1|74 arrive 4 1 first 68 rate 1866666|\
            74 play 4 1|81 end|",
    },
    Case {
        seg_ms: 400,
        bitrates: &[3, 200, 700, 1500],
        sizes: &[
            1200, 64_000, 560_000, 1_200_000, 720, 64_000, 560_000, 360_000, 1200, 80_000, 224_000,
            480_000, 1560, 80_000, 168_000, 1_200_000, 1200, 104_000, 224_000, 360_000,
        ],
        periods: &[(250, 1_000_000, 100)],
        buffer_ms: 401,
        abandon: true,
        seeks: &[(2464, 4), (3541, 1), (3791, 0)],
        ahead: ON_DEMAND,
        rungs: &[3, 0, 3, 1, 0],
        counters: [1160, 504, 2, 102, 705_000, 2966],
        lines: "0 request 0 3|500 abandon 0 3 to 2 got 400000|500 request 0 2|\
            1160 arrive 0 2 first 600 rate 1000000|1160 play 0 2|1559 request 1 0|1560 stall|\
            1660 arrive 1 0 first 1659 rate 720000|1660 play 1 0|2059 request 2 3|2060 stall|\
            2464 seek 4 wasted 305000|2464 request 4 0|2566 arrive 4 0 first 2564 rate 600000|\
            2566 play 4 0|2966 end|",
    },
    Case {
        seg_ms: 100,
        bitrates: &[3, 3000],
        sizes: &[600, 390_000, 600, 600_000],
        periods: &[
            (250, 150_000, 1),
            (600, 0, 900),
            (250, 900, 20),
            (1, 3_000_000, 100),
        ],
        buffer_ms: 500,
        abandon: false,
        seeks: &[],
        ahead: 0,
        rungs: &[0, 0],
        counters: [105, 0, 0, 0, 0, 305],
        lines: "100 request 0 0|105 arrive 0 0 first 101 rate 150000|105 play 0 0|200 request 1 0|\
            205 arrive 1 0 first 201 rate 150000|205 play 1 0|305 end|",
    },
    Case {
        seg_ms: 100,
        bitrates: &[1500],
        sizes: &[120_000, 120_000],
        periods: &[
            (600, 0, 20),
            (4000, 300_000, 900),
            (4000, 0, 100),
            (1500, 0, 900),
        ],
        buffer_ms: 500,
        abandon: false,
        seeks: &[(0, 1), (142, 0), (363, 1)],
        ahead: ON_DEMAND,
        rungs: &[0, 0],
        counters: [0, 0, 0, 1000, 0, 1100],
        lines: "0 seek 1 wasted 0|0 request 1 0|142 seek 0 wasted 0|142 request 0 0|\
            363 seek 1 wasted 0|363 request 1 0|1000 arrive 1 0 first 383 rate 194489|\
            1000 play 1 0|1100 end|",
    },
    Case {
        seg_ms: 400,
        bitrates: &[200, 450],
        sizes: &[48_000, 360_000, 160_000, 234_000, 48_000, 144_000],
        periods: &[(3, 500, 350), (600, 765_000, 20)],
        buffer_ms: 800,
        abandon: false,
        seeks: &[(910, 0), (1226, 2)],
        ahead: ON_DEMAND,
        rungs: &[0, 0, 0],
        counters: [86, 0, 0, 166, 160_000, 1709],
        lines: "0 request 0 0|86 arrive 0 0 first 23 rate 761904|86 request 1 0|86 play 0 0|\
            316 arrive 1 0 first 106 rate 761904|486 request 2 0|486 play 1 0|\
            569 arrive 2 0 first 506 rate 761904|886 play 2 0|910 seek 0 wasted 0|\
            910 request 0 0|993 arrive 0 0 first 930 rate 761904|993 request 1 0|993 play 0 0|\
            1226 arrive 1 0 first 1013 rate 751173|1226 seek 2 wasted 160000|1226 request 2 0|\
            1309 arrive 2 0 first 1246 rate 761904|1309 play 2 0|1709 end|",
    },
    Case {
        seg_ms: 1000,
        bitrates: &[1, 450, 1500, 2000],
        sizes: &[
            2000, 585_000, 1_200_000, 1_600_000, 2000, 270_000, 3_000_000, 1_200_000,
        ],
        periods: &[(1, 0, 3), (1, 4_000_000, 900)],
        buffer_ms: 5000,
        abandon: false,
        seeks: &[(3092, 1), (4458, 1)],
        ahead: ON_DEMAND,
        rungs: &[0, 0],
        counters: [6, 0, 0, 0, 0, 2006],
        lines: "0 request 0 0|6 arrive 0 0 first 5 rate 2000000|6 request 1 0|6 play 0 0|\
            12 arrive 1 0 first 11 rate 2000000|1006 play 1 0|2006 end|",
    },
    Case {
        seg_ms: 1,
        bitrates: &[1, 200],
        sizes: &[1, 120, 1, 200],
        periods: &[(3, 340_000, 1), (3, 1000, 3)],
        buffer_ms: 6,
        abandon: false,
        seeks: &[(2, 1), (3, 1)],
        ahead: ON_DEMAND,
        rungs: &[1, 0],
        counters: [2, 0, 0, 5, 120, 8],
        lines: "0 request 0 1|2 arrive 0 1 first 1 rate 120000|2 seek 1 wasted 120|2 request 1 0|\
            3 seek 1 wasted 0|3 request 1 0|7 arrive 1 0 first 6 rate 1000|7 play 1 0|8 end|",
    },
    Case {
        seg_ms: 100,
        bitrates: &[3, 700, 2000, 3000],
        sizes: &[300, 42_000, 160_000, 390_000, 300, 70_000, 120_000, 300_000],
        periods: &[
            (250, 900_000, 0),
            (600, 0, 100),
            (1500, 150, 1),
            (600, 3_000_000, 0),
        ],
        buffer_ms: 500,
        abandon: true,
        seeks: &[(460, 0), (511, 1)],
        ahead: ON_DEMAND,
        rungs: &[1, 0],
        counters: [47, 0, 0, 0, 0, 247],
        lines: "0 request 0 1|47 arrive 0 1 first 0 rate 893617|47 request 1 0|47 play 0 1|\
            48 arrive 1 0 first 47 rate 300000|147 play 1 0|247 end|",
    },
    Case {
        seg_ms: 1000,
        bitrates: &[1000, 2000],
        sizes: &[
            1_000_000, 2_000_000, 1_000_000, 2_000_000, 1_000_000, 2_000_000,
        ],
        periods: &[(60_000, 2_000_000, 0)],
        buffer_ms: 10_000,
        abandon: false,
        seeks: &[],
        ahead: 0,
        rungs: &[1, 1, 1],
        counters: [2000, 0, 0, 0, 0, 5000],
        lines: "1000 request 0 1|2000 arrive 0 1 first 1000 rate 2000000|2000 request 1 1|\
            2000 play 0 1|3000 arrive 1 1 first 2000 rate 2000000|3000 request 2 1|\
            3000 play 1 1|4000 arrive 2 1 first 3000 rate 2000000|4000 play 2 1|5000 end|",
    },
];
