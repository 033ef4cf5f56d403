use super::*;
use lab_model::Refusal;
use std::process::Abort;
use std::test::Fail;

/// Texts, and the first fault of each.
const REFUSED: [(&str, Kind, Key, u32, u32); 40] = [
    ("", Kind::NotJson, Key::Whole, 0, 0),
    ("[]", Kind::WrongKind, Key::Whole, 0, 0),
    ("null", Kind::WrongKind, Key::Whole, 0, 0),
    (
        "{\"segment_duration_ms\": 10",
        Kind::NotJson,
        Key::Whole,
        0,
        0,
    ),
    (
        "{\"segment_duration_ms\":true}x",
        Kind::NotJson,
        Key::Whole,
        0,
        0,
    ),
    (
        "﻿{\"segment_duration_ms\":10,\"bitrates_kbps\":[1,2],\"segment_sizes_bits\":[[1,2]]}",
        Kind::NotJson,
        Key::Whole,
        0,
        0,
    ),
    ("{\"title\":1e400}", Kind::NotJson, Key::Whole, 0, 0),
    (
        "{\"bitrates_kbps\":[1],\"segment_sizes_bits\":[[1]]}",
        Kind::MissingKey,
        Key::SegmentDuration,
        0,
        0,
    ),
    (
        "{\"segment_duration_ms\":true}",
        Kind::WrongKind,
        Key::SegmentDuration,
        0,
        0,
    ),
    (
        "{\"segment_duration_ms\":10,\"segment_sizes_bits\":[[1]]}",
        Kind::MissingKey,
        Key::Bitrates,
        0,
        0,
    ),
    (
        "{\"segment_duration_ms\":10,\"bitrates_kbps\":[1]}",
        Kind::MissingKey,
        Key::SegmentSizes,
        0,
        0,
    ),
    (
        "{\"segment_duration_ms\":10,\"segment_duration_ms\":0}",
        Kind::OutOfRange,
        Key::SegmentDuration,
        0,
        0,
    ),
    (
        "{\"segment_duration_ms\":1000.0,\"bitrates_kbps\":[1,2],\"segment_sizes_bits\":[[1,2]]}",
        Kind::NotWhole,
        Key::SegmentDuration,
        0,
        0,
    ),
    (
        "{\"segment_duration_ms\":1e3,\"bitrates_kbps\":[1,2],\"segment_sizes_bits\":[[1,2]]}",
        Kind::NotWhole,
        Key::SegmentDuration,
        0,
        0,
    ),
    (
        "{\"segment_duration_ms\":-0,\"bitrates_kbps\":[1,2],\"segment_sizes_bits\":[[1,2]]}",
        Kind::NotWhole,
        Key::SegmentDuration,
        0,
        0,
    ),
    (
        "{\"segment_duration_ms\":18446744073709551616,\"bitrates_kbps\":[1,2],\"segment_sizes_bits\":[[1,2]]}",
        Kind::NotWhole,
        Key::SegmentDuration,
        0,
        0,
    ),
    (
        "{\"segment_duration_ms\":18446744073709551615,\"bitrates_kbps\":[1,2],\"segment_sizes_bits\":[[1,2]]}",
        Kind::OutOfRange,
        Key::SegmentDuration,
        0,
        0,
    ),
    (
        "{\"segment_duration_ms\":-1,\"bitrates_kbps\":[1,2],\"segment_sizes_bits\":[[1,2]]}",
        Kind::OutOfRange,
        Key::SegmentDuration,
        0,
        0,
    ),
    (
        "{\"segment_duration_ms\":0,\"bitrates_kbps\":[1,2],\"segment_sizes_bits\":[[1,2]]}",
        Kind::OutOfRange,
        Key::SegmentDuration,
        0,
        0,
    ),
    (
        "{\"segment_duration_ms\":60001,\"bitrates_kbps\":[1,2],\"segment_sizes_bits\":[[1,2]]}",
        Kind::OutOfRange,
        Key::SegmentDuration,
        0,
        0,
    ),
    (
        "{\"segment_duration_ms\":\"10\",\"bitrates_kbps\":[1,2],\"segment_sizes_bits\":[[1,2]]}",
        Kind::WrongKind,
        Key::SegmentDuration,
        0,
        0,
    ),
    (
        "{\"segment_duration_ms\":10,\"bitrates_kbps\":1000,\"segment_sizes_bits\":[[1,2]]}",
        Kind::WrongKind,
        Key::Bitrates,
        0,
        0,
    ),
    (
        "{\"segment_duration_ms\":10,\"bitrates_kbps\":[],\"segment_sizes_bits\":[[1,2]]}",
        Kind::Empty,
        Key::Bitrates,
        0,
        0,
    ),
    (
        "{\"segment_duration_ms\":10,\"bitrates_kbps\":[1,2,3,4,5,6,7,8,9,10,11,12,13,14,15,16,17],\"segment_sizes_bits\":[[1,2]]}",
        Kind::OutOfRange,
        Key::Bitrates,
        0,
        0,
    ),
    (
        "{\"segment_duration_ms\":10,\"bitrates_kbps\":[1000,null],\"segment_sizes_bits\":[[1,2]]}",
        Kind::WrongKind,
        Key::Bitrates,
        0,
        2,
    ),
    (
        "{\"segment_duration_ms\":10,\"bitrates_kbps\":[0],\"segment_sizes_bits\":[[1,2]]}",
        Kind::OutOfRange,
        Key::Bitrates,
        0,
        1,
    ),
    (
        "{\"segment_duration_ms\":10,\"bitrates_kbps\":[1,10000001],\"segment_sizes_bits\":[[1,2]]}",
        Kind::OutOfRange,
        Key::Bitrates,
        0,
        2,
    ),
    (
        "{\"segment_duration_ms\":10,\"bitrates_kbps\":[2000,1000],\"segment_sizes_bits\":[[1,2]]}",
        Kind::Order,
        Key::Bitrates,
        0,
        2,
    ),
    (
        "{\"segment_duration_ms\":10,\"bitrates_kbps\":[1000,1000],\"segment_sizes_bits\":[[1,2]]}",
        Kind::Order,
        Key::Bitrates,
        0,
        2,
    ),
    (
        "{\"segment_duration_ms\":10,\"bitrates_kbps\":[1,2,2.5],\"segment_sizes_bits\":[[1,2]]}",
        Kind::NotWhole,
        Key::Bitrates,
        0,
        3,
    ),
    (
        "{\"segment_duration_ms\":10,\"bitrates_kbps\":[3,2,\"x\"],\"segment_sizes_bits\":[[1,2]]}",
        Kind::Order,
        Key::Bitrates,
        0,
        2,
    ),
    (
        "{\"segment_duration_ms\":10,\"bitrates_kbps\":[1,2],\"segment_sizes_bits\":{}}",
        Kind::WrongKind,
        Key::SegmentSizes,
        0,
        0,
    ),
    (
        "{\"segment_duration_ms\":10,\"bitrates_kbps\":[1,2],\"segment_sizes_bits\":[]}",
        Kind::Empty,
        Key::SegmentSizes,
        0,
        0,
    ),
    (
        "{\"segment_duration_ms\":10,\"bitrates_kbps\":[1,2],\"segment_sizes_bits\":[[1000000,2000000],[1000000]]}",
        Kind::Shape,
        Key::SegmentSizes,
        2,
        0,
    ),
    (
        "{\"segment_duration_ms\":10,\"bitrates_kbps\":[1,2],\"segment_sizes_bits\":[[1,2],[1,2,3]]}",
        Kind::Shape,
        Key::SegmentSizes,
        2,
        0,
    ),
    (
        "{\"segment_duration_ms\":10,\"bitrates_kbps\":[1,2],\"segment_sizes_bits\":[[1,2],7]}",
        Kind::WrongKind,
        Key::SegmentSizes,
        2,
        0,
    ),
    (
        "{\"segment_duration_ms\":10,\"bitrates_kbps\":[1,2],\"segment_sizes_bits\":[[1,2],[3,0]]}",
        Kind::OutOfRange,
        Key::SegmentSizes,
        2,
        2,
    ),
    (
        "{\"segment_duration_ms\":10,\"bitrates_kbps\":[1,2],\"segment_sizes_bits\":[[1,2],[200000001,4]]}",
        Kind::OutOfRange,
        Key::SegmentSizes,
        2,
        1,
    ),
    (
        "{\"segment_duration_ms\":10,\"bitrates_kbps\":[1,2],\"segment_sizes_bits\":[[1,2],[3,{}]]}",
        Kind::WrongKind,
        Key::SegmentSizes,
        2,
        2,
    ),
    (
        "{\"segment_duration_ms\":10,\"bitrates_kbps\":[1,2],\"segment_sizes_bits\":[[1,2.0],[3,4]]}",
        Kind::NotWhole,
        Key::SegmentSizes,
        1,
        2,
    ),
];

const SMALL: &str =
    "{\"segment_duration_ms\":1000,\"bitrates_kbps\":[1000,2000],\"segment_sizes_bits\":[[1,20],[300,4000]]} \n";

fn refusal_of(rt: &impl Abort, answer: &Result<Manifest, InputFault>) -> Refusal {
    match answer {
        Err(InputFault::Refused(refusal)) => *refusal,
        _ => panic!(rt; "no refusal"),
    }
}

fn not_json() -> Refusal {
    Refusal {
        kind: Kind::NotJson,
        key: Key::Whole,
        row: 0,
        column: 0,
    }
}

#[test]
fn bad_manifests(rt: HostRuntime) -> Result<(), Fail> {
    for (text, kind, key, row, column) in REFUSED {
        let refusal = refusal_of(&rt, &read_manifest(rt.alloc(), text.as_bytes()));
        let wanted = Refusal {
            kind,
            key,
            row,
            column,
        };
        assert_eq!(rt; refusal, wanted, "{text}");
    }
    let not_utf8 = b"{\"title\":\"\xff\"}";
    assert_eq!(rt;
        refusal_of(&rt, &read_manifest(rt.alloc(), not_utf8)),
        not_json()
    );
    Ok(())
}

#[test]
fn truncated_manifests(rt: HostRuntime) -> Result<(), Fail> {
    let bytes = SMALL.as_bytes();
    for (k, byte) in bytes.iter().enumerate() {
        let answer = read_manifest(rt.alloc(), &bytes[..k]);
        if k + 2 < bytes.len() {
            assert_eq!(rt;
                refusal_of(&rt, &answer),
                not_json(),
                "before {byte} at {k}"
            );
        } else {
            assert!(rt; answer.is_ok());
        }
    }
    Ok(())
}

/// A manifest with a title that nests so deep.
fn deep_manifest(alloc: Global, depth: usize) -> Result<String, Fail> {
    let open = "[".repeat(alloc, depth)?;
    let close = "]".repeat(alloc, depth)?;
    Ok(format!(in alloc;
        "{{\"title\":{open}{close},\"segment_duration_ms\":0,{}",
        &SMALL[1..]
    )?)
}

#[test]
fn accepted_manifests(rt: HostRuntime) -> Result<(), Fail> {
    let deepest = deep_manifest(rt.alloc(), 126)?;
    let manifest = read_manifest(rt.alloc(), deepest.as_bytes()).expect(&rt, "a manifest");
    assert_eq!(rt; manifest.seg_ms(), 1000);
    let rungs = manifest.rungs();
    assert!(rt; rungs == 2);
    let segments = manifest.segments();
    assert!(rt; segments == 2);
    assert_eq!(rt; [manifest.bitrate(0), manifest.bitrate(1)], [1000, 2000]);
    assert_eq!(rt; [manifest.size(0, 0), manifest.size(0, 1)], [1, 20]);
    assert_eq!(rt; [manifest.size(1, 0), manifest.size(1, 1)], [300, 4000]);
    let too_deep = deep_manifest(rt.alloc(), 127)?;
    assert_eq!(rt;
        refusal_of(&rt, &read_manifest(rt.alloc(), too_deep.as_bytes())),
        not_json()
    );
    Ok(())
}

/// A manifest of so many segments on 16 rungs, the greatest numbers in all places.
fn great(alloc: Global, segments: u32) -> Result<String, Fail> {
    let mut text = String::new(alloc);
    text.push_str("{\"segment_duration_ms\":60000,\"bitrates_kbps\":[9999985")?;
    for bitrate in 9_999_986..=10_000_000 {
        text.push_str(&format!(in alloc; ",{bitrate}")?)?;
    }
    text.push_str("],\"segment_sizes_bits\":[")?;
    for segment in 0..segments {
        text.push_str(if segment == 0 {
            "[200000000"
        } else {
            ",[200000000"
        })?;
        for _ in 1..16 {
            text.push_str(",200000000")?;
        }
        text.push(']')?;
    }
    text.push_str("]}")?;
    Ok(text)
}

#[test]
fn great_manifests(rt: HostRuntime) -> Result<(), Fail> {
    let text = great(rt.alloc(), 2000)?;
    let manifest = read_manifest(rt.alloc(), text.as_bytes()).expect(&rt, "a manifest");
    assert_eq!(rt; manifest.segments(), 2000);
    let more = great(rt.alloc(), 2001)?;
    let wanted = Refusal {
        kind: Kind::OutOfRange,
        key: Key::SegmentSizes,
        row: 0,
        column: 0,
    };
    assert_eq!(rt;
        refusal_of(&rt, &read_manifest(rt.alloc(), more.as_bytes())),
        wanted
    );
    Ok(())
}
