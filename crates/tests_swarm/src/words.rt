//! The words of a run, sweeps, and their pictures.

use resolver_swarm::plot::{Point, picture};
use resolver_swarm::settings::Settings;
use resolver_swarm::sweep::Sweep;
use resolver_swarm::words::{Misread, WORDS};
use std::alloc::Global;
use std::panic::Expect;
use std::process::Abort;

#[test]
fn each_word_sets_something(rt: HostRuntime) {
    for word in WORDS {
        let other = if word.usual == word.least {
            word.most
        } else {
            word.least
        };
        let mut settings = Settings::usual();
        settings.set(word, other);
        let name = word.name;
        assert!(rt; settings != Settings::usual(), "--{name} sets nothing");
        settings.set(word, word.usual);
        assert!(rt; settings == Settings::usual(), "--{name} can't be set back");
        assert_eq!(rt;
            word.check(word.usual),
            Ok(()),
            "--{name} is past its bounds"
        );
    }
}

#[test]
fn a_sweep_has_its_numbers(rt: HostRuntime) {
    let sweep = Sweep::read(rt.alloc(), "peer-limit=1,16").expect(&rt, "a sweep");
    assert!(rt; sweep.numbers.as_slice() == [1, 16].as_slice());
    assert_eq!(rt; sweep.settings(Settings::usual(), 16).peer_limit, 16);
}

/// That this text is no sweep, for this reason.
fn assert_misread(rt: &impl Abort, alloc: Global, text: &str, why: Misread) {
    match Sweep::read(alloc, text) {
        Ok(_) => panic!(rt; "{text} is read"),
        Err(misread) => assert_eq!(rt; misread, why, "{text}"),
    }
}

#[test]
fn what_is_no_sweep_is_named(rt: HostRuntime) {
    let alloc = rt.alloc();
    assert_misread(&rt, alloc, "window", Misread::Form);
    assert_misread(&rt, alloc, "window=1,,2", Misread::Form);
    assert_misread(&rt, alloc, "windows=1", Misread::Name);
    let bounds = Misread::Bounds {
        name: "window",
        least: 1,
        most: 10_000,
    };
    assert_misread(&rt, alloc, "window=4,0", bounds);
}

#[test]
fn a_picture_has_its_points(rt: HostRuntime) {
    let points = [
        Point {
            number: 1,
            median: Some(300),
            slowest: Some(500),
        },
        Point {
            number: 16,
            median: None,
            slowest: None,
        },
    ];
    let drawn = picture(rt.alloc(), "window", points.as_slice()).expect(&rt, "memory");
    let text = drawn.as_str();
    assert!(rt; text.contains(">window</text>"), "the axis has its name");
    assert!(rt; text.contains(">16</text>"), "a number has its label");
    assert_eq!(rt;
        text.matches("<circle").count(),
        4,
        "two points, and two in the legend"
    );
    assert!(rt; text.ends_with("</svg>\n"), "the picture ends");
}
