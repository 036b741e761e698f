//! What runs look like.

use crate::scripts::{ASKED, FULL, run_of, text_of};
use resolver_timeline::drawn::Drawn;
use resolver_timeline::run::Run;
use std::alloc::Global;
use std::panic::Expect;
use std::process::Abort;

/// The worked script of the engine.
const WORKED: &str = "at 20\nnet 4 x000000000000000501026869\nverdict 0 complete\n";

/// The same at one moment: nine commands from its first input to its end, with eight columns for each.
const AT_ONCE: &str = "net 4 x000000000000000501026869\nverdict 0 complete\n";

/// The key waits while its scan is open, and then is asked of peer 4 and judged for one command each.
const KEY_1: &str = "key 1             ........................................aaaaaaaa========\n";

const KEY_MARKS: &str =
    "                                                                  v       +*\n";

/// That a text has a line.
fn assert_line(rt: &impl Abort, text: &str, line: &str) {
    assert!(rt; text.contains(line), "wanted:\n{line}\ncame:\n{text}");
}

#[test]
fn the_worked_script_as_text(rt: HostRuntime) {
    let run = run_of(&rt, rt.alloc(), ASKED, AT_ONCE);
    let text = text_of(&rt, rt.alloc(), &run);
    assert_line(&rt, text.as_str(), KEY_1);
    assert_line(&rt, text.as_str(), KEY_MARKS);
    assert_line(&rt, text.as_str(), "a peer 4 was asked\n");
}

/// Of an actor: a verdict that is dropped, behind which a late subscriber gets the response again, and one of a wrong value.
const SOURCE: &str = "opaque 100
fetch 1 10 7
fetched 0 x6869
fetch 1 11 8
verdict 0 dropped
verdict 1 invalid
show
";

// Six commands from the first input to the end, with twelve columns for each.
#[test]
fn a_script_of_an_actor_as_text(rt: HostRuntime) {
    let run = run_of(&rt, rt.alloc(), SOURCE, "");
    let text = text_of(&rt, rt.alloc(), &run);
    let title = "1 key in 6 commands: an actor, which fetches from one source\n";
    assert_line(&rt, text.as_str(), title);
    assert_line(
        &rt,
        text.as_str(),
        "\n                      v                       v           <\n",
    );
    assert_line(
        &rt,
        text.as_str(),
        "\nkey 1     ############====================================~~~~~~~~~~~~~~~~~~~~~~~~\n",
    );
}

// Eight commands, with nine columns for each: key 2 comes with the last of them, and peer 4 is full one command before.
#[test]
fn a_full_peer_as_text(rt: HostRuntime) {
    let run = run_of(&rt, rt.alloc(), FULL, "fetch 2 10 8\n");
    let text = text_of(&rt, rt.alloc(), &run);
    assert_line(
        &rt,
        text.as_str(),
        "\nkey 1              .............................................aaaaaaaaaaaaaaaaaa\n",
    );
    assert_line(
        &rt,
        text.as_str(),
        "\nkey 2                                                                    ooooooooo\n",
    );
    assert_line(
        &rt,
        text.as_str(),
        "\npeer 4    111111111111111111111111111111111111111111111111111111==================\n",
    );
}

/// A run as SVG, by its moments.
fn svg_of(rt: &impl Abort, alloc: Global, run: &Run) -> String {
    let drawn = Drawn {
        is_text: false,
        by_order: false,
    };
    drawn.picture(alloc, run).expect(rt, "memory")
}

#[test]
fn the_worked_script_as_svg(rt: HostRuntime) {
    let run = run_of(&rt, rt.alloc(), ASKED, WORKED);
    let drawn = svg_of(&rt, rt.alloc(), &run);
    let text = drawn.as_str();
    assert!(rt; text.starts_with("<svg "), "the picture begins");
    assert!(rt; text.contains(">1 key in 20 ns: "), "it has its title");
    assert!(rt; text.contains(">key 1</text>"), "a key has its name");
    assert!(rt; text.contains(">peer 4</text>"), "a peer has its name");
    assert!(rt;
        text.contains("width=\"830\" height=\"12\"/>"),
        "the request takes all the time"
    );
    assert!(rt; text.ends_with("</svg>\n"), "the picture ends");
}

#[test]
fn a_script_without_inputs_is_drawn(rt: HostRuntime) {
    let run = run_of(&rt, rt.alloc(), "", "");
    let drawn = svg_of(&rt, rt.alloc(), &run);
    assert!(rt; drawn.as_str().ends_with("</svg>\n"), "the picture ends");
}
