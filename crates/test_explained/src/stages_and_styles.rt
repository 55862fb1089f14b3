//! Tests of the stages of texts between quotes, and of the styles of texts.

use capn_quoted::Stage;
use capn_show::Style;
use std::process::Abort;

/// Returns the stage after all bytes of `text`, which follow the opening quote. Returns `None` if no text goes on so.
fn after(text: &[u8]) -> Option<Stage> {
    let mut stage = Stage::First;
    for c in text {
        stage = stage.follow(*c)?;
    }
    Some(stage)
}

/// Tests whether `text` is complete with its closing quote.
fn closes(text: &[u8]) -> bool {
    match after(text) {
        Some(stage) => stage.is_closed(),
        None => false,
    }
}

#[test]
fn texts_that_close(rt: HostRuntime) {
    assert!(rt; closes(b"ab\""));
    assert!(rt; closes(b"a\\\"b\\\\\\0\""));
    // A text beyond ASCII ends with a zero byte.
    assert!(rt; closes(b"h\xc3\xb6\\0\""));
    assert!(rt; closes(b"a\\u{200b}\\0\""));
    assert!(rt; !closes(b"h\xc3\xb6\""));
    assert!(rt; !closes(b"ab"));
    assert!(rt; !closes(b""));
}

#[test]
fn stages_inside_a_text(rt: HostRuntime) {
    assert!(rt; after(b"") == Some(Stage::First));
    assert!(rt; after(b"a") == Some(Stage::Next(false)));
    assert!(rt; after(b"a\\n") == Some(Stage::Next(true)));
    assert!(rt; after(b"\\") == Some(Stage::Marked(false)));
    assert!(rt; after(b"\\u") == Some(Stage::Opening));
    assert!(rt; after(b"\\u{20") == Some(Stage::Number(0x20)));
    assert!(rt; after(b"a\\0") == Some(Stage::Zero));
    let inside = Stage::Inside {
        least: 128,
        left: 1,
        code: 3,
    };
    assert!(rt; after(b"\xc3") == Some(inside));
}

/// A text between quotes isn't empty, has no bare control character, and ends at its closing quote.
#[test]
fn bytes_that_no_text_has(rt: HostRuntime) {
    for text in [
        b"\"".as_slice(),
        b"a\n",
        b"\\x",
        b"\\u{g",
        b"\\0a",
        b"ab\"c",
        b"\xff",
        b"\xc3a",
    ] {
        assert!(rt; after(text) == None);
    }
}

#[test]
fn properties_of_styles(rt: HostRuntime) {
    let lines = b"end\n".as_slice();
    for (style, end, has_lines, is_quoted) in [
        (Style::Lines, lines, true, false),
        (Style::Quoted, lines, true, true),
        (Style::Json, b"", false, false),
        (Style::JsonText, b"", false, false),
    ] {
        assert!(rt; style.end() == end);
        assert!(rt; style.has_lines() == has_lines);
        assert!(rt; style.is_quoted() == is_quoted);
    }
}
